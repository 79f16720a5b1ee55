//! HTTP status codes of replies, by their names in RFC 9110.

/// The request succeeded.
pub const OK: u16 = 200;

/// The report or registration in the request was accepted.
pub const ACCEPTED: u16 = 202;

/// The client has the current content already.
pub const NOT_MODIFIED: u16 = 304;

/// The body or the context of the request can't be read.
pub const BAD_REQUEST: u16 = 400;

/// The request has no token.
pub const UNAUTHORIZED: u16 = 401;

/// The token is unknown, or it doesn't allow the request.
pub const FORBIDDEN: u16 = 403;

/// There is no such route, feature, segment or environment.
pub const NOT_FOUND: u16 = 404;

/// The route doesn't accept the method of the request.
pub const METHOD_NOT_ALLOWED: u16 = 405;

/// The command would exceed a limit, or the keeper (the store of accepted commands) is full.
pub const CONFLICT: u16 = 409;

/// The request can't be answered for now.
pub const SERVICE_UNAVAILABLE: u16 = 503;
