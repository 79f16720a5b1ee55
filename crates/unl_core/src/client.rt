//! Whether the client of a request knows segments, by the version of the client specification that the request names.
ghost use Rattle.std.specs.Prelude.{◌≡◌, IfOk};
ghost use Rattle.std.specs.Ordering.{is_lt};
ghost use Rattle.semver.specs.Identifiers.{parts_of};
ghost use Rattle.unl_constraints.specs.Version.{precedence, version_of};
ghost use Rattle.unl_core.specs.Client.{first_with_segments, is_before_segments, knows_no_segments, version_in};

use semver::Version;
use std::alloc::Global;
use unl_constraints::read_version;
use unl_documents::Memory;
use unl_http_api::{Request, utf8_in};

/// Whether the request names a version of the client specification (field `Unleash-Client-Spec`) whose clients don't
/// know segments: a full version of Semantic Versioning 2.0.0 with precedence below 4.2.0. A client that names no such
/// version counts as knowing segments.
pub(crate) fn knows_no_segments(alloc: Global, request: &Request) -> Result<bool, Memory>
    ensures { IfOk result (λ old. old ≡ knows_no_segments request.now) }
{
    match &request.spec {
        None => Ok(false),
        Some(spec) => names_old_version(alloc, spec.as_slice()),
    }
}

/// Whether the bytes are the text of a full version with precedence below 4.2.0.
fn names_old_version(alloc: Global, bytes: &[u8]) -> Result<bool, Memory>
    ensures { IfOk result (λ old. old ≡ is_before_segments (version_in bytes.now)) }
{
    match utf8_in(bytes) {
        None => Ok(false),
        Some(text) => is_old_version(alloc, text),
    }
}

/// Whether the text is a full version with precedence below 4.2.0.
fn is_old_version(alloc: Global, text: &str) -> Result<bool, Memory>
    ensures { IfOk result (λ old. old ≡ is_before_segments (version_of text.now)) }
{
    match read_version(alloc, text)? {
        None => Ok(false),
        Some(version) => Ok(is_before_first(&version)),
    }
}

/// Whether a version has precedence below 4.2.0, the first version whose clients know segments.
fn is_before_first(version: &Version) -> bool
    ensures { result ≡ is_lt (precedence (parts_of version.now) first_with_segments) }
{
    version.cmp_precedence(&Version::new(4, 2, 0)).is_lt()
}
