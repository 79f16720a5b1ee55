//! The result of parsing a command line: a command, with the values of its options.
use unl_context::Context;
use unl_documents::{List, Text};

/// A command of the program, with the values of its options.
#[derive(Debug, Drop)]
pub enum Words {
    /// Reads lines of input, and prints for each line how an edge responds to it.
    Replay,
    /// Reads test files in the format of the Unleash client specification, and runs their tests.
    Check {
        /// The time of the evaluations, in milliseconds since 1970: at most 100,000,000,000,000.
        now: u64,
        /// The 64-bit word from which the random numbers of the evaluations are derived.
        word: u64,
    },
    /// Serves evaluations, and polls its upstream.
    Edge(EdgeArguments),
    /// Accepts commands that change features and segments, and serves the resulting state.
    Upstream(UpstreamArguments),
    /// Polls an upstream turn by turn, and prints after each turn whether one feature is on.
    Follow(FollowArguments),
    /// Reads features, a feature's name and a context from the input, and prints why that feature is on or off.
    Explain,
    /// Generates features and users, and evaluates the features for the users.
    Load {
        /// The seed from which the features and the users are generated.
        seed: u64,
        /// The number of evaluations: 1 to 1,000,000.
        count: u64,
    },
}

/// The values of the options of `edge`.
#[derive(Debug, Drop)]
pub struct EdgeArguments {
    /// The port to listen on, which isn't 0.
    pub port: u16,
    /// The upstream's `HOST:PORT`, with a nonempty host and a port other than 0.
    pub upstream: Text,
    /// The tokens that the edge sends to the upstream: 1 to 8, with distinct environments. The edge has one slot (the
    /// replica of an environment) for each token, in this order.
    pub upstream_tokens: List<Text>,
    /// The tokens that the edge may accept from clients, if the upstream knows them: 1 to 1,024.
    pub tokens: List<Text>,
    /// The host name of the edge, for the strategy `applicationHostname`. It may be empty.
    pub host: Text,
    /// The number of threads that serve: 1 to 16.
    pub workers: u32,
    /// The number of seconds between two polls of the upstream: 1 to 3,600.
    pub interval: u32,
    /// The number of connections after which the port is closed, or 0 for never.
    pub connections: u64,
    /// Whether only changes are requested from the upstream, instead of whole feeds.
    pub delta: bool,
}

/// The values of the options of `upstream`.
#[derive(Debug, Drop)]
pub struct UpstreamArguments {
    /// The port to listen on, which isn't 0.
    pub port: u16,
    /// The secret that a request must send as its token to have a command applied. It isn't empty.
    pub secret: Text,
    /// The environments: 1 to 8 distinct names of 1 to 255 bytes.
    pub environments: List<Text>,
    /// The tokens that edges and backends may use, each for one project or all projects. Together with
    /// `frontend_tokens` at most 1,024, with distinct texts.
    pub client_tokens: List<Text>,
    /// The tokens that browsers may use, with the limits of `client_tokens`.
    pub frontend_tokens: List<Text>,
    /// The number of connections after which the port is closed, or 0 for never.
    pub connections: u64,
    /// The epoch in the versions of all environments. It should be higher than at each earlier start, since an upstream
    /// that lost its commands numbers its versions from 0 again.
    pub epoch: u64,
    /// Whether the accepted commands are kept in a SQLite database in memory, instead of a list in memory.
    pub sqlite: bool,
}

/// The values of the options of `follow`.
#[derive(Debug, Drop)]
pub struct FollowArguments {
    /// The upstream's `HOST:PORT`, with a nonempty host and a port other than 0.
    pub upstream: Text,
    /// The token that is sent to the upstream.
    pub token: Text,
    /// The name of the feature to evaluate: 1 to 255 bytes.
    pub feature: Text,
    /// The context that the feature is evaluated for: read from a query, with its environment set to that of the token.
    pub context: Context,
    /// Whether only changes are requested from the upstream, instead of whole feeds.
    pub delta: bool,
    /// The number of turns, each of which polls the upstream once: 1 to 1,000,000.
    pub turns: u32,
    /// The number of seconds between two turns: 1 to 3,600.
    pub interval: u32,
}
