//! The options of each command, in the order of its usage text.

/// The kind of an option's value.
#[derive(Clone, Copy, Debug, PartialEq, Eq)]
pub(crate) enum OptionKind {
    /// Decimal digits.
    Number,
    /// Comma-separated items.
    List,
    /// Any other text, such as an address or a name.
    Other,
}

/// An option of a command. It takes one value.
#[derive(Clone, Copy, Debug)]
pub(crate) struct CommandOption {
    /// Its name, without the leading hyphens.
    pub name: &'static str,
    /// The kind of its value.
    pub kind: OptionKind,
    /// The placeholder for its value in the usage.
    pub value: &'static str,
    /// The default value, as a text for the usage. `None` if the option is required.
    pub absent: Option<&'static str>,
    /// The valid values, as a text for the usage.
    pub range: &'static str,
    /// What the option is for, as a text for the usage.
    pub purpose: &'static str,
}

/// The commands and what they do, in the order of the usage.
pub(crate) const COMMANDS: [(&str, &str); 7] = [
    ("edge", "polls an upstream, and serves its features"),
    (
        "upstream",
        "takes commands that change features, and serves the features",
    ),
    (
        "follow",
        "polls an upstream or an edge, and prints whether a feature is on",
    ),
    (
        "replay",
        "prints what an edge answers to the lines of its input",
    ),
    ("check", "runs the state test file of its input"),
    (
        "explain",
        "prints why the feature of its input is on or off",
    ),
    (
        "load",
        "evaluates features that it generates from a seed, and counts those that are on",
    ),
];

/// The range of an option whose value is a text.
const TEXT: &str = "no line break or NUL in it";

/// The range of an option whose value is a token.
const TOKEN: &str = "PROJECT:ENVIRONMENT.SECRET of at most 512 bytes";

/// The range of an option whose value is any unsigned 64-bit number.
const ANY_U64: &str = "0 to 18446744073709551615";

/// The option `--port`, with the default of `edge`.
const PORT: CommandOption = CommandOption {
    name: "port",
    kind: OptionKind::Number,
    value: "N",
    absent: Some("3063"),
    range: "1 to 65535",
    purpose: "the port to listen at",
};

const CONNECTIONS: CommandOption = CommandOption {
    name: "connections",
    kind: OptionKind::Number,
    value: "N",
    absent: Some("0"),
    range: ANY_U64,
    purpose: "the number of connections after which it ends; 0 for never",
};

const UPSTREAM_ADDRESS: CommandOption = CommandOption {
    name: "upstream",
    kind: OptionKind::Other,
    value: "HOST:PORT",
    absent: None,
    range: "a host, a colon, and a port of 1 to 65535",
    purpose: "the address of the server that it polls",
};

const INTERVAL: CommandOption = CommandOption {
    name: "interval",
    kind: OptionKind::Number,
    value: "N",
    absent: Some("15"),
    range: "1 to 3600",
    purpose: "the seconds between two turns",
};

const MODE: CommandOption = CommandOption {
    name: "mode",
    kind: OptionKind::Other,
    value: "MODE",
    absent: Some("delta"),
    range: "delta or feed",
    purpose: "whether it asks for changes or for whole feeds",
};

static CHECK: [CommandOption; 2] = [
    CommandOption {
        name: "now",
        kind: OptionKind::Number,
        value: "N",
        absent: Some("0"),
        range: "0 to 100000000000000",
        purpose: "the time of the evaluations, in milliseconds since 1970",
    },
    CommandOption {
        name: "word",
        kind: OptionKind::Number,
        value: "N",
        absent: Some("0"),
        range: ANY_U64,
        purpose: "the random number of the evaluations",
    },
];

static EDGE: [CommandOption; 9] = [
    UPSTREAM_ADDRESS,
    CommandOption {
        name: "upstream-tokens",
        kind: OptionKind::List,
        value: "LIST",
        absent: None,
        range: "1 to 8 tokens of different environments",
        purpose: "the tokens that it sends to its upstream, one for each environment",
    },
    CommandOption {
        name: "tokens",
        kind: OptionKind::List,
        value: "LIST",
        absent: None,
        range: "1 to 1024 tokens",
        purpose: "the tokens that it accepts from clients, if the upstream knows them",
    },
    PORT,
    CommandOption {
        name: "workers",
        kind: OptionKind::Number,
        value: "N",
        absent: Some("4"),
        range: "1 to 16",
        purpose: "the number of connections that it serves at once",
    },
    INTERVAL,
    MODE,
    CommandOption {
        name: "host",
        kind: OptionKind::Other,
        value: "TEXT",
        absent: Some("empty"),
        range: TEXT,
        purpose: "its host name, for the strategy applicationHostname",
    },
    CONNECTIONS,
];

static UPSTREAM: [CommandOption; 8] = [
    CommandOption {
        name: "secret",
        kind: OptionKind::Other,
        value: "TEXT",
        absent: None,
        range: "not empty, no line break or NUL in it",
        purpose: "the token that a command must be sent with",
    },
    CommandOption {
        name: "environments",
        kind: OptionKind::List,
        value: "LIST",
        absent: None,
        range: "1 to 8 different names of at most 255 bytes",
        purpose: "the environments that it has",
    },
    CommandOption {
        name: "client-tokens",
        kind: OptionKind::List,
        value: "LIST",
        absent: Some("empty"),
        range: "tokens that name one project or *",
        purpose: "the tokens that it accepts from edges and backends",
    },
    CommandOption {
        name: "frontend-tokens",
        kind: OptionKind::List,
        value: "LIST",
        absent: Some("empty"),
        range: "tokens that name one project or *",
        purpose: "the tokens that it accepts from browsers",
    },
    CommandOption {
        absent: Some("4242"),
        ..PORT
    },
    CommandOption {
        name: "epoch",
        kind: OptionKind::Number,
        value: "N",
        absent: Some("0"),
        range: ANY_U64,
        purpose: "a number above those of all earlier starts, such as the time in seconds",
    },
    CommandOption {
        name: "keep",
        kind: OptionKind::Other,
        value: "WHERE",
        absent: Some("memory"),
        range: "memory or sqlite",
        purpose: "where it keeps its commands; both are lost when it ends",
    },
    CONNECTIONS,
];

static FOLLOW: [CommandOption; 7] = [
    UPSTREAM_ADDRESS,
    CommandOption {
        name: "token",
        kind: OptionKind::Other,
        value: "TOKEN",
        absent: None,
        range: TOKEN,
        purpose: "the token that it sends to the server",
    },
    CommandOption {
        name: "feature",
        kind: OptionKind::Other,
        value: "NAME",
        absent: None,
        range: "1 to 255 bytes",
        purpose: "the feature that it prints",
    },
    CommandOption {
        name: "context",
        kind: OptionKind::Other,
        value: "QUERY",
        absent: Some("empty"),
        range: "a query as userId=7&plan=gold, within the limits of a context",
        purpose: "the context in which the feature is evaluated",
    },
    MODE,
    CommandOption {
        name: "turns",
        kind: OptionKind::Number,
        value: "N",
        absent: Some("1"),
        range: "1 to 1000000",
        purpose: "the number of turns",
    },
    INTERVAL,
];

static LOAD: [CommandOption; 2] = [
    CommandOption {
        name: "seed",
        kind: OptionKind::Number,
        value: "N",
        absent: None,
        range: ANY_U64,
        purpose: "the seed that its features are generated from",
    },
    CommandOption {
        name: "count",
        kind: OptionKind::Number,
        value: "N",
        absent: None,
        range: "1 to 1000000",
        purpose: "the number of evaluations",
    },
];

/// Returns the options of a command, the required ones first. `None` if there is no such command.
pub(crate) fn options_of(command: &str) -> Option<&'static [CommandOption]> {
    match command {
        "replay" => Some(&[]),
        "explain" => Some(&[]),
        "check" => Some(&CHECK),
        "edge" => Some(&EDGE),
        "upstream" => Some(&UPSTREAM),
        "follow" => Some(&FOLLOW),
        "load" => Some(&LOAD),
        _ => None,
    }
}

/// Returns a sample value for a required option. Every command with this option accepts it.
pub(crate) fn sample_of(option: &str) -> &'static str {
    match option {
        "upstream" => "h:1",
        "upstream-tokens" => "*:e.s",
        "tokens" => "*:e.s",
        "token" => "*:e.s",
        "seed" => "0",
        "count" => "1",
        _ => "x",
    }
}
