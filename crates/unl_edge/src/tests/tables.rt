//! Runs of the commands `edge`, `upstream` and `follow`, with how each must end. A turn is one poll of the server.
use crate::tests::cases::{CASE, Case, is_as_said, ran};
use crate::tests::outside::{AfterLinks, Arrival, Keeping, Script};

/// A request for the health of a server.
const HEALTH: &str = "GET /internal-backstage/health HTTP/1.1\r\nHost: x\r\n\r\n";

/// The answer to a request for the health.
const HEALTHY: &str = concat!(
    "HTTP/1.1 200 OK\r\nContent-Type: application/json\r\nContent-Length: 15\r\n\r\n",
    r#"{"status":"OK"}"#,
);

/// A request for the toggles (features) that are on.
const TOGGLES: &str = "GET /api/frontend HTTP/1.1\r\nHost: x\r\nAuthorization: *:dev.f\r\n\r\n";

/// The answer if no toggle is on.
const NONE_IS_ON: &str = concat!(
    "HTTP/1.1 200 OK\r\nContent-Type: application/json\r\nContent-Length: 14\r\n\r\n",
    r#"{"toggles":[]}"#,
);

/// The answer if only feature `a` is on.
const A_IS_ON: &str = concat!(
    "HTTP/1.1 200 OK\r\nContent-Type: application/json\r\nContent-Length: 133\r\n\r\n",
    r#"{"toggles":[{"enabled":true,"impressionData":false,"name":"a","#,
    r#""variant":{"enabled":false,"feature_enabled":true,"name":"disabled"}}]}"#,
);

/// A link that asks for the health.
const HEALTH_LINK: Script = Script {
    arrivals: &[Arrival {
        turns: 0,
        answers: 0,
        bytes: HEALTH,
    }],
    answers: &[HEALTHY],
};

/// A link that asks for the health once an answer was sent on another link.
const LATE_HEALTH_LINK: Script = Script {
    arrivals: &[Arrival {
        turns: 0,
        answers: 1,
        bytes: HEALTH,
    }],
    answers: &[HEALTHY],
};

/// A link that asks for the toggles once the second turn has ended.
const LATE_TOGGLES_LINK: Script = Script {
    arrivals: &[Arrival {
        turns: 2,
        answers: 0,
        bytes: TOGGLES,
    }],
    answers: &[A_IS_ON],
};

/// A link that asks for the toggles at once, and again once the second turn has ended.
const TOGGLES_LINK: Script = Script {
    arrivals: &[
        Arrival {
            turns: 0,
            answers: 0,
            bytes: TOGGLES,
        },
        Arrival {
            turns: 2,
            answers: 0,
            bytes: TOGGLES,
        },
    ],
    answers: &[NONE_IS_ON, A_IS_ON],
};

/// An upstream's reply with its token book: one frontend token, for all projects.
const BOOK: &str = concat!(
    "HTTP/1.1 200 OK\r\n\r\n",
    r#"{"tokens":[{"token":"*:dev.f","type":"frontend","projects":["*"]}]}"#,
);

/// An upstream's reply with version 5, where feature `a` is off.
const A_IS_OFF_AT_5: &str = concat!(
    "HTTP/1.1 200 OK\r\n\r\n",
    r#"{"events":[{"type":"hydration","eventId":5,"features":[{"name":"a","enabled":false}]}]}"#,
);

/// An upstream's reply with the change to version 6, where feature `a` is on.
const A_IS_ON_AT_6: &str = concat!(
    "HTTP/1.1 200 OK\r\n\r\n",
    r#"{"after":5,"events":[{"type":"feature-updated","eventId":6,"feature":{"name":"a","enabled":true}}]}"#,
);

/// Runs of an edge.
const EDGES: [Case; 5] = [
    Case {
        name: "two links meet",
        arguments: "edge --upstream up:1 --upstream-tokens *:dev.c --tokens *:dev.f --workers 2",
        links: &[LATE_HEALTH_LINK, HEALTH_LINK],
        printed: "connections 2\n",
        answers: 2,
        ..CASE
    },
    Case {
        name: "a link sees what is published between its requests",
        arguments: "edge --upstream up:1 --upstream-tokens *:dev.c --tokens *:dev.f --workers 1",
        links: &[TOGGLES_LINK],
        after_links: AfterLinks::Closes(2),
        upstream: &[BOOK, A_IS_OFF_AT_5, BOOK, A_IS_ON_AT_6],
        turns: &[1, 0],
        printed: "connections 1\n",
        answers: 2,
        ..CASE
    },
    Case {
        name: "an edge refreshes",
        arguments: "edge --upstream up:1 --upstream-tokens *:dev.c --tokens *:dev.f",
        links: &[LATE_TOGGLES_LINK],
        after_links: AfterLinks::Closes(2),
        upstream: &[BOOK, A_IS_OFF_AT_5, BOOK, A_IS_ON_AT_6],
        turns: &[0, 0],
        printed: "connections 1\n",
        answers: 1,
        ..CASE
    },
    Case {
        name: "a hundred links",
        arguments: "edge --upstream up:1 --upstream-tokens *:dev.c --tokens *:dev.f --workers 4",
        links: &[HEALTH_LINK; 100],
        printed: "connections 100\n",
        answers: 100,
        ..CASE
    },
    Case {
        name: "the door of an edge fails at the third link",
        arguments: "edge --upstream up:1 --upstream-tokens *:dev.c --tokens *:dev.f",
        links: &[HEALTH_LINK, HEALTH_LINK],
        after_links: AfterLinks::Fails,
        code: 7,
        answers: 2,
        ..CASE
    },
];

#[test]
fn edges(rt: HostRuntime) {
    for case in EDGES {
        let ending = ran(&rt, rt.alloc(), &case);
        let name = case.name;
        assert!(rt; is_as_said(&ending, &case), "{name}: {ending:?}");
    }
}

/// A command to an upstream: it puts feature `a`, which is on, into the environment `dev`.
const PUT_A: &str =
    r#"{"command":"put-feature","environment":"dev","feature":{"name":"a","enabled":true}}"#;

/// Runs of an upstream whose door or keeper fails. Where the keeper fails, no link is handed out.
const UPSTREAMS: [Case; 4] = [
    Case {
        name: "the door of an upstream fails at the second link",
        arguments: "upstream --secret s --environments dev",
        links: &[HEALTH_LINK],
        after_links: AfterLinks::Fails,
        code: 7,
        answers: 1,
        returned: 1,
        ..CASE
    },
    Case {
        name: "no keeper can be made",
        arguments: "upstream --secret s --environments dev",
        links: &[HEALTH_LINK],
        keeping: Keeping::Unmade,
        code: 8,
        ..CASE
    },
    Case {
        name: "a keeper can't be opened",
        arguments: "upstream --secret s --environments dev",
        links: &[HEALTH_LINK],
        keeping: Keeping::FailsAt(0),
        code: 8,
        ..CASE
    },
    Case {
        name: "a command can't be kept",
        arguments: "upstream --secret s --environments dev",
        input: PUT_A,
        links: &[HEALTH_LINK],
        keeping: Keeping::FailsAt(1),
        code: 8,
        ..CASE
    },
];

#[test]
fn upstreams(rt: HostRuntime) {
    for case in UPSTREAMS {
        let ending = ran(&rt, rt.alloc(), &case);
        let name = case.name;
        assert!(rt; is_as_said(&ending, &case), "{name}: {ending:?}");
    }
}

/// An upstream's reply with version 5, where feature `a` is on.
const A_IS_ON_AT_5: &str = concat!(
    "HTTP/1.1 200 OK\r\nETag: t\r\n\r\n",
    r#"{"events":[{"type":"hydration","eventId":5,"features":[{"name":"a","enabled":true}]}]}"#,
);

/// An upstream's reply with the change to version 6, where feature `a` is off.
const A_IS_OFF_AT_6: &str = concat!(
    "HTTP/1.1 200 OK\r\n\r\n",
    r#"{"after":5,"events":[{"type":"feature-updated","eventId":6,"feature":{"name":"a","enabled":false}}]}"#,
);

/// Requests to an upstream: a command puts feature `m` into project A, the whole state is asked for, a command moves
/// `m` to project B, and the changes after the first version are asked for.
const MOVE_M: &str = concat!(
    "POST /commands HTTP/1.1\r\nHost: x\r\nAuthorization: s\r\nContent-Length: 97\r\n\r\n",
    r#"{"command":"put-feature","environment":"dev","feature":{"name":"m","project":"A","enabled":true}}"#,
    "GET /api/client/delta HTTP/1.1\r\nHost: x\r\nAuthorization: *:dev.c\r\n\r\n",
    "POST /commands HTTP/1.1\r\nHost: x\r\nAuthorization: s\r\nContent-Length: 97\r\n\r\n",
    r#"{"command":"put-feature","environment":"dev","feature":{"name":"m","project":"B","enabled":true}}"#,
    "GET /api/client/delta HTTP/1.1\r\nHost: x\r\nAuthorization: *:dev.c\r\n",
    "If-None-Match: \"0000000000000000-1-0-1\"\r\n\r\n",
);

/// The answer to a command that led to version 1.
const NUMBER_1: &str = concat!(
    "HTTP/1.1 200 OK\r\nContent-Type: application/json\r\nContent-Length: 12\r\n\r\n",
    r#"{"number":1}"#,
);

/// The answer to a command that led to version 2.
const NUMBER_2: &str = concat!(
    "HTTP/1.1 200 OK\r\nContent-Type: application/json\r\nContent-Length: 12\r\n\r\n",
    r#"{"number":2}"#,
);

/// The reply of the upstream, and of the edge that polls the upstream, with the whole first version: `m` is in project
/// A.
const M_IS_IN_A: &str = concat!(
    "HTTP/1.1 200 OK\r\nContent-Type: application/json\r\nContent-Length: 216\r\nETag: \"0000000000000000-1-0-1\"\r\n\r\n",
    r#"{"events":[{"eventId":1,"features":[{"dependencies":[],"enabled":true,"impressionData":false,"name":"m","#,
    r#""project":"A","stale":false,"strategies":[],"type":"release","variants":[]}],"segments":[],"type":"hydration"}]}"#,
);

/// An upstream's reply with the change to the second version, for a token that sees all projects: `m` is in project B.
const M_IS_IN_B: &str = concat!(
    "HTTP/1.1 200 OK\r\nContent-Type: application/json\r\nContent-Length: 215\r\nETag: \"0000000000000000-1-0-2\"\r\n\r\n",
    r#"{"after":1,"events":[{"eventId":2,"feature":{"dependencies":[],"enabled":true,"impressionData":false,"name":"m","#,
    r#""project":"B","stale":false,"strategies":[],"type":"release","variants":[]},"type":"feature-updated"}]}"#,
);

/// An edge's reply with the change to the second version, for a token that sees only project A: `m` is removed.
const M_IS_GONE: &str = concat!(
    "HTTP/1.1 200 OK\r\nContent-Type: application/json\r\nContent-Length: 93\r\nETag: \"0000000000000000-1-0-2\"\r\n\r\n",
    r#"{"after":1,"events":[{"eventId":2,"featureName":"m","project":"A","type":"feature-removed"}]}"#,
);

/// An upstream's reply with its token book: one client token, for project A only.
const BOOK_OF_A: &str = concat!(
    "HTTP/1.1 200 OK\r\n\r\n",
    r#"{"tokens":[{"token":"A:dev.c","type":"client","projects":["A"]}]}"#,
);

/// A link of an upstream whose client moves feature `m` to another project.
const MOVING_LINK: Script = Script {
    arrivals: &[Arrival {
        turns: 0,
        answers: 0,
        bytes: MOVE_M,
    }],
    answers: &[NUMBER_1, M_IS_IN_A, NUMBER_2, M_IS_IN_B],
};

/// A link that asks an edge for the whole state, and for the changes since then once the second turn has ended.
const CHANGES_LINK: Script = Script {
    arrivals: &[
        Arrival {
            turns: 0,
            answers: 0,
            bytes: "GET /api/client/delta HTTP/1.1\r\nHost: x\r\nAuthorization: A:dev.c\r\n\r\n",
        },
        Arrival {
            turns: 2,
            answers: 0,
            bytes: concat!(
                "GET /api/client/delta HTTP/1.1\r\nHost: x\r\nAuthorization: A:dev.c\r\n",
                "If-None-Match: \"0000000000000000-1-0-1\"\r\n\r\n",
            ),
        },
    ],
    answers: &[M_IS_IN_A, M_IS_GONE],
};

/// Two runs of `follow` whose server gives fixed replies. Then runs of an upstream, of an edge that gets the upstream's
/// replies, and of `follow` that gets the edge's replies.
const FOLLOWS: [Case; 5] = [
    Case {
        name: "a replica takes a batch after an unchanged turn",
        arguments: "follow --upstream up:1 --token *:dev.c --feature a --turns 3",
        upstream: &[
            A_IS_ON_AT_5,
            "HTTP/1.1 304 Not Modified\r\n\r\n",
            A_IS_OFF_AT_6,
        ],
        turns: &[0, 0],
        printed: concat!(
            "turn 1 published number 5 on true\n",
            "turn 2 unchanged number 5 on true\n",
            "turn 3 published number 6 on false\n",
        ),
        ..CASE
    },
    Case {
        name: "a replica without a server, and then of one that refuses",
        arguments: "follow --upstream up:1 --token *:dev.c --feature a --turns 2",
        upstream: &["HTTP/1.1 503 Service Unavailable\r\n\r\n"],
        failing_calls: &[0],
        turns: &[0],
        printed: concat!(
            "turn 1 fault number - on -\n",
            "turn 2 refused 503 number - on -\n",
        ),
        ..CASE
    },
    Case {
        name: "an upstream whose feature moves",
        arguments: "upstream --secret s --environments dev --client-tokens *:dev.c",
        links: &[MOVING_LINK],
        printed: "connections 1\n",
        answers: 4,
        returned: 1,
        ..CASE
    },
    Case {
        name: "an edge behind that upstream",
        arguments: "edge --upstream up:1 --upstream-tokens *:dev.c --tokens A:dev.c",
        links: &[CHANGES_LINK],
        after_links: AfterLinks::Closes(2),
        upstream: &[BOOK_OF_A, M_IS_IN_A, BOOK_OF_A, M_IS_IN_B],
        turns: &[1, 0],
        printed: "connections 1\n",
        answers: 2,
        ..CASE
    },
    Case {
        name: "a replica behind that edge",
        arguments: "follow --upstream up:1 --token A:dev.c --feature m --turns 2",
        upstream: &[M_IS_IN_A, M_IS_GONE],
        turns: &[0],
        printed: concat!(
            "turn 1 published number 1 on true\n",
            "turn 2 published number 2 on -\n",
        ),
        ..CASE
    },
];

#[test]
fn follows(rt: HostRuntime) {
    for case in FOLLOWS {
        let ending = ran(&rt, rt.alloc(), &case);
        let name = case.name;
        assert!(rt; is_as_said(&ending, &case), "{name}: {ending:?}");
    }
}
