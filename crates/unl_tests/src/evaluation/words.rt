//! Tests of parsing command-line arguments, with the values of all options.
use std::alloc::Global;
use unl_words::read_words;

/// Parses a command line whose arguments are separated by single spaces, and returns the debug text of the result.
fn shown(alloc: Global, line: &str) -> Option<String> {
    let mut words = Vec::new(alloc);
    for word in line.split(' ') {
        words.push(String::from_str(alloc, word).ok()?).ok()?;
    }
    format!(in alloc; "{:?}", read_words(alloc, &words)).ok()
}

/// Command lines with only the required options, and command lines with all options, each with the debug text of the
/// parsed values.
const LINES: [(&str, &str); 6] = [
    (
        "edge --upstream up:4242 --upstream-tokens *:dev.s --tokens []:dev.t",
        concat!(
            r#"Ok(Edge(EdgeArguments { port: 3063, upstream: Text { string: "up:4242" }, upstream_tokens: List { vec: [Text { "#,
            r#"string: "*:dev.s" }] }, tokens: List { vec: [Text { string: "[]:dev.t" }] }, host: Text { string: "" }, "#,
            "workers: 4, interval: 15, connections: 0, delta: true }))",
        ),
    ),
    (
        concat!(
            "edge --mode feed --connections 18446744073709551615 --interval 3600 --workers=16 --host h --tokens ",
            ",a:b:c.d,,a:b:c.d\t --upstream-tokens \t*:dev.s\t,a:qa.s.s --upstream=::1:065535 --port 1",
        ),
        concat!(
            r#"Ok(Edge(EdgeArguments { port: 1, upstream: Text { string: "::1:065535" }, upstream_tokens: List { vec: [Text { "#,
            r#"string: "*:dev.s" }, Text { string: "a:qa.s.s" }] }, tokens: List { vec: [Text { string: "a:b:c.d" }, Text { "#,
            r#"string: "a:b:c.d" }] }, host: Text { string: "h" }, workers: 16, interval: 3600, connections: "#,
            "18446744073709551615, delta: false }))",
        ),
    ),
    (
        "upstream --environments dev --secret s",
        concat!(
            r#"Ok(Upstream(UpstreamArguments { port: 4242, secret: Text { string: "s" }, environments: List { vec: [Text { "#,
            r#"string: "dev" }] }, client_tokens: List { vec: [] }, frontend_tokens: List { vec: [] }, connections: 0, "#,
            "epoch: 0, sqlite: false }))",
        ),
    ),
    (
        concat!(
            "upstream --secret=-s --environments dev,qa --client-tokens *:dev.s,a:dev.s --frontend-tokens a:qa.s, --port ",
            "65535 --connections 7 --epoch 18446744073709551615 --keep=sqlite",
        ),
        concat!(
            r#"Ok(Upstream(UpstreamArguments { port: 65535, secret: Text { string: "-s" }, environments: List { vec: [Text { "#,
            r#"string: "dev" }, Text { string: "qa" }] }, client_tokens: List { vec: [Text { string: "*:dev.s" }, Text { "#,
            r#"string: "a:dev.s" }] }, frontend_tokens: List { vec: [Text { string: "a:qa.s" }] }, connections: 7, epoch: "#,
            "18446744073709551615, sqlite: true }))",
        ),
    ),
    (
        "follow --upstream up:1 --token *:dev.s --feature f",
        concat!(
            r#"Ok(Follow(FollowArguments { upstream: Text { string: "up:1" }, token: Text { string: "*:dev.s" }, feature: Text { "#,
            r#"string: "f" }, context: Context { user_id: None, session_id: None, remote_address: None, environment: "#,
            r#"Some(Text { string: "dev" }), app_name: None, current_time: None, properties: Properties { vec: [] } }, "#,
            "delta: true, turns: 1, interval: 15 }))",
        ),
    ),
    (
        concat!(
            "follow --interval 3600 --turns=1000000 --mode feed --context environment=qa&a=b+c --feature f ",
            "--token=[]:dev.s --upstream up:1",
        ),
        concat!(
            r#"Ok(Follow(FollowArguments { upstream: Text { string: "up:1" }, token: Text { string: "[]:dev.s" }, feature: Text "#,
            r#"{ string: "f" }, context: Context { user_id: None, session_id: None, remote_address: None, environment: "#,
            r#"Some(Text { string: "dev" }), app_name: None, current_time: None, properties: Properties { vec: [Property { "#,
            r#"name: Text { string: "a" }, value: Text { string: "b c" } }] } }, delta: false, turns: 1000000, interval: "#,
            "3600 }))",
        ),
    ),
];

#[test]
fn values_of_words(rt: HostRuntime) {
    for (line, values) in LINES {
        let found = shown(rt.alloc(), line);
        assert!(rt;
            found.is_some_and(|found| found.as_str() == values),
            "{line}"
        );
    }
}
