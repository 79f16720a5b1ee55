//! Tests of the faults of contexts in request bodies.
use unl_context::{BadContext, Context, Part};

/// Request bodies, each with its first fault, or `None` if it has none. No command prints which part is at fault.
const BODIES: [(&str, Option<BadContext>); 14] = [
    ("{", Some(BadContext::NotObject)),
    ("[]", Some(BadContext::NotObject)),
    ("null", Some(BadContext::NotObject)),
    (r#"{"context":7}"#, Some(BadContext::NotObject)),
    (
        r#"{"userId":1.5,"sessionId":[]}"#,
        Some(BadContext::WrongKind(Part::UserId)),
    ),
    (
        r#"{"currentTime":{},"properties":7}"#,
        Some(BadContext::WrongKind(Part::CurrentTime)),
    ),
    (
        r#"{"properties":7}"#,
        Some(BadContext::WrongKind(Part::Properties)),
    ),
    (
        r#"{"properties":{"c":[],"b":null,"a":"1"}}"#,
        Some(BadContext::WrongKind(Part::Property(2))),
    ),
    (
        r#"{"context":{"appName":{}}}"#,
        Some(BadContext::WrongKind(Part::AppName)),
    ),
    (
        r#"{"context":null,"appName":[]}"#,
        Some(BadContext::WrongKind(Part::AppName)),
    ),
    (r#"{"properties":{"":[]}}"#, Some(BadContext::TooLarge)),
    (r#"{"properties":{"":null}}"#, None),
    (r#"{"properties":null,"more":[]}"#, None),
    (r#"{"context":{},"appName":[]}"#, None),
];

#[test]
fn the_first_fault_is_named(rt: HostRuntime) {
    let alloc = rt.alloc();
    for (text, fault) in BODIES {
        assert!(rt;
            Context::read_body(alloc, text.as_bytes()).err() == fault,
            "{text}"
        );
    }
}
