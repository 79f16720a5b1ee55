//! Tests of the faults of metrics reports.
use unl_documents::Field;
use unl_metrics::{BadReport, Report};

/// Invalid reports of one app, each with its fault. The program itself does not print which fault it is.
const OF_APPS: [(&str, BadReport); 23] = [
    ("{", BadReport::NotJson),
    ("[]", BadReport::NotJson),
    (r#"{"bucket":7}"#, BadReport::Missing(Field::AppName)),
    (r#"{"appName":""}"#, BadReport::Missing(Field::AppName)),
    (r#"{"appName":7}"#, BadReport::WrongKind(Field::AppName)),
    (
        r#"{"appName":"a","bucket":null}"#,
        BadReport::Missing(Field::Bucket),
    ),
    (
        r#"{"appName":"a","bucket":[]}"#,
        BadReport::WrongKind(Field::Bucket),
    ),
    (
        r#"{"appName":"a","bucket":{"toggles":7}}"#,
        BadReport::Missing(Field::Start),
    ),
    (
        r#"{"appName":"a","bucket":{"start":7}}"#,
        BadReport::WrongKind(Field::Start),
    ),
    (
        r#"{"appName":"a","bucket":{"start":"2024-01-01"}}"#,
        BadReport::WrongKind(Field::Start),
    ),
    (
        r#"{"appName":"a","bucket":{"start":"2024-01-01T10:00:00"}}"#,
        BadReport::WrongKind(Field::Start),
    ),
    (
        r#"{"appName":"a","bucket":{"start":"1969-12-31T23:59:59.999Z"}}"#,
        BadReport::WrongKind(Field::Start),
    ),
    (
        r#"{"appName":"a","bucket":{"start":"2024-01-01T10:05:00Z","toggles":[]}}"#,
        BadReport::WrongKind(Field::Toggles),
    ),
    (
        r#"{"appName":"a","bucket":{"start":"2024-01-01T10:05:00Z","toggles":{"a":null}}}"#,
        BadReport::WrongKind(Field::Toggles),
    ),
    (
        r#"{"appName":"a","bucket":{"start":"2024-01-01T10:05:00Z","toggles":{"a":7}}}"#,
        BadReport::WrongKind(Field::Toggles),
    ),
    (
        r#"{"appName":"a","bucket":{"start":"2024-01-01T10:05:00Z","toggles":{"":7}}}"#,
        BadReport::Missing(Field::Toggles),
    ),
    (
        r#"{"appName":"a","bucket":{"start":"2024-01-01T10:05:00Z","toggles":{"b":7,"a":{"yes":-1}}}}"#,
        BadReport::WrongKind(Field::Yes),
    ),
    (
        r#"{"appName":"a","bucket":{"start":"2024-01-01T10:05:00Z","toggles":{"a":{"no":1.0,"yes":true}}}}"#,
        BadReport::WrongKind(Field::Yes),
    ),
    (
        r#"{"appName":"a","bucket":{"start":"2024-01-01T10:05:00Z","toggles":{"a":{"no":1e2,"variants":7}}}}"#,
        BadReport::WrongKind(Field::No),
    ),
    (
        r#"{"appName":"a","bucket":{"start":"2024-01-01T10:05:00Z","toggles":{"a":{"variants":{"v":null}}}}}"#,
        BadReport::WrongKind(Field::Variants),
    ),
    (
        r#"{"appName":"a","bucket":{"start":"2024-01-01T10:05:00Z","toggles":{"a":{"variants":{"v":"1"}}}}}"#,
        BadReport::WrongKind(Field::Variants),
    ),
    (
        r#"{"appName":"a","bucket":{"start":"2024-01-01T10:05:00Z","toggles":{"a":{"variants":{"":null}}}}}"#,
        BadReport::Missing(Field::Variants),
    ),
    (
        r#"{"appName":"a","bucket":{"start":"2024-01-01T10:05:00Z","toggles":{"a":{"variants":[]}}}}"#,
        BadReport::WrongKind(Field::Variants),
    ),
];

#[test]
fn faults_of_an_app_are_named(rt: HostRuntime) {
    let alloc = rt.alloc();
    for (text, fault) in OF_APPS {
        assert!(rt;
            Report::read_single(alloc, text.as_bytes()).err() == Some(fault),
            "{text}"
        );
    }
}

/// Invalid bulk reports, each with its fault.
const OF_BULKS: [(&str, BadReport); 9] = [
    ("7", BadReport::NotJson),
    (r#"{"applications":7}"#, BadReport::Missing(Field::Metrics)),
    (r#"{"metrics":{}}"#, BadReport::WrongKind(Field::Metrics)),
    (
        r#"{"metrics":[{},7]}"#,
        BadReport::WrongKind(Field::Metrics),
    ),
    (
        r#"{"metrics":[{"appName":7}]}"#,
        BadReport::Missing(Field::FeatureName),
    ),
    (
        r#"{"metrics":[{"featureName":"f"}]}"#,
        BadReport::Missing(Field::AppName),
    ),
    (
        r#"{"metrics":[{"featureName":"f","appName":"a"}]}"#,
        BadReport::Missing(Field::Timestamp),
    ),
    (
        r#"{"metrics":[{"featureName":"f","appName":"a","timestamp":"x"}]}"#,
        BadReport::WrongKind(Field::Timestamp),
    ),
    (
        r#"{"metrics":[{"featureName":"f","appName":"a","timestamp":"2024-01-01T10:05:00Z","no":-1}]}"#,
        BadReport::WrongKind(Field::No),
    ),
];

#[test]
fn faults_of_bulk_reports_are_named(rt: HostRuntime) {
    let alloc = rt.alloc();
    for (text, fault) in OF_BULKS {
        assert!(rt;
            Report::read_bulk(alloc, text.as_bytes()).err() == Some(fault),
            "{text}"
        );
    }
}
