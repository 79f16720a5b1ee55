//! Tests of batches as a JSON value. The commands print batches directly as text, so no command covers this.
use std::alloc::Global;
use unl_delta::{read_batch_bytes, write_batch};

/// A batch in the form in which it is written: keys in byte order, without whitespace.
const BATCH: &str = concat!(
    r#"{"after":1,"epoch":3,"events":[{"eventId":2,"featureName":"a","project":"A","type":"feature-removed"},"#,
    r#"{"eventId":3,"segment":{"constraints":[],"id":4},"type":"segment-updated"},{"eventId":3,"segmentId":5,"#,
    r#""type":"segment-removed"}]}"#,
);

/// Returns whether parsing the batch and writing it again results in the same text.
fn is_written_so(alloc: Global) -> Option<bool> {
    let batch = read_batch_bytes(alloc, BATCH.as_bytes(), None).ok()?;
    let value = write_batch(alloc, &batch).ok()?;
    Some(value.to_string(alloc).ok()?.as_str() == BATCH)
}

#[test]
fn a_batch_is_written_as_it_is_read(rt: HostRuntime) {
    assert!(rt; is_written_so(rt.alloc()) == Some(true));
}
