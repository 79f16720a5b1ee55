//! Tests of feeds as a JSON value (the commands print them directly as text), and of documents that are parsed on their
//! own.
ghost use Rattle.unl_documents.specs.States.{IsValidState};

use serde_json::Value;
use std::alloc::Global;
use unl_documents::laws::order_is_the_sorting;
use unl_documents::{
    Feed, FeedHead, List, Memory, Segment, Text, TryClone, read_feature, read_feed, read_state,
    write_feed,
};

/// Returns a list of one text.
fn list_of(alloc: Global, text: &str) -> Result<List<Text>, Memory> {
    let mut list = List::new(alloc);
    list.push(Text::new(alloc, text)?)?;
    Ok(list)
}

/// Returns the head of the feed `FEED`, with the given epoch.
fn head_of(alloc: Global, epoch: u64) -> Result<FeedHead, Memory> {
    Ok(FeedHead {
        environment: Text::new(alloc, "dev")?,
        projects: list_of(alloc, "*")?,
        tag: Text::new(alloc, "t")?,
        number: 9,
        epoch,
    })
}

/// Returns the text of a feed with the state and the epoch of `feed`. The rest is a copy of the head of `FEED`.
fn text_of(alloc: Global, feed: &Feed) -> Result<String, Memory>
    requires { IsValidState feed.now.state }
{
    let head = head_of(alloc, feed.epoch)?.copy(alloc)?;
    let written = write_feed(alloc, &head, &feed.state)?;
    Ok(written.to_string(alloc)?)
}

/// A feed in the form in which it is written: keys in byte order, without whitespace.
const FEED: &str = concat!(
    r#"{"features":[{"dependencies":[],"enabled":false,"impressionData":false,"name":"a","project":"default","#,
    r#""stale":false,"strategies":[],"type":"release","variants":[]}],"meta":{"epoch":3,"etag":"t","#,
    r#""revisionId":9},"query":{"environment":"dev","projects":["*"]},"segments":[{"constraints":[],"id":1}],"#,
    r#""version":2}"#,
);

/// Returns whether parsing the feed, copying it and writing the copy results in the same text, and whether the copy has
/// the feed's number.
fn is_written_so(alloc: Global) -> Option<bool> {
    let feed = read_feed(alloc, FEED.as_bytes()).ok()?.copy(alloc).ok()?;
    let text = text_of(alloc, &feed).ok()?;
    Some(text.as_str() == FEED && feed.number == Some(9))
}

#[test]
fn a_feed_is_written_as_it_is_read(rt: HostRuntime) {
    order_is_the_sorting::<Segment>();
    assert!(rt; is_written_so(rt.alloc()) == Some(true));
}

/// Returns whether the feature in a document is on, or `None` if the document is not a feature.
fn is_on(alloc: Global, text: &str) -> Option<bool> {
    let value = Value::from_str(alloc, text).ok()?;
    Some(read_feature(alloc, &value).ok()?.enabled)
}

/// Returns the number of segments of the state in a document, or `None` if the document is not a state.
fn segments_of(alloc: Global, text: &str) -> Option<usize> {
    let value = Value::from_str(alloc, text).ok()?;
    Some(read_state(alloc, &value).ok()?.segments.len())
}

#[test]
fn documents_are_read_alone(rt: HostRuntime) {
    let alloc = rt.alloc();
    assert!(rt; is_on(alloc, r#"{"name":"a","enabled":true}"#) == Some(true));
    assert!(rt; segments_of(alloc, r#"{"segments":[{"id":1}]}"#) == Some(1));
}
