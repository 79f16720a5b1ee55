//! `segment_of`: finding the segment that a strategy refers to by its id.
ghost use Rattle.std.specs.Prelude.{◌≡◌, option_map};
ghost use Rattle.unl_documents.specs.Inline.{segment_with};

use crate::list::List;
use crate::segment::Segment;
use crate::shared::Shared;

/// Returns the first segment with this id, or `None`. In a valid state, ids increase strictly, so at most one segment
/// has the id. This is a linear search.
pub fn segment_of(segments: &List<Shared<Segment>>, id: u64) -> Option<&Segment>
    ensures { option_map (λ s. s.now) result ≡ segment_with id segments.now }
{
    first_of(segments.as_slice(), id)
}

fn first_of(segments: &[Shared<Segment>], id: u64) -> Option<&Segment>
    ensures { option_map (λ s. s.now) result ≡ segment_with id segments.now }
{
    for shared in segments {
        let segment = shared.get();
        if segment.id == id {
            return Some(segment);
        }
    }
    None
}
