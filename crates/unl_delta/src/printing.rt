//! Writes batches as JSON text, without building a JSON value. The only error of the functions here is out of memory.
ghost use Rattle.std.specs.Prelude.{◌≡◌, ◌∷◌, ◌++◌, [], OnOk};
ghost use Rattle.json.specs.Token.{begin_object, end_object};
ghost use Rattle.serde_json.specs.Data.{string};
ghost use Rattle.unl_documents.specs.declared.field.Field.TheVariants as field;
ghost use Rattle.unl_documents.specs.States.{IsValidState};
ghost use Rattle.unl_documents.specs.Tokens.{Wrote, tokens_at, tokens_of};
ghost use Rattle.unl_documents.specs.Valid.{IsValidFeature};
ghost use Rattle.unl_documents.specs.Writing.{count};
ghost use Rattle.unl_delta.specs.declared.event.Event.TheVariants as event;
ghost use Rattle.unl_delta.specs.Writing.{event_data};

use crate::batch::Batch;
use crate::event::Event;
use json::Writer;
use unl_documents::write_json::{WriteJson, print_at, print_some, print_unless_zero};
use unl_documents::{Feature, Field, Memory, Segment, Shared, State, Text};

/// Writes the start of an event: the opening brace and the number.
fn begin_event(out: &mut Writer, number: u64) -> Result<(), Memory>
    ensures { OnOk result (Wrote (begin_object ∷ tokens_at field.EventId (count number)) out.old out.new) }
{
    out.begin_object()?;
    print_at(out, Field::EventId, &number)
}

/// Writes the end of an event: the type `word` and the closing brace.
fn end_event(out: &mut Writer, word: &str) -> Result<(), Memory>
    ensures { OnOk result (Wrote (tokens_at field.Kind (string word.now) ++ end_object ∷ []) out.old out.new) }
{
    out.key(Field::Kind.key())?;
    out.string(word)?;
    out.end_object()?;
    Ok(())
}

fn print_hydration(out: &mut Writer, number: u64, state: &State) -> Result<(), Memory>
    requires { IsValidState state.now }
    ensures { OnOk result (Wrote (tokens_of (event_data (event.Hydration number state.now))) out.old out.new) }
{
    begin_event(out, number)?;
    print_at(out, Field::Features, &state.features)?;
    print_at(out, Field::Segments, &state.segments)?;
    end_event(out, "hydration")
}

fn print_feature_updated(
    out: &mut Writer,
    number: u64,
    feature: &Shared<Feature>,
) -> Result<(), Memory>
    requires { IsValidFeature feature.now }
    ensures { OnOk result (Wrote (tokens_of (event_data (event.FeatureUpdated number feature.now))) out.old out.new) }
{
    begin_event(out, number)?;
    print_at(out, Field::Feature, feature)?;
    end_event(out, "feature-updated")
}

fn print_feature_removed(
    out: &mut Writer,
    number: u64,
    name: &Text,
    project: &Text,
) -> Result<(), Memory>
    ensures { OnOk result (Wrote (tokens_of (event_data (event.FeatureRemoved number name.now project.now))) out.old out.new) }
{
    begin_event(out, number)?;
    print_at(out, Field::FeatureName, name)?;
    print_at(out, Field::Project, project)?;
    end_event(out, "feature-removed")
}

fn print_segment_updated(
    out: &mut Writer,
    number: u64,
    segment: &Shared<Segment>,
) -> Result<(), Memory>
    ensures { OnOk result (Wrote (tokens_of (event_data (event.SegmentUpdated number segment.now))) out.old out.new) }
{
    begin_event(out, number)?;
    print_at(out, Field::Segment, segment)?;
    end_event(out, "segment-updated")
}

fn print_segment_removed(out: &mut Writer, number: u64, id: u64) -> Result<(), Memory>
    ensures { OnOk result (Wrote (tokens_of (event_data (event.SegmentRemoved number id))) out.old out.new) }
{
    begin_event(out, number)?;
    print_at(out, Field::SegmentId, &id)?;
    end_event(out, "segment-removed")
}

impl WriteJson for Event {
    ghost use Rattle.unl_delta.specs.Valid.{IsValidEvent};
    ghost use Rattle.unl_delta.specs.Writing.{event_data};

    ghost written = { event_data };

    ghost is_printable = { IsValidEvent };

    fn print(&self, out: &mut Writer) -> Result<(), Memory> {
        match self {
            Event::Hydration { number, state } => print_hydration(out, *number, state),
            Event::FeatureUpdated { number, feature } => {
                print_feature_updated(out, *number, feature)
            }
            Event::FeatureRemoved {
                number,
                name,
                project,
            } => print_feature_removed(out, *number, name, project),
            Event::SegmentUpdated { number, segment } => {
                print_segment_updated(out, *number, segment)
            }
            Event::SegmentRemoved { number, id } => print_segment_removed(out, *number, *id),
        }
    }
}

impl WriteJson for Batch {
    ghost use Rattle.unl_delta.specs.Valid.{IsValidBatch};
    ghost use Rattle.unl_delta.specs.Writing.{batch_data};

    ghost written = { batch_data };

    ghost is_printable = { IsValidBatch };

    #[tactic(auto, using(crate::proofs::EventTokens::all_events))]
    fn print(&self, out: &mut Writer) -> Result<(), Memory> {
        out.begin_object()?;
        print_some(out, Field::After, &self.after)?;
        print_unless_zero(out, Field::Epoch, self.epoch)?;
        print_at(out, Field::Events, &self.events)?;
        out.end_object()?;
        Ok(())
    }
}
