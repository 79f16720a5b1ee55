//! The body of the frontend endpoints, written directly as text.
//!
//! Each function that writes appends to the writer. It fails only if out of memory, and may then have written part of
//! its text.
ghost use Rattle.std.specs.Prelude.{◌≡◌, IfOk, OnOk};
ghost use Rattle.serde_json.specs.Written.{compact_text};
ghost use Rattle.unl_compiled.specs.Toggles.{body_for, toggle_data, variant_data};
ghost use Rattle.unl_documents.specs.Tokens.{Wrote, all_tokens, tokens_of};

use crate::collect::{ToggleSink, collect};
use crate::query::ToggleQuery;
use json::Writer;
use std::alloc::Global;
use unl_dependencies::{Evaluation, VariantAnswer};
use unl_documents::write_json::{print_at, print_key, print_some};
use unl_documents::{Feature, Field, List, Memory};

/// The initial capacity of the buffer, in bytes.
const ROOM: usize = 128;

/// The body for a query, as compact JSON text. Fails only if out of memory.
pub(crate) fn toggles_text(alloc: Global, query: &ToggleQuery) -> Result<List<u8>, Memory>
    ensures { IfOk result (λ text. text ≡ compact_text (body_for query.now)) }
{
    let mut out = Writer::new(Vec::with_capacity(alloc, ROOM)?);
    write_toggles(&mut out, alloc, query)?;
    Ok(List::from_vec(out.into_inner()))
}

/// Writes the object with the toggles that a query asks for.
fn write_toggles(out: &mut Writer, alloc: Global, query: &ToggleQuery) -> Result<(), Memory>
    ensures { OnOk result (Wrote (tokens_of (body_for query.now)) out.old out.new) }
{
    out.begin_object()?;
    print_key(out, Field::Toggles)?;
    out.begin_array()?;
    collect(out, alloc, query)?;
    out.end_array()?;
    out.end_object()?;
    Ok(())
}

impl ToggleSink for Writer {
    ghost use Rattle.unl_compiled.specs.Appending.{joins_tokens, no_tokens};

    ghost appends = { λ ds old new. Wrote (all_tokens ds) old new };

    ghost none = { no_tokens };

    ghost joins = { joins_tokens };

    fn append(
        &mut self,
        _alloc: Global,
        feature: &Feature,
        evaluation: &Evaluation,
    ) -> Result<(), Memory> {
        write_toggle(self, feature, evaluation)
    }
}

/// Writes the toggle of a feature.
#[tactic(auto, unfolding(crate::specs::Toggles::toggle_data))]
fn write_toggle(out: &mut Writer, feature: &Feature, evaluation: &Evaluation) -> Result<(), Memory>
    ensures { OnOk result (Wrote (tokens_of (toggle_data feature.now evaluation.now)) out.old out.new) }
{
    out.begin_object()?;
    print_at(out, Field::Enabled, &evaluation.on)?;
    print_at(out, Field::ImpressionData, &feature.impression)?;
    print_at(out, Field::Name, &feature.name)?;
    print_key(out, Field::Variant)?;
    write_variant(out, evaluation.on, &evaluation.variant)?;
    out.end_object()?;
    Ok(())
}

/// Writes the variant of a feature. `on` says whether the feature is on.
fn write_variant(out: &mut Writer, on: bool, variant: &VariantAnswer) -> Result<(), Memory>
    ensures { OnOk result (Wrote (tokens_of (variant_data on variant.now)) out.old out.new) }
{
    out.begin_object()?;
    print_at(out, Field::Enabled, &variant.enabled)?;
    print_at(out, Field::FeatureEnabled, &on)?;
    print_at(out, Field::Name, &variant.name)?;
    print_some(out, Field::Payload, &variant.payload)?;
    out.end_object()?;
    Ok(())
}
