//! The hour of an instant, in whole hours since 1970, and the text of an hour.
ghost use Rattle.std.specs.Prelude.{◌≡◌, ◌<◌, ◌≤◌, pos, IfOk, IfSome, option_and_then};
ghost use Rattle.unl_constraints.specs.Instant.{instant_of};
ghost use Rattle.jiff.specs.Words.{epoch_day};
ghost use Rattle.unl_metrics.specs.Hours.{hour_of, hour_text, hours_of_years};
ghost use Rattle.unl_metrics.specs.Readable.{last_hour};

use jiff::ToSpan;
use jiff::civil::{Date, date};
use serde_json::Value;
use std::alloc::Global;
use unl_constraints::read_instant;
use unl_documents::kind::Kind;
use unl_documents::{BadDocument, Field, Memory, Text};

/// Reads a value that is the text of an instant from 1970 to 9999-12-30T22:00:00.999999999Z, the latest that `jiff`
/// reads. Only the hour of the instant is kept, in whole hours since 1970. Any other value is `WrongKind`.
pub(crate) struct Hour;

impl Kind for Hour {
    ghost use Rattle.unl_metrics.specs.Reports.{hour};

    type Out = u32;

    ghost reads = { hour };

    ghost is_valid = { λ h. h ≤ last_hour };

    #[tactic(auto, unfolding(crate::specs::Reports::hour, unl_documents::specs::Kinds::any_text))]
    fn read(alloc: Global, field: Field, value: &Value) -> Result<u32, BadDocument> {
        let Some(text) = value.as_str() else {
            return Err(BadDocument::WrongKind(field));
        };
        match hour_in(alloc, text)? {
            Some(hour) => Ok(hour),
            None => Err(BadDocument::WrongKind(field)),
        }
    }
}

/// The hour of the instant in a text, in whole hours since 1970. `None` if the text is not an instant that `jiff`
/// reads, or its instant is before 1970.
fn hour_in(alloc: Global, text: &str) -> Result<Option<u32>, Memory>
    ensures hour { IfOk result (λ hour. hour ≡ option_and_then hour_of (instant_of text.now)) }
    ensures below { IfOk result (λ hour. IfSome hour (λ h. h ≤ last_hour)) }
{
    hour_of_text(alloc, text)
}

fn hour_of_text(alloc: Global, text: &str) -> Result<Option<u32>, Memory>
    ensures { IfOk result (λ hour. hour ≡ option_and_then hour_of (instant_of text.now)) }
{
    match read_instant(alloc, text)? {
        Some(instant) => Ok(hour_of(instant)),
        None => Ok(None),
    }
}

/// The hour of an instant, in whole hours since 1970. The instant is given in nanoseconds since 1970. `None` if the
/// instant is not in the years 1970 to 9999.
#[tactic(auto, unfolding(crate::specs::Hours::hour_of))]
fn hour_of(instant: i128) -> Option<u32>
    ensures { result ≡ hour_of instant }
{
    if instant < 0 {
        return None;
    }
    let hour = instant / 3_600_000_000_000;
    if hour < 70_389_528 {
        Some(hour as u32)
    } else {
        None
    }
}

/// The date `days` days after 1970-01-01, at most 9999-12-31.
fn day_after(days: u32) -> Date
    requires { days < 2932897 }
    ensures { epoch_day result ≡ pos days }
{
    let epoch = date(1970, 1, 1);
    epoch.checked_add((days as i64).days()).unwrap()
}

/// The text of an hour (given in whole hours since 1970), `YYYY-MM-DDTHH:00:00Z`. The hour must be before the end of
/// 9999.
pub(crate) fn hour_text(alloc: Global, hour: u32) -> Result<Text, Memory>
    requires { hour < hours_of_years }
    ensures { IfOk result (λ t. t ≡ hour_text hour) }
{
    let day = day_after(hour / 24);
    let time = day.at((hour % 24) as i8, 0, 0, 0);
    Ok(Text::from(format!(in alloc; "{time}Z")?))
}
