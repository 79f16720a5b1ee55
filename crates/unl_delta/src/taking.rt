//! `take_batch`: decides whether a batch applies to a slot, and then installs the batch, holds the slot, or changes
//! nothing.
ghost use Rattle.std.specs.Prelude.{◌≡◌, ◌<◌, ◌-◌, ◌^◌, IfOk, OnErr, OnOk, length};
ghost use Rattle.unl_delta.specs.Batch.{verdict_of};
ghost use Rattle.unl_delta.specs.History.{PreservesLines};
ghost use Rattle.unl_delta.specs.Installing.{ByVerdict, after_batch, place_of};
ghost use Rattle.unl_delta.specs.Valid.{IsValidBatch};

use crate::batch::{Batch, Verdict};
use crate::installer::Installer;
use crate::verdicts::verdict;
use std::alloc::Global;
use unl_documents::Memory;

/// Decides on a batch for a slot, carries out the verdict and returns it. `Apply` applies the batch and publishes the
/// new version, `Gap` holds the slot, and any other verdict changes nothing. `slot` is an index from 0, below the
/// number of slots. The batch must be valid, and the number of publications must be below 2^64 - 1.
///
/// A line has the history (the list of all changes) of each epoch of an environment. A version represents a line if it
/// results from its epoch's history: from the changes up to the version's number, without what the receiver may not
/// see. Clause `represents`: if the slot's version, if any, represents a line and the batch was sent from that line,
/// the slot's version afterwards represents the line too, and is not older.
///
/// # Errors
///
/// `Memory`: out of memory. The places, the number of publications and the book are then unchanged.
pub fn take_batch<I: Installer>(
    alloc: Global,
    to: &mut I,
    slot: usize,
    batch: &Batch,
) -> Result<Verdict, Memory>
    requires slot { slot < length (I.installed to.old).places }
    requires front { (I.installed to.old).front < 2 ^ 64 - 1 }
    requires batch { IsValidBatch batch.now }
    ensures verdict { IfOk result (λ v. v ≡ verdict_of (place_of (I.installed to.old) slot) batch.now) }
    ensures taken { IfOk result (λ v. I.installed to.new ≡ after_batch v slot batch.now (I.installed to.old)) }
    ensures whole { IfOk result (λ v. ByVerdict v (I.installs slot batch.now to.old to.new) (I.holds slot to.old to.new) (to.new
        ≡ to.old)) }
    ensures represents { OnOk result (PreservesLines (place_of (I.installed to.old) slot).version batch.now
        (place_of (I.installed to.new) slot).version) }
    ensures memory { OnErr result (I.installed to.new ≡ I.installed to.old) }
{
    take(alloc, to, slot, batch)
}

/// As [`take_batch`], without the clause `represents`.
fn take<I: Installer>(
    alloc: Global,
    to: &mut I,
    slot: usize,
    batch: &Batch,
) -> Result<Verdict, Memory>
    requires slot { slot < length (I.installed to.old).places }
    requires front { (I.installed to.old).front < 2 ^ 64 - 1 }
    requires batch { IsValidBatch batch.now }
    ensures verdict { IfOk result (λ v. v ≡ verdict_of (place_of (I.installed to.old) slot) batch.now) }
    ensures taken { IfOk result (λ v. I.installed to.new ≡ after_batch v slot batch.now (I.installed to.old)) }
    ensures whole { IfOk result (λ v. ByVerdict v (I.installs slot batch.now to.old to.new) (I.holds slot to.old to.new) (to.new
        ≡ to.old)) }
    ensures memory { OnErr result (I.installed to.new ≡ I.installed to.old) }
{
    let verdict = verdict(to.place(slot), batch);
    match verdict {
        Verdict::Apply => {
            to.install(alloc, slot, batch)?;
            Ok(Verdict::Apply)
        }
        Verdict::Gap => {
            to.hold(slot);
            Ok(Verdict::Gap)
        }
        Verdict::Repeat => Ok(Verdict::Repeat),
        Verdict::Old => Ok(Verdict::Old),
        Verdict::Held => Ok(Verdict::Held),
    }
}
