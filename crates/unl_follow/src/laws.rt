//! A property that is proved for a replica that follows another replica. The function here does nothing at run time.
ghost use Rattle.std.specs.Prelude.{◌≡◌, ◌++◌, List, Some, IfSome, option_map};
ghost use Rattle.std.specs.List.{AllByRecursion};
ghost use Rattle.unl_delta.specs.declared.batch.Batch.{Batch};
ghost use Rattle.unl_delta.specs.Batch.{all_taken, empty_place};
ghost use Rattle.unl_delta.specs.History.{Era, IsAnswerAfter, IsLine, IsNotBelow, IsSent, revision_in};
ghost use Rattle.unl_delta.specs.Revision.{revision_of};
ghost use Rattle.unl_delta.specs.View.{Sees, both, view_of};

use unl_delta::laws;

/// A first replica is sent batches from the histories of one environment (a line, with one history for each epoch). A
/// second replica applies the answers of the first, which may be filtered by project, dropped, duplicated and
/// reordered. If the second has a version, the state of this version is one revision of that line, filtered by the
/// projects that both replicas see. The version's epoch never decreases, nor does the version's number within an epoch.
pub fn two_hops()
    ensures state { (line : List Era) (sees projects : Sees) (batches answers : List Batch) → IsLine line
        → AllByRecursion (IsSent line sees) batches → AllByRecursion (IsAnswerAfter batches projects) answers
        → IfSome (all_taken empty_place answers).version (λ v.
        option_map (view_of (both sees projects)) (revision_in line (revision_of v)) ≡ Some v.state) }
    ensures never_falls { (line : List Era) (sees projects : Sees) (batches early late : List Batch) → IsLine line
        → AllByRecursion (IsSent line sees) batches → AllByRecursion (IsAnswerAfter batches projects) (early ++ late)
        → IsNotBelow (all_taken empty_place early).version (all_taken empty_place (early ++ late)).version }
{
    laws::two_hops();
    laws::any_delivery();
}
