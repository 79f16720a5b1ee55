//! The snapshot of a version: an environment's state, compiled for evaluation.
ghost use Rattle.std.specs.Prelude.{◌≡◌, false, Some, IfOk, IfSome, IsSome, option_map};
ghost use Rattle.serde_json.specs.View.{view};
ghost use Rattle.serde_json.specs.Written.{compact_text, has_float};
ghost use Rattle.unl_compiled.specs.Places.{IsIndex, places_of as places_in, strategy_at};
ghost use Rattle.unl_compiled.specs.Toggles.{toggles_data};
ghost use Rattle.unl_delta.specs.declared.batch.Verdict.TheVariants.{Apply};
ghost use Rattle.unl_delta.specs.Batch.{verdict_of, next_version};
ghost use Rattle.unl_delta.specs.Valid.{IsValidBatch, IsValidVersion};
ghost use Rattle.unl_delta.specs.View.{view_of};
ghost use Rattle.unl_dependencies.specs.Evaluation.{evaluation_of, feature_named};
ghost use Rattle.unl_documents.specs.Valid.{IsValidFeature};
ghost use Rattle.unl_tokens.specs.Names.{sees};

use crate::index::{ProjectPlaces, places_of};
use crate::index_after::{all_places, places_after};
use crate::parts::Parts;
use crate::query::ToggleQuery;
use crate::seen::{Seen, document_of, seen_named};
use crate::toggles::toggles_of;
use crate::toggles_text::toggles_text;
use serde_json::Value;
use std::alloc::Global;
use std::marker::Model;
use unl_constraints::Compiled;
use unl_context::Context;
use unl_delta::{Batch, EnvVersion, Place, apply};
use unl_dependencies::{Evaluation, evaluate};
use unl_documents::{Feature, List, Memory, Shared};
use unl_strategies::Moment;
use unl_tokens::Projects;

/// A version of an environment, with its constraints compiled and an index from each project to the positions of its
/// features. In contracts the value is the version, which is valid.
#[derive(Drop)]
pub struct Snapshot {
    version: Shared<EnvVersion>,
    parts: Parts,
    projects: Shared<List<ProjectPlaces>>,
}

impl Model for Snapshot {
    ghost use Rattle.std.specs.Prelude.{◌≡◌};
    ghost use Rattle.unl_compiled.specs.Places.{IsIndex};
    ghost use Rattle.unl_delta.specs.declared.version.EnvVersion.{EnvVersion};
    ghost use Rattle.unl_delta.specs.Valid.{IsValidVersion};

    ghost Value = { EnvVersion };

    ghost view = { λ s. s.version };

    ghost invariant = { λ s. IsValidVersion s.version × (s.parts ≡ s.version.state) × IsIndex s.version.state.features s.projects };
}

impl Snapshot {
    /// Builds the snapshot of a valid version. Compiles all features and segments.
    ///
    /// # Errors
    /// `Memory`: out of memory.
    pub fn build(alloc: Global, version: EnvVersion) -> Result<Snapshot, Memory>
        requires { IsValidVersion version }
        ensures { IfOk result (λ s. s ≡ version) }
    {
        let parts = Parts::of(alloc, &version.state)?;
        let projects = all_places(alloc, &parts)?;
        Snapshot::of_parts(alloc, version, parts, projects)
    }

    /// The snapshot of the next version: the version of this snapshot after `batch`. `place` has the current version of
    /// the environment, which must be the version of this snapshot, and says whether only a hydration (a whole new
    /// state) can apply. The batch must be valid and apply to the place (`Verdict::Apply`).
    ///
    /// Compiled features and segments that no event of the batch names are shared with this snapshot. If the batch has
    /// a hydration, nothing is shared.
    ///
    /// # Errors
    /// `Memory`: out of memory.
    pub fn next(&self, alloc: Global, place: &Place, batch: &Batch) -> Result<Snapshot, Memory>
        requires place { place.now.version ≡ Some self.now }
        requires batch { IsValidBatch batch.now }
        requires applies { verdict_of place.now batch.now ≡ Apply }
        ensures { IfOk result (λ s. s ≡ next_version place.now batch.now) }
    {
        let version = next_of(alloc, self.version(), place, batch)?;
        let events = batch.events.as_slice();
        let number = self.version().number;
        let next = self.parts.next(alloc, number, events)?;
        let projects = places_after(alloc, number, events, &self.parts, &self.projects, &next)?;
        Snapshot::of_parts(alloc, version, next, projects)
    }

    /// The version that this is the snapshot of. Doesn't allocate.
    pub fn version(&self) -> &EnvVersion
        ensures version { result.now ≡ self.now }
        ensures valid { IsValidVersion result.now }
    {
        self.version.get()
    }

    /// Returns another handle to the version. The version itself is shared, not copied.
    ///
    /// # Errors
    /// `Memory`: out of memory.
    pub fn shared(&self, _alloc: Global) -> Result<Shared<EnvVersion>, Memory>
        ensures { IfOk result (λ v. v ≡ self.now) }
    {
        self.version.copy()
    }

    /// Finds a feature by its name. Returns `None` if no feature has the name, or the feature's project is not in
    /// `projects`. Doesn't allocate.
    pub fn feature(&self, name: &str, projects: &Projects) -> Option<&Feature>
        ensures found { option_map (λ f. f.now) result
            ≡ feature_named name.now (view_of (sees projects.now) self.now.state).features }
        ensures valid { IfSome result (λ f. IsValidFeature f.now) }
    {
        document_of(seen_named(&self.parts, projects, name))
    }

    /// Evaluates the feature with this name. Only features whose project is in `projects` are visible: a parent that
    /// isn't visible counts as absent. On success, the result is `None` if and only if no visible feature has the name.
    ///
    /// # Errors
    /// `Memory`: out of memory.
    pub fn evaluate(
        &self,
        alloc: Global,
        name: &str,
        projects: &Projects,
        context: &Context,
        moment: &Moment,
    ) -> Result<Option<Evaluation>, Memory>
        ensures { IfOk result (λ found. found
            ≡ evaluation_of (view_of (sees projects.now) self.now.state) name.now context.now moment.entry.now) }
    {
        let seen = Seen::of(&self.parts, projects);
        evaluate(alloc, &seen, name, context, moment)
    }

    /// The body of the frontend endpoints, as a JSON value: the toggles of the features whose project is in `projects`,
    /// in the order of their names. If `all` is false, only the toggles that are on are in the body. As for `evaluate`,
    /// a parent whose project is not in `projects` counts as absent.
    ///
    /// # Errors
    /// `Memory`: out of memory.
    pub fn toggles(
        &self,
        alloc: Global,
        projects: &Projects,
        all: bool,
        context: &Context,
        moment: &Moment,
    ) -> Result<Value, Memory>
        ensures toggles { IfOk result (λ v. view v
            ≡ toggles_data (view_of (sees projects.now) self.now.state) all context.now moment.entry.now) }
        ensures no_float { IfOk result (λ v. has_float (view v) ≡ false) }
    {
        toggles_of(alloc, &self.query(projects, all, context, moment))
    }

    /// The same body as `toggles`, as compact JSON text.
    ///
    /// # Errors
    /// `Memory`: out of memory.
    pub fn toggles_text(
        &self,
        alloc: Global,
        projects: &Projects,
        all: bool,
        context: &Context,
        moment: &Moment,
    ) -> Result<List<u8>, Memory>
        ensures { IfOk result (λ text. text
            ≡ compact_text (toggles_data (view_of (sees projects.now) self.now.state) all context.now moment.entry.now)) }
    {
        toggles_text(alloc, &self.query(projects, all, context, moment))
    }

    /// The positions of a project's features in the version's state, counted from 0, in ascending order. Empty if the
    /// project has no feature. Doesn't allocate.
    pub fn of_project(&self, project: &str) -> &[usize]
        ensures { result.now ≡ places_in project.now self.now.state.features }
    {
        places_of(self.projects.get().as_slice(), project)
    }

    /// The compiled constraints, in order, of the strategy at index `strategy` of the feature at index `feature` of the
    /// version's state. Both indexes count from 0. The strategy must exist. Doesn't allocate.
    pub fn constraints(&self, feature: usize, strategy: usize) -> &List<Compiled>
        requires { IsSome (strategy_at self.now.state feature strategy) }
        ensures { option_map (λ s. s.constraints) (strategy_at self.now.state feature strategy) ≡ Some result.now }
    {
        self.parts.constraints(feature, strategy)
    }

    /// A query for toggles over this snapshot.
    fn query<'a>(
        &'a self,
        projects: &'a Projects,
        all: bool,
        context: &'a Context,
        moment: &'a Moment<'a>,
    ) -> ToggleQuery<'a>
        ensures state { result.state ≡ self.now.state }
        ensures projects { result.projects ≡ projects.now }
        ensures all { result.all ≡ all }
        ensures context { result.context ≡ context.now }
        ensures moment { result.moment ≡ moment.entry.now }
    {
        ToggleQuery {
            parts: &self.parts,
            index: self.projects.get().as_slice(),
            projects,
            all,
            context,
            moment,
        }
    }

    /// Makes the snapshot of a version from its compiled parts and its project index.
    fn of_parts(
        alloc: Global,
        version: EnvVersion,
        parts: Parts,
        projects: Shared<List<ProjectPlaces>>,
    ) -> Result<Snapshot, Memory>
        requires valid { IsValidVersion version }
        requires parts { parts ≡ version.state }
        requires projects { IsIndex version.state.features projects }
        ensures { IfOk result (λ s. s ≡ version) }
    {
        Ok(Snapshot {
            version: Shared::new(alloc, version)?,
            parts,
            projects,
        })
    }
}

/// The version after a batch that applies to a place. `version` is the place's version.
fn next_of(
    alloc: Global,
    version: &EnvVersion,
    place: &Place,
    batch: &Batch,
) -> Result<EnvVersion, Memory>
    requires valid { IsValidVersion version.now }
    requires place { place.now.version ≡ Some version.now }
    requires batch { IsValidBatch batch.now }
    requires applies { verdict_of place.now batch.now ≡ Apply }
    ensures next { IfOk result (λ v. v ≡ next_version place.now batch.now) }
    ensures valid { IfOk result IsValidVersion }
{
    apply(alloc, place, batch)
}
