//! Theorems about reading, sorting and writing documents. Each function here has an empty body; its `ensures`
//! clauses are the theorem.
ghost use Rattle.std.specs.Prelude.{◌≡◌, ◌↔◌, ◌≤◌, ℕ, List, Ok, Err, Some, None, length, map};
ghost use Rattle.serde_json.specs.Data.{Data};
ghost use Rattle.unl_documents.specs.declared.fault.BadDocument.{BadDocument};
ghost use Rattle.unl_documents.specs.declared.fault.BadDocument.TheVariants.{DuplicateName};
ghost use Rattle.unl_documents.specs.declared.feature.Feature.{Feature};
ghost use Rattle.unl_documents.specs.declared.segment.Segment.{Segment};
ghost use Rattle.unl_documents.specs.declared.state.State.{State};
ghost use Rattle.unl_documents.specs.declared.feed.Feed.{Feed};
ghost use Rattle.unl_documents.specs.declared.feed.FeedHead.{FeedHead};
ghost use Rattle.unl_documents.specs.declared.field.Field.{Field};
ghost use Rattle.unl_documents.specs.Documents.{feature_of, segment_of, override_of, dependency_of, payload_of, variant_of};
ghost use Rattle.unl_documents.specs.Documents.{constraint_of, strategy_of};
ghost use Rattle.unl_documents.specs.Kinds.{document};
ghost use Rattle.unl_documents.specs.Reads.{ReadsFeature, ReadsSegment, ReadsState, ReadsFeed};
ghost use Rattle.unl_documents.specs.Faults.{fault_of, first, first_fault_of_feature, first_fault_of_segment, first_fault_of_state};
ghost use Rattle.unl_documents.specs.Faults.{first_fault_of_feed, faults_of_override, faults_of_dependency, faults_of_payload};
ghost use Rattle.unl_documents.specs.Faults.{faults_of_variant, faults_of_constraint, faults_of_strategy, faults_of_meta};
ghost use Rattle.unl_documents.specs.Results.{json_of, IsJson};
ghost use Rattle.unl_documents.specs.Sorting.{IsSorting, IsLeastDuplicate, in_order};
ghost use Rattle.unl_documents.specs.States.{state_of, meta_of, feed_of, IsValidState};
ghost use Rattle.unl_documents.specs.Valid.{IsValidFeature, IsValidSegment};
ghost use Rattle.unl_documents.specs.Writing.{feature_data, segment_data, feed_data};

/// A value is read as a feature if and only if it represents that feature, key by key, and has no fault. Otherwise
/// reading fails with `NotJson` if the value isn't an object, or else with the first fault of its keys, in the order in
/// which they are read.
pub fn features_are_read()
    ensures read { (value : Data) (f : Feature)
        → (document feature_of value ≡ Ok f) ↔ (ReadsFeature value f × (first_fault_of_feature value ≡ None)) }
    ensures fault { (value : Data) (e : BadDocument) → (document feature_of value ≡ Err e) ↔ (first_fault_of_feature value ≡ Some e) }
{}

/// Like [`features_are_read`], but for segments.
pub fn segments_are_read()
    ensures read { (value : Data) (s : Segment)
        → (document segment_of value ≡ Ok s) ↔ (ReadsSegment value s × (first_fault_of_segment value ≡ None)) }
    ensures fault { (value : Data) (e : BadDocument) → (document segment_of value ≡ Err e) ↔ (first_fault_of_segment value ≡ Some e) }
{}

/// Like [`features_are_read`], but for states.
pub fn states_are_read()
    ensures read { (value : Data) (s : State)
        → (document state_of value ≡ Ok s) ↔ (ReadsState value s × (first_fault_of_state value ≡ None)) }
    ensures fault { (value : Data) (e : BadDocument) → (document state_of value ≡ Err e) ↔ (first_fault_of_state value ≡ Some e) }
{}

/// Like [`features_are_read`], but for feeds. The fault of a feed's `meta` object is the first fault of its keys.
pub fn feeds_are_read()
    ensures read { (value : Data) (f : Feed) → (document feed_of value ≡ Ok f) ↔ (ReadsFeed value f × (first_fault_of_feed value ≡ None)) }
    ensures fault { (value : Data) (e : BadDocument) → (document feed_of value ≡ Err e) ↔ (first_fault_of_feed value ≡ Some e) }
    ensures meta { (value : Data) → fault_of (meta_of value) ≡ first (faults_of_meta value) }
{}

/// The fault of an object nested in a document is the first fault of its keys, in the order in which they are read.
pub fn objects_have_their_first_fault()
    ensures overrides { (value : Data) → fault_of (override_of value) ≡ first (faults_of_override value) }
    ensures dependencies { (value : Data) → fault_of (dependency_of value) ≡ first (faults_of_dependency value) }
    ensures payloads { (value : Data) → fault_of (payload_of value) ≡ first (faults_of_payload value) }
    ensures variants { (value : Data) → fault_of (variant_of value) ≡ first (faults_of_variant value) }
    ensures constraints { (value : Data) → fault_of (constraint_of value) ≡ first (faults_of_constraint value) }
    ensures strategies { (value : Data) → fault_of (strategy_of value) ≡ first (faults_of_strategy value) }
{}

/// A valid feature or segment that is written and read again is unchanged. So are the epoch, the number and the state
/// of a feed, if the state is valid and has at most 10,000 features and 1,000 segments.
pub fn what_is_written_is_read()
    ensures feature { (f : Feature) → IsValidFeature f → document feature_of (feature_data f) ≡ Ok f }
    ensures segment { (s : Segment) → IsValidSegment s → document segment_of (segment_data s) ≡ Ok s }
    ensures feed { (head : FeedHead) (s : State) → IsValidState s → length s.features ≤ 10000 → length s.segments ≤ 1000
        → document feed_of (feed_data head s) ≡ Ok (record { epoch = head.epoch; state = s; number = Some head.number }) }
{}

/// `in_order`, by which features and segments are sorted, gives the list sorted by key, with strictly increasing keys.
/// If a key occurs twice, there is no such list, and `in_order` gives `DuplicateName` with the least key that occurs
/// twice.
pub fn order_is_the_sorting<T>()
    ensures sorting { (key : T → List ℕ) (spelled : List ℕ → List ℕ) (field : Field) (xs ys : List T)
        → (in_order key spelled field xs ≡ Ok ys) ↔ IsSorting key xs ys }
    ensures twice { (key : T → List ℕ) (spelled : List ℕ → List ℕ) (field : Field) (xs : List T) (e : BadDocument)
        → (in_order key spelled field xs ≡ Err e)
        ↔ ((k : List ℕ) × IsLeastDuplicate k (map key xs) × (e ≡ DuplicateName field (spelled k))) }
{}

/// Parsing bytes gives a value if and only if the bytes are a JSON text of that value.
pub fn spelled_is_json()
    ensures { (bytes : List ℕ) (value : Data) → (json_of bytes ≡ Some value) ↔ IsJson bytes value }
{}
