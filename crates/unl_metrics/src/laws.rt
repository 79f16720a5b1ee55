//! Facts about metrics books, and about the bulk reports sent from them. Each function is empty: its contract states
//! the fact.
ghost use Rattle.std.specs.Prelude.{◌≡◌, ◌≢◌, ◌↔◌, ◌<◌, ◌≤◌, ℕ, List, [], None, T, All, length, map, take, drop, fold};
ghost use Rattle.std.specs.Cmp.Lexicographic.{slice_cmp};
ghost use Rattle.std.specs.FinMap.Entries.{is_sorted};
ghost use Rattle.std.specs.Ordering.{nat_cmp};
ghost use Rattle.serde_json.specs.Data.{depth};
ghost use Rattle.unl_metrics.specs.declared.report.MetricEntry.{MetricEntry};
ghost use Rattle.unl_metrics.specs.Book.{Book, MetricKey, Tally, sum, sum_of, tally_sum, tally_at, tallies_at, count_at, and_more};
ghost use Rattle.unl_metrics.specs.Book.{sum_of_both};
ghost use Rattle.unl_metrics.specs.Book.{counted, counted_in, acknowledge, IsCounted, HasOrderedKeys, IsMetricsBook};
ghost use Rattle.unl_metrics.specs.Bulk.{bulk, bulk_data, bulk_length, longest_bulk, room_for};
ghost use Rattle.unl_metrics.specs.Readable.{AreReadable, IsReadAs, IsSendable, entries_at};

/// A book is a finite map: two books are equal if, at each key, both have the same tally or neither has one.
pub fn books_are_maps()
    ensures { (a b : Book) → HasOrderedKeys a → HasOrderedKeys b → ((key : MetricKey) → tally_at key a ≡ tally_at key b) → a ≡ b }
{}

/// At each key, the sum of two books has the sum of both tallies. At each variant, the sum of two tallies has the sum
/// of both counts. If only one of the two tallies or counts is present, it is the sum. If the second book lists a key
/// several times, all of its tallies at that key are added. A sum keeps the keys in ascending order.
pub fn sums_are_sums_at_each_key()
    ensures entries { (book others : Book) (key : MetricKey) → tally_at key (sum_of book others)
        ≡ fold (and_more tally_sum) (tally_at key book) (tallies_at key others) }
    ensures books { (book other : Book) (key : MetricKey) → HasOrderedKeys other → tally_at key (sum_of book other)
        ≡ sum_of_both tally_sum (tally_at key book) (tally_at key other) }
    ensures variants { (s t : Tally) (name : List ℕ) → T (is_sorted (slice_cmp nat_cmp) t.variants)
        → count_at name (tally_sum s t).variants ≡ sum_of_both sum (count_at name s.variants) (count_at name t.variants) }
    ensures order { (book others : Book) → HasOrderedKeys book → All IsCounted others → HasOrderedKeys (sum_of book others) }
{}

/// An acknowledgement of `count` keys drops the first `count` keys of its environment, and no keys of other
/// environments.
pub fn acknowledged_keys_are_dropped()
    ensures these { (environment : List ℕ) (count : ℕ) (book : Book) → counted_in environment (acknowledge environment count book)
        ≡ drop count (counted_in environment book) }
    ensures others { (environment other : List ℕ) (count : ℕ) (book : Book) → environment ≢ other
        → counted_in other (acknowledge environment count book) ≡ counted_in other book }
{}

/// Nothing is sent exactly if the environment has no key. Otherwise the report that is sent has the longest prefix of
/// the environment's keys for which the report's text is at most 1,048,576 bytes.
pub fn the_longest_prefix_is_sent()
    ensures none { (environment : List ℕ) (book : Book) → (bulk environment book ≡ None) ↔ (counted_in environment book ≡ []) }
    ensures fits { (book : Book) → bulk_length (take (room_for book) book) ≤ longest_bulk }
    ensures longest { (book : Book) (n : ℕ) → room_for book < n → n ≤ length book → longest_bulk < bulk_length (take n book) }
{}

/// The keys of an environment and their tallies can be turned into report entries and back. A bulk report of entries
/// that are within the limits for reading is read as these same entries. If a book's names and hours are within these
/// limits, the bulk report of the first keys of an environment is read as the entries of these keys. A bulk report is
/// nested at most 4 levels deep.
pub fn what_is_sent_is_read()
    ensures entries { (environment : List ℕ) (book : Book) → map (counted environment) (entries_at (counted_in environment book))
        ≡ counted_in environment book }
    ensures report { (environment : List ℕ) (entries : List MetricEntry) → AreReadable entries
        → IsReadAs (bulk_data (map (counted environment) entries)) entries }
    ensures book { (environment : List ℕ) (book : Book) (n : ℕ) → IsMetricsBook book → All IsSendable book
        → IsReadAs (bulk_data (take n (counted_in environment book))) (entries_at (take n (counted_in environment book))) }
    ensures depth { (book : Book) → depth (bulk_data book) ≤ 4 }
{}

/// A book can be sent if its names and hours are within the limits for reading a report. Entries that were read can be
/// sent. If two books can be sent, so can their sum. If a book can be sent, so can what an acknowledgement leaves of
/// the book.
pub fn what_is_read_may_be_sent()
    ensures entries { (environment : List ℕ) (entries : List MetricEntry) → AreReadable entries
        → All IsSendable (map (counted environment) entries) }
    ensures sums { (book others : Book) → All IsSendable book → All IsSendable others → All IsSendable (sum_of book others) }
    ensures rest { (environment : List ℕ) (count : ℕ) (book : Book) → All IsSendable book
        → All IsSendable (acknowledge environment count book) }
{}
