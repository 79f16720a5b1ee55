//! The ghost (specification-only) record of what the writer and each reader know about the published value.
use std::collections::LinkedList;

/// What a writer or a reader knows of the published value. Each change of that value is one install. A reader sees the
/// list of installs when it looks, and can also learn a longer list from a report of the writer and continue from it.
/// This type exists only in contracts: no value of it is created.
pub struct Knowledge<S, I> {
    /// The name, if known, of the writer's `atomic_table`, the table of what the writer and each reader know. The name
    /// identifies the publication.
    pub table: Option<u64>,
    /// The value that was published first, if known.
    pub opening: Option<S>,
    /// The known installs, in order. For a writer, all that it published. For a reader, the list that it saw last or
    /// learned since.
    pub installs: LinkedList<I>,
    /// The values after 0, 1, 2, .. installs that the reader knew before it last continued from a learned list. Empty
    /// from the moment that it learns the list until its next look, which sets them; later looks keep them. Where this
    /// list has an item, that item is used instead of the value computed from `opening` and `installs`. Empty if the
    /// reader never learned a list.
    pub before: LinkedList<Option<S>>,
    /// The number of installs that a reader saw at each of its looks, oldest first.
    pub fronts: LinkedList<u64>,
}
