//! `ChunkedList`: a long list that is cheap to copy. A copy shares all chunks of items with its original.
ghost use Rattle.std.specs.Prelude.{◌≡◌, ◌==◌, ◌+◌, ◌-◌, ◌<◌, ◌≤◌, [], ◌∷◌, ◌++◌, IfOk, IfSome, OnOk, OnErr, All, Some};
ghost use Rattle.std.specs.Prelude.{length, option_map, remove, slice_get, take, drop};
ghost use Rattle.unl_documents.specs.Chunks.{joined, NoneIsEmpty};

use crate::copied::TryClone;
use crate::list::List;
use crate::memory::Memory;
use crate::shared::Shared;
use std::alloc::Global;
use std::marker::Model;

/// The maximum number of items in a chunk that this module builds.
const MOST: usize = 128;

/// A chunk: a list of items. The chunk and each of its items are reference-counted.
pub type Chunk<T> = Shared<List<Shared<T>>>;

/// A list of reference-counted items, stored in reference-counted chunks. In a contract, a
/// `ChunkedList<T>` is the list of its items.
///
/// Chunks built in this module have 1 to 128 items. [`ChunkedList::from_chunks`] also accepts longer chunks.
#[derive(Drop)]
pub struct ChunkedList<T> {
    chunks: List<Chunk<T>>,
}

impl<T> Model for ChunkedList<T> {
    ghost use Rattle.std.specs.Prelude.{List};
    ghost use Rattle.unl_documents.specs.Chunks.{joined, NoneIsEmpty};

    ghost Value = { List T };

    ghost view = { λ s. joined s.chunks };

    ghost invariant = { λ s. NoneIsEmpty s.chunks };
}

impl<T: Drop> ChunkedList<T> {
    /// Returns an empty list, without allocating.
    pub fn new(alloc: Global) -> ChunkedList<T>
        ensures { result ≡ [] }
    {
        ChunkedList {
            chunks: List::new(alloc),
        }
    }

    /// Returns a list of `items`, split into chunks. The only error is out of memory.
    pub fn of_list(alloc: Global, items: &List<Shared<T>>) -> Result<ChunkedList<T>, Memory>
        ensures { IfOk result (λ s. s ≡ items.now) }
    {
        Ok(ChunkedList {
            chunks: cut(alloc, items.as_slice())?,
        })
    }

    /// Returns the list of the items of `chunks`, without copying. No chunk may be empty.
    pub fn from_chunks(chunks: List<Chunk<T>>) -> ChunkedList<T>
        requires { NoneIsEmpty chunks }
        ensures { result ≡ joined chunks }
    {
        ChunkedList { chunks }
    }

    /// Returns the chunks that hold the items, in order. None is empty.
    pub fn chunks(&self) -> &[Chunk<T>]
        ensures items { joined result.now ≡ self.now }
        ensures full { NoneIsEmpty result.now }
    {
        self.chunks.as_slice()
    }

    /// Returns the chunks that hold the items, in order, as an owned list. None is empty.
    pub fn into_chunks(self) -> List<Chunk<T>>
        ensures items { joined result ≡ self }
        ensures full { NoneIsEmpty result }
    {
        self.chunks
    }

    /// Returns the number of items.
    ///
    /// # Errors
    ///
    /// `Memory`: the number doesn't fit into a `usize`. A list can have that many items, because the same chunk can
    /// occur in it more than once.
    pub fn len(&self) -> Result<usize, Memory>
        ensures { IfOk result (λ count. count ≡ length self.now) }
    {
        item_count(self.chunks.as_slice())
    }

    /// Returns whether there are no items.
    pub fn is_empty(&self) -> bool
        ensures { result ≡ (length self.now == 0) }
    {
        self.chunks.is_empty()
    }

    /// Returns the item at index `place`, counted from 0, or `None` if there are too few items.
    pub fn get(&self, place: usize) -> Option<&T>
        ensures { option_map (λ x. x.now) result ≡ slice_get self.now place }
    {
        item_at(self.chunks.as_slice(), place)
    }

    /// Returns a list of the items of `self` followed by `items`. The result shares the chunks of `self`, except that
    /// the last chunk is replaced by a new one if it has room for all of `items`. The only error is out of memory.
    pub fn append(&self, alloc: Global, items: &[Shared<T>]) -> Result<ChunkedList<T>, Memory>
        ensures { IfOk result (λ s. s ≡ self.now ++ items.now) }
    {
        appended(alloc, self.chunks.as_slice(), items)
    }
}

impl<T: Drop> TryClone for ChunkedList<T> {
    fn copy(&self, alloc: Global) -> Result<ChunkedList<T>, Memory> {
        Ok(ChunkedList {
            chunks: self.chunks.copy(alloc)?,
        })
    }
}

/// Removes the chunk at index `place`, which must be below the number of chunks, and returns its items. The references
/// to the items are copied only if something else also refers to the chunk. The only error is out of memory; the chunk
/// is then removed, too.
pub fn take_chunk<T: Drop>(
    alloc: Global,
    chunks: &mut List<Chunk<T>>,
    place: usize,
) -> Result<List<Shared<T>>, Memory>
    requires { place < length chunks.old }
    ensures chunk { IfOk result (λ chunk. Some chunk ≡ slice_get chunks.old place) }
    ensures others { OnOk result (chunks.new ≡ remove chunks.old place) }
{
    let chunk = chunks.remove(place);
    owned(alloc, chunk)
}

/// Returns the items of a chunk. The references to the items are copied only if something else also refers to the
/// chunk.
fn owned<T: Drop>(alloc: Global, chunk: Chunk<T>) -> Result<List<Shared<T>>, Memory>
    ensures { IfOk result (λ list. list ≡ chunk) }
{
    match chunk.into_owned() {
        Ok(list) => Ok(list),
        Err(chunk) => owners(alloc, chunk.get().as_slice()),
    }
}

/// Returns the list of the items of `chunks`, with `chunk` inserted as the chunk at index `place`, which must be at
/// most the number of chunks. None of `chunks` may be empty. `chunk` is split if it has more than 128 items and left
/// out if it is empty. The only error is out of memory.
pub fn with_chunk<T: Drop>(
    alloc: Global,
    mut chunks: List<Chunk<T>>,
    place: usize,
    chunk: List<Shared<T>>,
) -> Result<ChunkedList<T>, Memory>
    requires inside { place ≤ length chunks }
    requires full { NoneIsEmpty chunks }
    ensures { IfOk result (λ s. s ≡ joined (take place chunks) ++ chunk ++ joined (drop place chunks)) }
{
    if chunk.is_empty() || chunk.len() > MOST {
        return with_cut(alloc, chunks.as_slice(), place, chunk.as_slice());
    }
    chunks.insert(place, Shared::new(alloc, chunk)?)?;
    Ok(ChunkedList { chunks })
}

/// Like [`with_chunk`], but copies the references in `chunk` into new chunks, whatever its length.
fn with_cut<T: Drop>(
    alloc: Global,
    chunks: &[Chunk<T>],
    place: usize,
    chunk: &[Shared<T>],
) -> Result<ChunkedList<T>, Memory>
    requires inside { place ≤ length chunks.now }
    requires full { NoneIsEmpty chunks.now }
    ensures { IfOk result (λ s. s ≡ joined (take place chunks.now) ++ chunk.now ++ joined (drop place chunks.now)) }
{
    let mut changed = List::with_room(alloc, chunks.len())?;
    push_owners(&mut changed, before(chunks, place))?;
    push_cut(alloc, &mut changed, chunk)?;
    push_owners(&mut changed, from(chunks, place))?;
    Ok(ChunkedList { chunks: changed })
}

fn before<T>(chunks: &[T], place: usize) -> &[T]
    requires { place ≤ length chunks.now }
    ensures { result.now ≡ take place chunks.now }
{
    &chunks[..place]
}

fn from<T>(chunks: &[T], place: usize) -> &[T]
    requires { place ≤ length chunks.now }
    ensures { result.now ≡ drop place chunks.now }
{
    &chunks[place..]
}

/// Appends another reference to each value of `more`.
fn push_owners<T: Drop>(list: &mut List<Shared<T>>, more: &[Shared<T>]) -> Result<(), Memory>
    ensures { OnOk result (list.new ≡ list.old ++ more.now) }
{
    for shared in more {
        list.push(shared.copy()?)?;
    }
    Ok(())
}

/// Appends `chunk` to `chunks`. `chunk` is split if it has more than 128 items and left out if it is empty.
fn push_chunk<T: Drop>(
    alloc: Global,
    chunks: &mut List<Chunk<T>>,
    chunk: List<Shared<T>>,
) -> Result<(), Memory>
    requires { NoneIsEmpty chunks.old }
    ensures items { OnOk result (joined chunks.new ≡ joined chunks.old ++ chunk) }
    ensures full { NoneIsEmpty chunks.new }
{
    if chunk.is_empty() || chunk.len() > MOST {
        return push_cut(alloc, chunks, chunk.as_slice());
    }
    chunks.push(Shared::new(alloc, chunk)?)
}

/// Appends new chunks with another reference to each of `items`.
fn push_cut<T: Drop>(
    alloc: Global,
    chunks: &mut List<Chunk<T>>,
    items: &[Shared<T>],
) -> Result<(), Memory>
    requires { NoneIsEmpty chunks.old }
    ensures items { OnOk result (joined chunks.new ≡ joined chunks.old ++ items.now) }
    ensures full { NoneIsEmpty chunks.new }
{
    for part in items.chunks(size_of_chunks(items.len())) {
        push_copy(alloc, chunks, part)?;
    }
    Ok(())
}

/// Appends a chunk with another reference to each value of `part`. `chunks` is unchanged on an error.
fn push_copy<T: Drop>(
    alloc: Global,
    chunks: &mut List<Chunk<T>>,
    part: &[Shared<T>],
) -> Result<(), Memory>
    ensures ok { OnOk result (chunks.new ≡ chunks.old ++ part.now ∷ []) }
    ensures err { OnErr result (chunks.new ≡ chunks.old) }
{
    chunks.push(Shared::new(alloc, owners(alloc, part)?)?)
}

/// Returns a chunk size, from 1 to 128, that splits `count` items into chunks of about the same length. The last chunk
/// may be shorter.
fn size_of_chunks(count: usize) -> usize
    ensures { 0 < result }
{
    let chunks = count / MOST + 1;
    count / chunks + 1
}

/// Returns a list with another reference to each value.
fn owners<T: Drop>(alloc: Global, values: &[Shared<T>]) -> Result<List<Shared<T>>, Memory>
    ensures { IfOk result (λ list. list ≡ values.now) }
{
    let mut list = List::with_room(alloc, values.len())?;
    push_owners(&mut list, values)?;
    Ok(list)
}

/// Returns new chunks with another reference to each of `items`.
fn cut<T: Drop>(alloc: Global, items: &[Shared<T>]) -> Result<List<Chunk<T>>, Memory>
    ensures items { IfOk result (λ chunks. joined chunks ≡ items.now) }
    ensures full { IfOk result NoneIsEmpty }
{
    let mut chunks = List::new(alloc);
    push_cut(alloc, &mut chunks, items)?;
    Ok(chunks)
}

/// Implements [`ChunkedList::append`].
fn appended<T: Drop>(
    alloc: Global,
    chunks: &[Chunk<T>],
    items: &[Shared<T>],
) -> Result<ChunkedList<T>, Memory>
    requires { NoneIsEmpty chunks.now }
    ensures { IfOk result (λ s. s ≡ joined chunks.now ++ items.now) }
{
    match last_with_room(chunks, items.len()) {
        None => with_chunks(alloc, chunks, items),
        Some(last) => {
            let room = last.len().saturating_add(items.len());
            let mut chunk = List::with_room(alloc, room)?;
            push_owners(&mut chunk, last.as_slice())?;
            push_owners(&mut chunk, items)?;
            with_last(alloc, before(chunks, chunks.len() - 1), chunk)
        }
    }
}

/// Returns the list of `chunks`, followed by the chunk `last`, which is split if it has more than 128 items.
fn with_last<T: Drop>(
    alloc: Global,
    chunks: &[Chunk<T>],
    last: List<Shared<T>>,
) -> Result<ChunkedList<T>, Memory>
    requires { NoneIsEmpty chunks.now }
    ensures { IfOk result (λ s. s ≡ joined chunks.now ++ last) }
{
    let mut more = List::with_room(alloc, chunks.len().saturating_add(1))?;
    push_owners(&mut more, chunks)?;
    push_chunk(alloc, &mut more, last)?;
    Ok(ChunkedList { chunks: more })
}

/// Returns the last chunk if `count` is 0 or `count` more items fit into it (at most 128 in all). Returns `None`
/// otherwise, or if there are no chunks.
fn last_with_room<T: Drop>(chunks: &[Chunk<T>], count: usize) -> Option<&List<Shared<T>>>
    ensures inside { IfSome result (λ last. 0 < length chunks.now) }
    ensures items { IfSome result (λ last. joined (take (length chunks.now - 1) chunks.now) ++ last.now ≡ joined chunks.now) }
{
    let last = chunks.last()?.get();
    if MOST.saturating_sub(last.len()) < count {
        return None;
    }
    Some(last)
}

/// Returns the list of `chunks`, followed by `items` in new chunks.
fn with_chunks<T: Drop>(
    alloc: Global,
    chunks: &[Chunk<T>],
    items: &[Shared<T>],
) -> Result<ChunkedList<T>, Memory>
    requires { NoneIsEmpty chunks.now }
    ensures { IfOk result (λ s. s ≡ joined chunks.now ++ items.now) }
{
    let mut more = owners(alloc, chunks)?;
    push_cut(alloc, &mut more, items)?;
    Ok(ChunkedList { chunks: more })
}

/// Returns the total number of items in the chunks.
///
/// # Errors
///
/// `Memory`: the number doesn't fit into a `usize`.
pub fn item_count<T: Drop>(chunks: &[Chunk<T>]) -> Result<usize, Memory>
    ensures { IfOk result (λ count. count ≡ length (joined chunks.now)) }
{
    let mut count = 0;
    for chunk in chunks {
        count = checked_sum(count, chunk.get().len())?;
    }
    Ok(count)
}

/// Returns the sum of two counts.
///
/// # Errors
///
/// `Memory`: the sum doesn't fit into a `usize`.
pub fn checked_sum(count: usize, more: usize) -> Result<usize, Memory>
    ensures { IfOk result (λ sum. sum ≡ count + more) }
{
    count.checked_add(more).ok_or(Memory)
}

/// Returns the item at index `place` of all chunks together, or `None` if they have too few items.
fn item_at<T: Drop>(chunks: &[Chunk<T>], place: usize) -> Option<&T>
    ensures { option_map (λ x. x.now) result ≡ slice_get (joined chunks.now) place }
{
    let mut left = place;
    for chunk in chunks {
        let count = chunk.get().len();
        if left < count {
            return item_of(chunk.get(), left);
        }
        left -= count;
    }
    None
}

fn item_of<T: Drop>(chunk: &List<Shared<T>>, place: usize) -> Option<&T>
    ensures { option_map (λ x. x.now) result ≡ slice_get chunk.now place }
{
    chunk.get(place).map(|item| item.get())
}
