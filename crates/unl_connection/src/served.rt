//! A list with one note for each request that was answered on a link. Contracts use the notes to state which data each
//! request was answered from.
ghost use Rattle.std.specs.Prelude.{◌≡◌, ◌<◌, ◌++◌, ◌∷◌, [], length, IfOk, option_copied, slice_get};

use std::alloc::Global;
use std::marker::Model;
use unl_base::Draw;
use unl_documents::Memory;
use unl_server::MOST_REQUESTS;

/// The note of one answered request.
#[derive(Clone, Copy, Debug, PartialEq, Eq)]
pub struct ServedOne {
    /// The number of installs that led to the board (the published environments and tokens) from which the request was
    /// answered.
    pub front: u64,
    /// The draw that the request was answered with: its time and its random word.
    pub draw: Draw,
}

/// The requests answered on a link, one note for each.
#[derive(Debug, Drop)]
pub struct Served {
    notes: Vec<ServedOne>,
}

impl Model for Served {
    ghost use Rattle.std.specs.Prelude.{◌≤◌, List, vec_capacity};
    ghost use Rattle.unl_connection.specs.declared.served.ServedOne.{ServedOne};

    ghost Value = { List ServedOne };

    ghost view = { λ served. served.notes.items };

    // There is room for the notes of `MOST_REQUESTS` (1,000) requests, the limit of one link.
    ghost invariant = { λ served. 1000 ≤ vec_capacity served.notes };
}

impl Served {
    /// Creates an empty list with room for the notes of one link.
    ///
    /// # Errors
    /// `Memory`: out of memory.
    pub fn new(alloc: Global) -> Result<Self, Memory>
        ensures { IfOk result (λ served. served ≡ []) }
    {
        Ok(Served {
            notes: Vec::with_capacity(alloc, MOST_REQUESTS)?,
        })
    }

    /// The number of notes in the list.
    pub fn len(&self) -> usize
        ensures { result ≡ length self.now }
    {
        self.notes.len()
    }

    /// Returns the note at the index `place`, counted from 0, or `None` if there is no note at that index.
    pub fn get(&self, place: usize) -> Option<&ServedOne>
        ensures { option_copied result ≡ slice_get self.now place }
    {
        self.notes.as_slice().get(place)
    }

    /// Removes all notes, and keeps the capacity.
    pub fn clear(&mut self)
        ensures { self.new ≡ [] }
    {
        self.notes.truncate(0);
    }

    /// Appends a note. The list must have fewer than `MOST_REQUESTS` (1,000) notes, so that there is room for one more.
    pub(crate) fn note(&mut self, one: ServedOne)
        requires { length self.old < MOST_REQUESTS }
        ensures { self.new ≡ self.old ++ one ∷ [] }
    {
        self.notes.push(one).unwrap();
    }
}
