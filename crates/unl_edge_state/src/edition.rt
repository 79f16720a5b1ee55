//! The published value: a board, how many installs led to it, and whether its publication is orderly.
ghost use Rattle.std.specs.Prelude.{◌≡◌, IfOk};
ghost use Rattle.unl_core.specs.Board.{AreSlots};
ghost use Rattle.unl_edge_state.specs.Editions.{opening_of};

use left_right::Absorb;
use std::alloc::AllocError;
use std::marker::Model;
use unl_core::{Board, Install, install};
use unl_documents::Memory;
use unl_publication::Counted;

/// A board, how many installs led to it, and whether its publication is orderly. In an orderly publication each version
/// that is installed results from the slot's current version, if there is one, by one batch that applies.
#[derive(Drop)]
pub struct Edition {
    board: Board,
    front: u64,
    orderly: bool,
}

impl Model for Edition {
    ghost use Rattle.unl_core.specs.Board.{AreSlots};
    ghost use Rattle.unl_edge_state.specs.Editions.{BoardAt};

    ghost Value = { BoardAt };

    ghost view = { λ edition. record {
      board = edition.board;
      front = edition.front;
      orderly = edition.orderly;
    } };

    ghost invariant = { λ edition. AreSlots edition.board.slots };
}

impl Edition {
    /// Creates the opening edition, before any install. If `orderly` is false, any install may come. The board must
    /// have at most eight slots, of different environments.
    pub fn new(board: Board, orderly: bool) -> Edition
        requires { AreSlots board.slots }
        ensures { result ≡ opening_of orderly board }
    {
        Edition {
            board,
            front: 0,
            orderly,
        }
    }

    /// The board: the known tokens, and the current version of each environment.
    pub fn board(&self) -> &Board
        ensures board { result.now ≡ self.now.board }
        ensures slots { AreSlots result.now.slots }
    {
        &self.board
    }
}

impl Absorb<Install> for Edition {
    type State = Edition;

    ghost use Rattle.unl_edge_state.specs.Editions.{edited};

    ghost state = { λ edition. edition };

    ghost applied = { edited };

    fn absorb_first(&mut self, operation: &Install, other: &Edition) -> Result<(), AllocError> {
        let Ok(what) = copy_of(operation) else {
            return Err(AllocError);
        };
        match self.absorb_second(what, other) {
            Ok(()) => Ok(()),
            Err(_) => Err(AllocError),
        }
    }

    fn absorb_second(&mut self, operation: Install, _other: &Edition) -> Result<(), Install> {
        if self.front == u64::MAX {
            return Err(operation);
        }
        install(&mut self.board, operation);
        self.front += 1;
        Ok(())
    }
}

impl Counted<Install> for Edition {
    ghost use Rattle.std.specs.Prelude.{refl};
    ghost use Rattle.unl_edge_state.specs.Orderly.{AllowsInstall};

    ghost front_of = { λ edition. edition.front };

    ghost allows = { AllowsInstall };

    fn front(&self) -> u64 {
        self.front
    }

    ghost counts = { λ s what. refl };
}

/// Copies an install. The copy shares the install's book or snapshot.
fn copy_of(what: &Install) -> Result<Install, Memory>
    ensures { IfOk result (λ copy. copy ≡ what.now) }
{
    match what {
        Install::Tokens(book) => Ok(Install::Tokens(book.copy()?)),
        Install::Env(slot, snapshot) => Ok(Install::Env(*slot, snapshot.copy()?)),
    }
}
