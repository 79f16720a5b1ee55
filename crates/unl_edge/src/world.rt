//! The endpoints of the program.
use std::marker::Model;
use std::sync::Wait;
use unl_base::{Door, Draws, Pace, Peer, Sink, Source, Spawner};
use unl_keeper::KeepMaker;

/// The endpoints that the program uses. A command uses some of them, and leaves the others unchanged. In contracts the
/// value of this type is a `Scene`: the state of each endpoint but the runtime.
#[derive(Drop)]
pub struct World<
    I: Source,
    O: Sink,
    D: Door,
    P: Peer,
    R: Draws,
    T: Pace,
    S: Spawner,
    Q: KeepMaker,
    W: Wait,
> {
    /// Standard input.
    pub input: I,
    /// Standard output.
    pub output: O,
    /// The door whose links are served.
    pub door: D,
    /// The connection to the server that is polled.
    pub peer: P,
    /// The source of the time and the random word of each answer, and of the random boot number of a board.
    pub draws: R,
    /// Waits for each turn (a poll of the server) after the first, and says whether there is one.
    pub pace: T,
    /// Starts jobs in threads.
    pub spawner: S,
    /// Creates the keeper of an upstream: the append-only store of its commands.
    pub keep: Q,
    /// The runtime, with which threads wait for each other.
    pub rt: W,
}

impl<
    I: Source,
    O: Sink,
    D: Door,
    P: Peer,
    R: Draws,
    T: Pace,
    S: Spawner,
    Q: KeepMaker,
    W: Wait,
> Model for World<I, O, D, P, R, T, S, Q, W> {
    ghost use Rattle.unl_edge.specs.Scene.{Scene};

    ghost Value = { Scene };

    ghost view = { λ world. record {
      input = record { left = I.left world.input; faults = I.faults world.input };
      output = record { sent = O.sent world.output; faults = O.faults world.output };
      door = record { state = D.state world.door; faults = D.faults world.door };
      draws = R.coming world.draws;
      peer = record { state = P.state world.peer; faults = P.Source.faults world.peer };
      pace = T.turns world.pace;
      spawner = S.faults world.spawner;
      keep = Q.state world.keep;
    } };
}
