//! How many links a door has handed out (connections to be served) and taken back.
ghost use Rattle.std.specs.Prelude.{◌≤◌};

/// How many links a door has handed out and taken back. If `closed`, the door hands out no more links.
#[derive(Clone, Copy)]
pub(crate) struct Counts {
    pub closed: bool,
    pub handed_out: u64,
    pub taken_back: u64,
    ghost in_order: { taken_back ≤ handed_out },
}
