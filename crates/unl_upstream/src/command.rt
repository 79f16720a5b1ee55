//! The `Command` type: a change that adds, replaces or removes one feature or segment in one environment of an
//! upstream.
ghost use Rattle.std.specs.Prelude.{◌≡◌};
ghost use Rattle.unl_upstream.specs.Command.{environment_of};

use unl_documents::{Feature, Segment, Text};

/// A change to one environment of an upstream.
#[derive(Drop)]
pub enum Command {
    /// Adds the feature to the environment, or replaces the one with the same name.
    PutFeature { environment: Text, feature: Feature },
    /// Removes the feature with this name from the environment.
    RemoveFeature { environment: Text, name: Text },
    /// Adds the segment to the environment, or replaces the one with the same id.
    PutSegment { environment: Text, segment: Segment },
    /// Removes the segment with this id from the environment.
    RemoveSegment { environment: Text, id: u64 },
}

impl Command {
    /// Returns the name of the environment that the command changes. Allocates nothing.
    pub fn environment(&self) -> &str
        ensures { result.now ≡ environment_of self.now }
    {
        self.environment_text().as_str()
    }

    /// Returns the name of the environment that the command changes, as a `Text`.
    fn environment_text(&self) -> &Text
        ensures { result.now ≡ environment_of self.now }
    {
        match self {
            Command::PutFeature { environment, .. }
            | Command::RemoveFeature { environment, .. }
            | Command::PutSegment { environment, .. }
            | Command::RemoveSegment { environment, .. } => environment,
        }
    }
}
