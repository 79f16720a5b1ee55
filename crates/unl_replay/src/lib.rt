//! The replay: processes an input with one JSON object on each line, and prints one line for each. An input line
//! installs a book of tokens, applies a batch or a feed to an environment, asks for the reply to a client's request, or
//! asks for the metrics of an environment. The replay ends at the first line that is refused, and prints why.
#![tactic(auto)]

mod ask;
mod batch;
pub mod laws;
mod refusal;
mod replay_state;
mod replaying;
mod step;

pub use replaying::replay;
/// Why a replay failed: a line was refused, the source or the sink failed, or memory ran out.
pub use unl_input::LinesFault as ReplayFault;
