// The play of a block: one cycle by value, and the play table.
#![tactic(auto)]

mod operations;
mod refusals;

pub use operations::{play, play_length};
use record::Reason;

// Where a play stands: the number of the cycle to come, and for each of 300 nodes its start, or 65535 where it has not started.
#[derive(Clone, Copy, Debug, PartialEq, Eq)]
pub struct PlayState {
    pub t: u16,
    pub starts: [u16; 300],
}

// A cycle that is refused: why, and the state that it got.
#[derive(Clone, Copy, Debug, PartialEq, Eq)]
pub struct RefusedCycle {
    pub reason: Reason,
    pub state: PlayState,
}
