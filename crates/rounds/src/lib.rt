// The windows of a block: earliest times, and rounds until one finds no new pair apart.
#![tactic(auto)]

mod rounds;
mod times;

pub use rounds::refine;
pub use times::earliest_into;

// What the rounds leave beside the windows.
#[derive(Clone, Copy)]
pub struct Counts {
    pub rounds: usize,
    pub pairs: usize,
    pub apart: usize,
}
