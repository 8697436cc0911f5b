// The analysis of a block: its result record, its window table, and what it says beside the windows.
#![tactic(auto)]

mod operations;
mod outputs;

pub use operations::{analyse, summary_of, windows};

// What an analysis says of a block beside its windows.
#[derive(Clone, Copy)]
pub struct Summary {
    pub n: u8,
    pub origin: u8,
    pub bound: u16,
    pub number: u32,
    pub rounds: u16,
    pub pairs: u16,
    pub apart: u16,
}
