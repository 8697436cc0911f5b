// What the analysis and a cycle of play both ask of a block again and again: its header's numbers, its instructions with their
// last writers, and the ready time of each stage. The whole play takes the header's numbers from here.
#![tactic(auto)]

mod blocks;
mod last_writers;
mod numbers;
mod stages;
mod unpacked_block;

pub use blocks::{instructions_of, shape_of, unpacked_of};
pub use last_writers::LastWriters;
pub use numbers::time;
pub use stages::{latency_of, ready_cm, ready_ex, ready_id, ready_if, stage_of};
pub use unpacked_block::UnpackedBlock;

// The stages of an instruction, in node order: IF, ID, EX, WB, CM.
#[derive(Clone, Copy, PartialEq, Eq)]
pub enum Stage {
    Fetch,
    Decode,
    Execute,
    Write,
    Commit,
}

// Their numbers, as places in a list of times: stage g of instruction i is node 5 i + g.
pub const IF: usize = Stage::Fetch as usize;

pub const ID: usize = Stage::Decode as usize;

pub const EX: usize = Stage::Execute as usize;

pub const WB: usize = Stage::Write as usize;

pub const CM: usize = Stage::Commit as usize;

// How long a fetch takes.
pub const FETCH: u8 = 1;

// The header's numbers, as indices.
#[derive(Clone, Copy)]
pub struct Shape {
    pub n: usize,
    pub q: usize,
    pub w: usize,
    pub f: usize,
    pub d: usize,
    pub c: usize,
}

// An instruction: its unit kind, its lowest and highest latency, and its two sources, the instructions that write what it
// reads. A source is one more than its number, or 0 where there is none: that number is the row of a table whose row 0
// stands for none.
#[derive(Clone, Copy, Default)]
pub struct Instruction {
    pub kind: u8,
    pub low: u8,
    pub high: u8,
    pub first: u8,
    pub second: u8,
}
