// The block record: its value, its rules, its check and its refusals.
#![tactic(auto)]

mod check;
mod reasons;
mod rules;

pub use check::{check_of, four_at, seal};
pub use reasons::{number_of, place_of};
pub use rules::{entry_ok, header_fault};

// The bytes of an entry in its record.
pub const KIND: usize = 0;

pub const LO: usize = 1;

pub const HI: usize = 2;

pub const WRITES: usize = 3;

pub const READS1: usize = 4;

pub const READS2: usize = 5;

pub const ZERO1: usize = 6;

pub const ZERO2: usize = 7;

#[derive(Clone, Copy, Debug, PartialEq, Eq, Default)]
pub struct Entry {
    pub kind: u8,
    pub lo: u8,
    pub hi: u8,
    pub writes: u8,
    pub reads1: u8,
    pub reads2: u8,
}

#[derive(Clone, Copy, Debug, PartialEq, Eq)]
pub struct Block {
    pub n: u8,
    pub q: u8,
    pub w: u8,
    pub f: u8,
    pub d: u8,
    pub c: u8,
    pub origin: u8,
    pub number: u32,
    pub entries: [Entry; 60],
}

// Why an input is refused, for every operation of the bench, with the place where it varies. An operation answers a `Result`:
// what it gives in `Ok`, or, in `Err`, why it refuses.
#[derive(Clone, Copy, Debug, PartialEq, Eq)]
pub enum Reason {
    Length,
    Check,
    Letters,
    Header(usize),
    Rule(usize),
    Output,
    Latencies,
    Latency(usize),
    State,
}
