// The pairs of a block's instructions that may wait for each other's unit: for each instruction a row of those before it.
#![tactic(auto)]

mod contenders;
mod rivals;
mod row;

pub use contenders::contenders_into;
pub use rivals::{finish_ex, first_apart, keep_rows, later_of, pairs_of};
pub use row::Row;

// The starts of the nodes, in node order: the earliest and the latest.
#[derive(Clone, Copy)]
pub struct Times {
    pub early: [u16; 300],
    pub late: [u16; 300],
}
