// The whole play by choice: the EX starts are fixed one by one, and what is off EX follows. No cycle is counted.
#![tactic(auto)]

ghost use Rattle.std.specs.Prelude.{◌≤◌};

mod choosing;
mod notes;
mod play_block;
mod rows;
mod table;

pub use table::table_into;

// Not known yet: a number above every time.
pub const NEVER: u16 = 65535;

// The zeros before the times of a stage: no number of a header leads back over them.
pub const PAD: usize = 32;

// Until when each of a kind's four units is held, rising.
#[derive(Clone, Copy)]
pub struct UnitTimes {
    pub first: u16,
    pub second: u16,
    pub third: u16,
    pub fourth: u16,
}

// The notes of a play: the finish of WB by place, 0 at place 0, which stands for no source; by instruction the finish of ID,
// until EX has a start; the times of the units by kind; and by instruction, each after the zeros, the starts of IF, its
// finishes, those of ID and of CM. The block is lent beside them and not kept in them, so that no contract has to say that it
// stays as it is; and each array is filled at its own pace, so that they are not one array of rows.
#[derive(Clone, Copy)]
pub struct PlayNotes {
    pub written: [u16; 61],
    pub waiting: [u16; 60],
    pub units: [UnitTimes; 4],
    pub fetch: [u16; 92],
    pub fetched: [u16; 92],
    pub decoded: [u16; 92],
    pub committed: [u16; 92],
}

// What the play asks of an instruction: its kind, its latency and its two sources, each by its place in the notes. That is one
// more than its number, or 0 for none, since 0 stands at place 0.
#[derive(Clone, Copy)]
pub struct Row {
    pub kind: u8,
    pub latency: u8,
    pub first: u8,
    pub second: u8,
    ghost sources: { (first ≤ 60) × (second ≤ 60) },
}

// An instruction, and when its EX starts.
#[derive(Clone, Copy)]
pub struct Choice {
    pub at: usize,
    pub start: u32,
}
