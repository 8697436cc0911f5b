// What is off EX: it follows from what is noted.
ghost use Rattle.std.specs.Prelude.{◌≡◌, ℕ, ◌≤◌, ◌<◌, length, ltb};
ghost use Rattle.lists.specs.Lists.{pick};
ghost use Rattle.record.specs.declared.Block.{Block};
ghost use Rattle.model.specs.Cycles.{units};
ghost use Rattle.choices.specs.inside.NoteSteps.{never, UnitsFree, fetch_of, decoded_of, decoded_into, committed_into};
ghost use Rattle.choices.specs.inside.PlayNotes.{FirstNotes, DecodesUntil};

use crate::play_block::PlayBlock;
use crate::{NEVER, PAD, PlayNotes, UnitTimes};
use unpacked::time;

// How long a fetch takes.
const FETCH_CYCLES: u32 = 1;

// How many units of a kind there are.
const UNITS: usize = 1;

// The number of a unit before the play: free, or, where the kind has no such unit, never free.
fn free_from(z: usize) -> u16
    ensures { (b : Block) (k : ℕ) → result ≡ pick (ltb z (units b k)) 0 never }
{
    if z < UNITS { 0 } else { NEVER }
}

// All units of a kind free.
fn units_free() -> UnitTimes
    ensures { UnitsFree result }
{
    UnitTimes {
        first: free_from(0),
        second: free_from(1),
        third: free_from(2),
        fourth: free_from(3),
    }
}

// The notes before the play.
pub fn first_notes() -> PlayNotes
    ensures { FirstNotes result }
{
    let mut written = [NEVER; 61];
    written[0] = 0;
    PlayNotes {
        written,
        waiting: [0; 60],
        units: [units_free(); 4],
        fetch: [0; 92],
        fetched: [0; 92],
        decoded: [0; 92],
        committed: [0; 92],
    }
}

// The start of IF of instruction i.
#[tactic(auto, unfolding(crate::specs::inside::NoteSteps::fetch_of))]
fn fetch_of(p: &PlayBlock, i: usize, x: &PlayNotes) -> u32
    requires { i < 60 }
    ensures { (result ≡ fetch_of p.now.shape i x.now) × (result ≤ 65535) }
{
    let both = x.decoded[PAD + i - p.shape.q].max(x.fetched[PAD + i - p.shape.f]);
    u32::from(both.max(x.fetch[PAD + i - 1]))
}

// The finish of ID of instruction i, whose IF finishes at `fetched`.
fn decoded_of(p: &PlayBlock, i: usize, fetched: u32, x: &PlayNotes) -> u32
    requires { (i < 60) × (fetched ≤ 65790) }
    ensures { result ≡ decoded_of p.now.shape i fetched x.now }
{
    let room = x.committed[PAD + i - p.shape.w].max(x.decoded[PAD + i - p.shape.d]);
    let s = fetched.max(u32::from(room));
    (s + 1).max(u32::from(x.decoded[PAD + i - 1]))
}

// IF and ID of instruction i, whose fetch takes l.
fn decode_one(p: &PlayBlock, l: u32, i: usize, x: &mut PlayNotes)
    requires { (i < 60) × (l ≤ 255) }
    ensures { x.new ≡ decoded_into p.now.shape l i x.old }
{
    let fetch = fetch_of(p, i, x);
    let fetched = fetch + l;
    let decoded = decoded_of(p, i, fetched, x);
    x.fetch[PAD + i] = time(fetch);
    x.fetched[PAD + i] = time(fetched);
    x.decoded[PAD + i] = time(decoded);
    x.waiting[i] = time(decoded);
}

// IF and ID of the instructions from `from` on and below `end`.
pub fn decode_until(p: &PlayBlock, from: usize, end: usize, x: &mut PlayNotes)
    requires { end ≤ 60 }
    ensures { DecodesUntil p.now.shape from end x.old x.new }
{
    for i in from..end {
        decode_one(p, FETCH_CYCLES, i, x);
    }
}

// CM of instruction i.
pub fn commit_one(p: &PlayBlock, i: usize, x: &mut PlayNotes)
    requires { i < 60 }
    ensures { x.new ≡ committed_into p.now.shape i x.old }
{
    let s = u32::from(x.written[i + 1].max(x.committed[PAD + i - p.shape.c]));
    x.committed[PAD + i] = time((s + 1).max(u32::from(x.committed[PAD + i - 1])));
}
