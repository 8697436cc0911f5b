// EX: its starts are fixed one by one.
ghost use Rattle.std.specs.Prelude.{◌≡◌, ◌≤◌, ◌<◌, min, ltb};
ghost use Rattle.lists.specs.Lists.{pick};
ghost use Rattle.choices.specs.inside.InstructionRows.{Span};
ghost use Rattle.choices.specs.inside.NoteSteps.{never, sources_of, ready_of, end_of, key_of, Soonest, Chooses, held_into, started_into};
ghost use Rattle.choices.specs.inside.PlayNotes.{Underway, StartsUntil};

use crate::play_block::PlayBlock;
use crate::{Choice, NEVER, PAD, PlayNotes, UnitTimes};
use unpacked::time;

// The later finish of the sources of instruction i.
pub fn sources_of(i: usize, p: &PlayBlock, x: &PlayNotes) -> u32
    requires { i < 60 }
    ensures { (result ≡ sources_of p.now.rows x.now i) × (result ≤ 65535) }
{
    let row = p.rows[i];
    let first = usize::from(row.first);
    let second = usize::from(row.second);
    u32::from(x.written[first].max(x.written[second]))
}

// The ready time of EX of instruction i, and NEVER where that is not known or it has a start.
#[tactic(auto, unfolding(crate::specs::inside::NoteSteps::ready_of))]
fn ready_of(i: usize, p: &PlayBlock, x: &PlayNotes) -> u32
    requires { i < 60 }
    ensures { (result ≡ ready_of p.now.rows x.now i) × (result ≤ 65535) }
{
    u32::from(x.waiting[i]).max(sources_of(i, p, x))
}

// From when on a unit of its kind is free.
#[tactic(auto, unfolding(crate::specs::inside::NoteSteps::end_of))]
fn end_of(i: usize, p: &PlayBlock, x: &PlayNotes) -> u32
    requires { i < 60 }
    ensures { (result ≡ end_of p.now.rows x.now i) × (result ≤ 65535) }
{
    let k = usize::from(p.rows[i].kind);
    u32::from(x.units[k].first)
}

// From when on EX of instruction i can start. The maxima are taken two and two: of three in a row the compiler makes branches.
fn key_of(i: usize, p: &PlayBlock, x: &PlayNotes) -> u32
    requires { i < 60 }
    ensures { result ≡ key_of p.now.rows x.now i }
{
    u32::from(x.waiting[i])
        .max(end_of(i, p, x))
        .max(sources_of(i, p, x))
}

// The better of a choice and instruction i, which can start from `key` on and stands after it. Each part is chosen by itself: of
// the whole at once the compiler makes a branch.
fn better(best: Choice, i: usize, key: u32) -> Choice
    ensures { (result.at ≡ pick (ltb key best.start) i best.at) × (result.start ≡ min key best.start) }
{
    Choice {
        at: if key < best.start { i } else { best.at },
        start: key.min(best.start),
    }
}

// The one that can start first, of the instructions from c on and below m: c can from r on.
fn scan(c: usize, m: usize, r: u32, p: &PlayBlock, x: &PlayNotes) -> Choice
    requires { Span c m × (r ≤ never) × (r ≡ key_of p.now.rows x.now c) }
    ensures { Soonest c m p.now.rows x.now result }
{
    let mut best = Choice { at: c, start: r };
    for j in c + 1..m {
        let decoded = u32::from(x.decoded[PAD + j]);
        if best.start <= decoded {
            return best;
        }
        best = better(best, j, key_of(j, p, x));
    }
    best
}

// The next EX to start, that of c being the oldest that has not: c where it is ready by its unit's time, else the one that
// can start first.
fn choose(c: usize, m: usize, p: &PlayBlock, x: &PlayNotes) -> Choice
    requires { Span c m }
    ensures { Chooses c m p.now.rows x.now result }
{
    let r = ready_of(c, p, x);
    let e = end_of(c, p, x);
    let ready = r <= e;
    if ready {
        return Choice { at: c, start: e };
    }
    scan(c, m, r, p, x)
}

// A unit of kind k is held until e: of the four numbers of the kind the least goes.
fn hold(k: usize, e: u32, x: &mut PlayNotes)
    requires { k ≤ 3 }
    ensures { x.new ≡ held_into k e x.old }
{
    let u = x.units[k];
    let p = u32::from(u.second);
    let q = u32::from(u.third);
    let r = u32::from(u.fourth);
    let y = p.max(e);
    let z = q.max(y);
    x.units[k] = UnitTimes {
        first: time(p.min(e)),
        second: time(q.min(y)),
        third: time(r.min(z)),
        fourth: time(r.max(z)),
    };
}

// EX of instruction i, of kind k, starts at t for l cycles.
#[tactic(auto, unfolding(crate::specs::inside::NoteSteps::started_into))]
fn start_one(i: usize, t: u32, k: usize, l: u32, x: &mut PlayNotes)
    requires { (i < 60) × (t ≤ 65535) × (k ≤ 3) × (l ≤ 255) }
    ensures { x.new ≡ started_into i t k l x.old }
{
    let e = t + l;
    x.waiting[i] = NEVER;
    x.written[i + 1] = time(e + 1);
    hold(k, e, x);
}

// EX starts until that of instruction c has one.
pub fn until_started(c: usize, m: usize, p: &PlayBlock, x: &mut PlayNotes)
    requires { Underway c m p.now.rows x.old }
    ensures { StartsUntil c m p.now.rows x.old x.new }
{
    while x.written[c + 1] == NEVER {
        let v = choose(c, m, p, x);
        let row = p.rows[v.at];
        let kind = usize::from(row.kind);
        start_one(v.at, v.start, kind, u32::from(row.latency), x);
    }
}
