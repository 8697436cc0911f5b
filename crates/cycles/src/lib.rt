// One cycle of play: one node in one cycle, and one cycle node by node.
#![tactic(auto)]

ghost use Rattle.std.specs.Prelude.{◌≡◌, ◌+◌, ◌/◌, ◌≤◌, ◌<◌, max, length, eqb};
ghost use Rattle.lists.specs.Lists.{pick};
ghost use Rattle.model.specs.Cycles.{most_cycles};
ghost use Rattle.unpacked.specs.inside.StageNumbers.{number};
ghost use Rattle.cycles.specs.inside.NodeTurn.{stage_ready, from_when, ended, node_of, Turned};
ghost use Rattle.cycles.specs.inside.PlayFacts.{Lent, Turns, UnitEnds, CyclePlayed};

use unpacked::{EX, Stage, UnpackedBlock, stage_of, time};

// A turn: that of stage g of instruction i in cycle t.
#[derive(Clone, Copy)]
pub struct Turn {
    pub t: u32,
    pub i: usize,
    pub g: Stage,
}

// The ready time of stage g of instruction i. Block and latencies are lent side by side here and below: a struct of both
// references would only make each clause name them through it.
#[tactic(auto, unfolding(crate::specs::inside::NodeTurn::stage_ready))]
fn stage_ready(u: &UnpackedBlock, lat: &[u8], s: &[u16; 300], i: usize, g: Stage) -> u32
    requires { (i < u.now.shape.n) × Lent u.now lat.now s.now }
    ensures { (result ≡ stage_ready u.now lat.now s.now i (number g)) × (result ≤ 65790) }
{
    match g {
        Stage::Fetch => unpacked::ready_if(u.shape, s, i),
        Stage::Decode => unpacked::ready_id(u.shape, s, i),
        Stage::Execute => {
            let one = u.instructions[i];
            unpacked::ready_ex(one.first, one.second, s, i)
        }
        Stage::Write => u32::from(s[5 * i + EX]) + u32::from(lat[i]),
        Stage::Commit => unpacked::ready_cm(u.shape, s, i),
    }
}

// From when on stage g can start: r is its ready time, and e is when its unit is free.
#[tactic(auto, unfolding(crate::specs::inside::NodeTurn::from_when))]
fn from_when(g: Stage, r: u32, e: u32) -> u32
    ensures { result ≡ from_when (number g) r e }
{
    if g == Stage::Execute { r.max(e) } else { r }
}

// When an EX that starts at t and takes l has finished, so that its unit is free.
fn until(t: u32, l: u8) -> u32
    requires { t < 65536 }
    ensures { result ≡ t + l }
{
    t + u32::from(l)
}

// Notes until when the unit of kind k is held, stage g having started at t.
#[tactic(auto, unfolding(crate::specs::inside::NodeTurn::ended))]
fn hold(g: Stage, k: usize, l: u8, t: u32, ends: &mut [u32; 4])
    requires { (t < 65536) × (k < 4) }
    ensures { ends.new ≡ ended ends.old (number g) k l t }
{
    if g == Stage::Execute {
        ends[k] = until(t, l);
    }
}

// The node of a turn.
fn node_of(x: Turn) -> usize
    requires { x.i < 60 }
    ensures { result ≡ node_of x }
{
    5 * x.i + x.g as usize
}

// One turn.
fn node_turn(u: &UnpackedBlock, lat: &[u8], x: Turn, s: &mut [u16; 300], ends: &mut [u32; 4])
    requires { Turns u.now x × Lent u.now lat.now s.old }
    ensures { Turned u.now lat.now x s.old ends.old s.new ends.new }
{
    let i = x.i;
    let v = node_of(x);
    if s[v] == 65535 {
        let k = usize::from(u.instructions[i].kind);
        let r = stage_ready(u, lat, s, i, x.g);
        if from_when(x.g, r, ends[k]) <= x.t {
            s[v] = time(x.t);
            hold(x.g, k, lat[i], x.t, ends);
        }
    }
}

fn later_end(x: u16, l: u8, e: u32) -> u32
    ensures { result ≡ pick (eqb x 65535) e (max e (x + l)) }
{
    if x == 65535 {
        e
    } else {
        e.max(until(u32::from(x), l))
    }
}

// From when on each kind's unit is free, in a cycle after all starts.
fn unit_ends(u: &UnpackedBlock, lat: &[u8], s: &[u16; 300]) -> [u32; 4]
    requires { length lat.now ≡ u.now.shape.n }
    ensures { UnitEnds u.now.shape.n u.now.instructions lat.now s.now result }
{
    let mut ends = [0u32; 4];
    for (i, l) in lat.iter().enumerate() {
        let k = usize::from(u.instructions[i].kind);
        ends[k] = later_end(s[5 * i + EX], *l, ends[k]);
    }
    ends
}

// The instruction of node v.
fn instruction_of(v: usize) -> usize
    requires { v < 300 }
    ensures { result ≡ v / 5 }
{
    v / 5
}

// Cycle t from any state, node by node.
pub fn cycle_into(u: &UnpackedBlock, lat: &[u8], t: u32, s: &mut [u16; 300])
    requires { (t < most_cycles) × Lent u.now lat.now s.old }
    ensures { CyclePlayed u.now lat.now t s.old s.new }
{
    let mut ends = unit_ends(u, lat, s);
    let end = 5 * u.shape.n;
    for v in 0..end {
        let x = Turn {
            t,
            i: instruction_of(v),
            g: stage_of(v),
        };
        node_turn(u, lat, x, s, &mut ends);
    }
}
