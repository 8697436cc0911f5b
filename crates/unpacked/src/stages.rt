// The stage of a node; and the ready time of each stage, from the starts of the nodes before it.
ghost use Rattle.std.specs.Prelude.{◌≡◌, ◌%◌, ◌≤◌, ◌<◌, eqb};
ghost use Rattle.lists.specs.Lists.{pick};
ghost use Rattle.model.specs.Nodes.{IF, EX};
ghost use Rattle.unpacked.specs.inside.StageNumbers.{number};
ghost use Rattle.unpacked.specs.inside.ReadyByStage.{finish_back, start_back, finish_source, ready_if, ready_id, ready_ex, ready_cm};

use crate::{CM, EX, FETCH, ID, IF, Shape, Stage, WB};

// The stage of node v. Read from a list, it would make the window table slower by 4 in 100.
pub fn stage_of(v: usize) -> Stage
    ensures { number result ≡ v % 5 }
{
    match v % 5 {
        IF => Stage::Fetch,
        ID => Stage::Decode,
        EX => Stage::Execute,
        WB => Stage::Write,
        _ => Stage::Commit,
    }
}

// The latency of stage g, f being that of its instruction's fetch and x that of its EX. It takes any
// number, so that it asks nothing of its callers; a `Stage` would ask for one of five.
pub fn latency_of(g: usize, f: u8, x: u8) -> u32
    ensures { (result ≡ pick (eqb g EX) x (pick (eqb g IF) f 1)) × (result ≤ 255) }
{
    match g {
        EX => u32::from(x),
        IF => u32::from(f),
        _ => 1,
    }
}

#[tactic(auto, unfolding(crate::specs::inside::ReadyByStage::finish_back))]
fn finish_back(s: &[u16; 300], g: usize, l: u8, k: usize, i: usize) -> u32
    requires { (g < 5) × (i < 60) }
    ensures { (result ≡ finish_back s.now g l k i) × (result ≤ 65790) }
{
    if k <= i {
        u32::from(s[5 * (i - k) + g]) + u32::from(l)
    } else {
        0
    }
}

#[tactic(auto, unfolding(crate::specs::inside::ReadyByStage::start_back))]
fn start_back(s: &[u16; 300], g: usize, i: usize) -> u32
    requires { (g < 5) × (i < 60) }
    ensures { (result ≡ start_back s.now g i) × (result ≤ 65536) }
{
    if 1 <= i {
        u32::from(s[5 * (i - 1) + g])
    } else {
        0
    }
}

#[tactic(auto, unfolding(crate::specs::inside::ReadyByStage::finish_source))]
fn finish_source(s: &[u16; 300], x: u8) -> u32
    requires { x ≤ 60 }
    ensures { (result ≡ finish_source s.now x) × (result ≤ 65536) }
{
    if 0 < x {
        let j = usize::from(x - 1);
        u32::from(s[5 * j + WB]) + 1
    } else {
        0
    }
}

#[tactic(auto, unfolding(crate::specs::inside::ReadyByStage::ready_if))]
pub fn ready_if(h: Shape, s: &[u16; 300], i: usize) -> u32
    requires { i < 60 }
    ensures { (result ≡ ready_if h.q h.f s.now i) × (result ≤ 65790) }
{
    let x = finish_back(s, ID, 1, h.q, i).max(finish_back(s, IF, FETCH, h.f, i));
    x.max(start_back(s, IF, i))
}

pub fn ready_id(h: Shape, s: &[u16; 300], i: usize) -> u32
    requires { i < 60 }
    ensures { (result ≡ ready_id h.w h.d s.now i) × (result ≤ 65790) }
{
    let x = finish_back(s, CM, 1, h.w, i).max(finish_back(s, ID, 1, h.d, i));
    let y = (u32::from(s[5 * i]) + u32::from(FETCH)).max(x);
    y.max(start_back(s, ID, i))
}

#[tactic(auto, unfolding(crate::specs::inside::ReadyByStage::ready_ex))]
pub fn ready_ex(x: u8, y: u8, s: &[u16; 300], i: usize) -> u32
    requires { (i < 60) × (x ≤ 60) × (y ≤ 60) }
    ensures { (result ≡ ready_ex x y s.now i) × (result ≤ 65536) }
{
    let z = finish_source(s, x).max(finish_source(s, y));
    (u32::from(s[5 * i + ID]) + 1).max(z)
}

#[tactic(auto, unfolding(crate::specs::inside::ReadyByStage::ready_cm))]
pub fn ready_cm(h: Shape, s: &[u16; 300], i: usize) -> u32
    requires { i < 60 }
    ensures { (result ≡ ready_cm h.c s.now i) × (result ≤ 65790) }
{
    let x = (u32::from(s[5 * i + WB]) + 1).max(finish_back(s, CM, 1, h.c, i));
    x.max(start_back(s, CM, i))
}
