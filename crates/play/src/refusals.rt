// Tests 6 to 9.
ghost use Rattle.std.specs.Prelude.{◌≡◌, ◌||◌, ◌∷◌, ◌≤◌, ◌<◌, length, leb, ltb, MatchOption};
ghost use Rattle.record.specs.Refusals.{meaning, verdict, output_test};
ghost use Rattle.record.specs.declared.Block.{Block};
ghost use Rattle.model.specs.Cycles.{unfit, play_numbers};
ghost use Rattle.play.specs.Refusals.{list_tests};
ghost use Rattle.play.specs.Promises.{state_of};
ghost use Rattle.play.specs.inside.LatencyFault.{WrongAt};
ghost use Rattle.play.specs.inside.StartTest.{unfit_at};

use crate::PlayState;
use record::{Block, Entry, Reason};

// The last cycle number that a state may have.
const LAST_CYCLE: u16 = 30779;

fn is_wrong(l: u8, e: Entry) -> bool
    ensures { result ≡ (ltb l e.lo || ltb e.hi l) }
{
    l < e.lo || e.hi < l
}

// The first instruction whose latency is outside its lo to hi.
fn latency_fault(b: Block, lat: &[u8]) -> Option<usize>
    requires { (b.n ≤ 60) × (length lat.now ≡ b.n) }
    ensures { MatchOption result (WrongAt b lat.now b.n) (λ i. WrongAt b lat.now i × (i < b.n)) }
{
    lat.iter()
        .zip(&b.entries)
        .position(|(l, e)| is_wrong(*l, *e))
}

// Tests 6, 7 and 8, of an output with room for so many numbers.
pub fn lent_answer(b: Block, lat: &[u8], room: usize) -> Result<(), Reason>
    requires { b.n ≤ 60 }
    ensures { meaning result ≡ verdict (output_test (leb (play_numbers b) room) ∷ list_tests b lat.now) }
{
    let n = usize::from(b.n);
    let need = 15 * n;
    if room < need {
        return Err(Reason::Output);
    }
    if lat.len() != n {
        return Err(Reason::Latencies);
    }
    match latency_fault(b, lat) {
        Some(i) => Err(Reason::Latency(i)),
        None => Ok(()),
    }
}

// A start that a state in cycle t may not have at node v, the nodes ending at `end`.
fn is_unfit(t: u16, end: usize, v: usize, x: u16) -> bool
    ensures { result ≡ unfit_at t end v x }
{
    if x == 65535 {
        return false;
    }
    if x < t { v >= end } else { true }
}

// Test 9.
pub fn unfit_state(n: usize, p: PlayState) -> bool
    requires { n ≤ 60 }
    ensures { (b : Block) → n ≡ b.n → result ≡ unfit b (state_of p) }
{
    let end = 5 * n;
    if p.t > LAST_CYCLE {
        return true;
    }
    p.starts
        .iter()
        .enumerate()
        .any(|(v, x)| is_unfit(p.t, end, v, *x))
}
