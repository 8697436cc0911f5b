// The operations: one cycle, the play table, the length of a play.
ghost use Rattle.std.specs.Prelude.{◌≡◌, false};
ghost use Rattle.record.specs.Refusals.{meaning, block_verdict, verdict};
ghost use Rattle.record.specs.Promises.{Whole};
ghost use Rattle.model.specs.Nodes.{chosen};
ghost use Rattle.model.specs.Cycles.{first_state, cycle, unfit};
ghost use Rattle.play.specs.Refusals.{list_tests, length_tests, cycle_tests};
ghost use Rattle.play.specs.Promises.{state_of, PlaysCycle, Plays, GivesPlayLength};

use crate::refusals::{lent_answer, unfit_state};
use crate::{PlayState, RefusedCycle};
use choices::table_into;
use cycles::cycle_into;
use record::{Block, Reason};

// The state after a cycle.
fn next_state(b: Block, lat: &[u8], p: PlayState) -> PlayState
    requires { (block_verdict b ≡ (0, 0)) × (verdict (list_tests b lat.now) ≡ (0, 0)) × (unfit b (state_of p) ≡ false) }
    ensures { state_of result ≡ cycle b (chosen b lat.now) (state_of p) }
{
    let u = unpacked::unpacked_of(b);
    let mut s = p.starts;
    cycle_into(&u, lat, u32::from(p.t), &mut s);
    PlayState {
        t: p.t + 1,
        starts: s,
    }
}

// Writes the play table of a block under the latencies of a list to an output of at least 15 n numbers.
pub fn play(b: Block, lat: &[u8], out: &mut [u16]) -> Result<(), Reason>
    ensures { Plays b lat.now out.old result out.new }
{
    writer::block_answer(b)?;
    lent_answer(b, lat, out.len())?;
    table_into(b, lat, out);
    Ok(())
}

// Tests 4, 5, 7 and 8. There is no output: test 6 is given room enough for every block, 900 numbers.
fn both_answer(b: Block, lat: &[u8]) -> Result<(), Reason>
    ensures { (meaning result ≡ verdict (length_tests b lat.now)) × Whole b }
{
    writer::block_answer(b)?;
    lent_answer(b, lat, 900)
}

// The length of the play of a block under the latencies of a list: the last number of its table.
pub fn play_length(b: Block, lat: &[u8]) -> Result<u16, Reason>
    ensures { GivesPlayLength b lat.now result }
{
    both_answer(b, lat)?;
    let mut out = [0u16; 900];
    table_into(b, lat, &mut out);
    let last = 15 * usize::from(b.n) - 1;
    Ok(out[last])
}

// The tests of a cycle: those of the length, then 9.
fn cycle_answer(b: Block, lat: &[u8], p: PlayState) -> Result<(), Reason>
    ensures { (meaning result ≡ verdict (cycle_tests b lat.now (state_of p))) × Whole b }
{
    both_answer(b, lat)?;
    if unfit_state(usize::from(b.n), p) {
        return Err(Reason::State);
    }
    Ok(())
}

impl PlayState {
    // The state in which a play begins: cycle 0, nothing started.
    pub fn first() -> PlayState
        ensures { state_of result ≡ first_state }
    {
        PlayState {
            t: 0,
            starts: [65535; 300],
        }
    }

    // One cycle of play: the state goes in, and the next comes back. A refused cycle gives back the state it got.
    pub fn cycle(self, b: Block, lat: &[u8]) -> Result<PlayState, RefusedCycle>
        ensures { PlaysCycle b lat.now self result }
    {
        match cycle_answer(b, lat, self) {
            Ok(()) => Ok(next_state(b, lat, self)),
            Err(reason) => Err(RefusedCycle {
                reason,
                state: self,
            }),
        }
    }
}
