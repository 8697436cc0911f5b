// The two operations: tests 4, 5 and 6, then the result record or the window table; and what an analysis says beside the
// windows. A block is unpacked once, and goes on from there.
ghost use Rattle.std.specs.Prelude.{◌≡◌, ◌++◌, ◌+◌, ◌-◌, ◌*◌, ◌≤◌, ◌<◌, length, drop};
ghost use Rattle.record.specs.Refusals.{block_verdict};
ghost use Rattle.model.specs.Cycles.{start};
ghost use Rattle.model.specs.Rounds.{window_numbers, window_table};
ghost use Rattle.unpacked.specs.inside.UnpackedBlock.{Unpacked};
ghost use Rattle.rounds.specs.inside.BlockTimes.{Unpacks};
ghost use Rattle.analysis.specs.Result.{result_record, summary_of};
ghost use Rattle.analysis.specs.Promises.{Analyses, WritesWindows};
ghost use Rattle.analysis.specs.inside.OutputSteps.{Analysed, Summarised};

use crate::Summary;
use crate::outputs::{put_result, put_table};
use pairs::Times;
use record::{Block, Reason};
use rounds::Counts;
use unpacked::UnpackedBlock;

// The times before they are worked out.
const NO_TIMES: Times = Times {
    early: [0; 300],
    late: [0; 300],
};

// The earliest and the latest starts, and the counts.
fn times_into(v: &UnpackedBlock, times: &mut Times) -> Counts
    requires { Unpacks v.now }
    ensures { Analysed v.now times.new result }
{
    rounds::earliest_into(v, &mut times.early);
    rounds::refine(v, times)
}

// The bound: the latest finish of the last node of n instructions.
fn bound_of(n: usize, late: &[u16; 300]) -> u16
    requires { (1 ≤ n) × (n ≤ 60) × (start late.now (5 * n - 1) < 65535) }
    ensures { result ≡ start late.now (5 * n - 1) + 1 }
{
    late[5 * n - 1] + 1
}

// What an analysis says, from its parts.
fn summary_from(n: u8, origin: u8, number: u32, bound: u16, counts: Counts) -> Summary
    requires { (counts.rounds ≤ 65535) × (counts.pairs ≤ 65535) × (counts.apart ≤ 65535) }
    ensures copied { (result.n ≡ n) × (result.origin ≡ origin) × (result.bound ≡ bound) × (result.number ≡ number) }
    ensures counted { (result.rounds ≡ counts.rounds) × (result.pairs ≡ counts.pairs) × (result.apart ≡ counts.apart) }
{
    Summary {
        n,
        origin,
        bound,
        number,
        rounds: counts.rounds as u16,
        pairs: counts.pairs as u16,
        apart: counts.apart as u16,
    }
}

// The times of an accepted block that was unpacked, and what its analysis says beside its windows.
fn summary_into(b: Block, v: &UnpackedBlock, times: &mut Times) -> Summary
    requires { Unpacked b v.now.shape v.now.instructions }
    ensures { Summarised b times.new result }
{
    let counts = times_into(v, times);
    let bound = bound_of(v.shape.n, &times.late);
    summary_from(b.n, b.origin, b.number, bound, counts)
}

// What the analysis of an accepted block says beside its windows.
pub fn summary_of(b: Block) -> Summary
    requires { block_verdict b ≡ (0, 0) }
    ensures { result ≡ summary_of b }
{
    let v = unpacked::unpacked_of(b);
    let mut times = NO_TIMES;
    summary_into(b, &v, &mut times)
}

fn result_into(b: Block, out: &mut [u8])
    requires { (block_verdict b ≡ (0, 0)) × (length out.old ≡ 512) }
    ensures { out.new ≡ result_record b }
{
    let v = unpacked::unpacked_of(b);
    let mut times = NO_TIMES;
    let s = summary_into(b, &v, &mut times);
    put_result(s, &v.instructions, &times, out);
}

fn table_into(b: Block, out: &mut [u16])
    requires { (block_verdict b ≡ (0, 0)) × (window_numbers b ≤ length out.old) }
    ensures { out.new ≡ window_table b ++ drop (window_numbers b) out.old }
{
    let v = unpacked::unpacked_of(b);
    let mut times = NO_TIMES;
    times_into(&v, &mut times);
    put_table(&v, &times, out);
}

// Writes the result record of a block to an output of 512 bytes.
pub fn analyse(b: Block, out: &mut [u8]) -> Result<(), Reason>
    ensures { Analyses b out.old result out.new }
{
    writer::block_answer(b)?;
    if out.len() != 512 {
        return Err(Reason::Output);
    }
    result_into(b, out);
    Ok(())
}

// Writes the window table of a block to an output of at least 30 n numbers.
pub fn windows(b: Block, out: &mut [u16]) -> Result<(), Reason>
    ensures { WritesWindows b out.old result out.new }
{
    writer::block_answer(b)?;
    let need = 30 * usize::from(b.n);
    if out.len() < need {
        return Err(Reason::Output);
    }
    table_into(b, out);
    Ok(())
}
