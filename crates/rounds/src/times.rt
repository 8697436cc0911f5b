// Times: the earliest starts, and one round's latest starts, instruction by instruction.
ghost use Rattle.std.specs.Prelude.{◌≡◌, map, ◌+◌, ◌-◌, ◌≤◌, ◌<◌, max, length};
ghost use Rattle.lists.specs.Sums.{largest, sum};
ghost use Rattle.unpacked.specs.inside.UnpackedBlock.{high_of};
ghost use Rattle.pairs.specs.inside.RowNumbers.{Inside};
ghost use Rattle.pairs.specs.inside.PairRows.{finish_ex};
ghost use Rattle.rounds.specs.inside.FiveStarts.{fetched, committed, latest_of};
ghost use Rattle.rounds.specs.inside.BlockTimes.{EarliestTimes, RoundTimes};

use pairs::{Row, finish_ex, later_of};
use unpacked::{CM, EX, ID, Instruction, Shape, UnpackedBlock, WB, time};

// IF and ID of instruction i.
fn fetch_into(h: Shape, s: &mut [u16; 300], i: usize)
    requires { i < 60 }
    ensures { s.new ≡ fetched h.q h.f h.w h.d s.old i }
{
    let a = unpacked::ready_if(h, s, i);
    s[5 * i] = time(a);
    let b = unpacked::ready_id(h, s, i);
    s[5 * i + ID] = time(b);
}

// EX, WB and CM of instruction i, whose EX starts at x and takes l.
fn commit_into(h: Shape, l: u8, x: u32, s: &mut [u16; 300], i: usize)
    requires { (i < 60) × (x ≤ 1000000) }
    ensures { s.new ≡ committed h.c l x s.old i }
{
    s[5 * i + EX] = time(x);
    s[5 * i + WB] = time(x + u32::from(l));
    let c = unpacked::ready_cm(h, s, i);
    s[5 * i + CM] = time(c);
}

// The earliest starts.
pub fn earliest_into(v: &UnpackedBlock, s: &mut [u16; 300])
    ensures { EarliestTimes v.now s.new }
{
    let n = v.shape.n;
    for i in 0..n {
        let e = v.instructions[i];
        fetch_into(v.shape, s, i);
        let r = unpacked::ready_ex(e.first, e.second, s, i);
        commit_into(v.shape, e.low, r, s, i);
    }
}

// The sum of the highest latencies of a row.
fn sum_of(u: &[Instruction; 60], row: &[u8]) -> u32
    requires { (length row.now ≤ 60) × Inside row.now }
    ensures { (result ≡ sum (map (high_of u.now) row.now)) × (result ≤ 15300) }
{
    let mut sum = 0;
    for i in row {
        let e = &u[usize::from(*i)];
        sum += u32::from(e.high);
    }
    sum
}

// The largest latest finish of a row.
fn last_of(u: &[Instruction; 60], s: &[u16; 300], row: &[u8]) -> u32
    requires { Inside row.now }
    ensures { (result ≡ largest (map (finish_ex u.now s.now) row.now)) × (result ≤ 65790) }
{
    let mut last: u32 = 0;
    for i in row {
        last = last.max(finish_ex(u, s, usize::from(*i)));
    }
    last
}

// B: most is the largest latency of the later ones, 0 where there are none.
fn b_of(r: u32, most: u8) -> u32
    requires { r ≤ 65536 }
    ensures { (result ≡ r + (max most 1 - 1)) × (result ≤ 66000) }
{
    r + u32::from(most.saturating_sub(1))
}

// The latest start of an EX that is ready at r: row has its earlier ones.
#[tactic(auto, unfolding(crate::specs::inside::FiveStarts::latest_of))]
fn latest_of(u: &[Instruction; 60], s: &[u16; 300], row: &[u8], most: u8, r: u32) -> u32
    requires { (length row.now ≤ 60) × Inside row.now × (r ≤ 65536) }
    ensures { (result ≡ latest_of u.now s.now row.now most r) × (result ≤ 1000000) }
{
    let b = b_of(r, most);
    let in_turn = b + sum_of(u, row);
    let at_last = b.max(last_of(u, s, row));
    in_turn.min(at_last)
}

// One round: the latest starts, the rows having the pairs that are not known to be apart.
pub fn round_into(v: &UnpackedBlock, rows: &[Row; 60], s: &mut [u16; 300])
    ensures { RoundTimes v.now rows.now s.new }
{
    let n = v.shape.n;
    let u = &v.instructions;
    let most = later_of(n, u, rows);
    for i in 0..n {
        let e = u[i];
        fetch_into(v.shape, s, i);
        let r = unpacked::ready_ex(e.first, e.second, s, i);
        let x = latest_of(u, s, rows[i].those(), most[i], r);
        commit_into(v.shape, e.high, x, s, i);
    }
}
