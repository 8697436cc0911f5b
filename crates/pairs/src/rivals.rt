// The rows of pairs that are not known to be apart: the later ones of each instruction, the scan for a new pair apart, and
// the rows that are left.
ghost use Rattle.std.specs.Prelude.{◌≡◌, ◌≤◌, ◌<◌, length};
ghost use Rattle.pairs.specs.inside.RowNumbers.{Inside};
ghost use Rattle.pairs.specs.inside.PairRows.{those_of, pair_total, finish_ex, apart_ex};
ghost use Rattle.pairs.specs.inside.RowSteps.{Raised, LaterOnes, first_apart, stays, RowsKept};

use crate::{Row, Times};
use std::ops::Range;
use unpacked::{EX, Instruction};

// One instruction of highest latency x, later than each of its row.
fn later_row(x: u8, row: &[u8], most: &mut [u8; 60])
    requires { Inside row.now }
    ensures { Raised x row.now most.old most.new }
{
    for i in row {
        let i = usize::from(*i);
        most[i] = most[i].max(x);
    }
}

// For each instruction the largest highest latency of the later ones, 0 where there are none.
pub fn later_of(n: usize, u: &[Instruction; 60], rows: &[Row; 60]) -> [u8; 60]
    requires { n ≤ 60 }
    ensures { LaterOnes n u.now rows.now result }
{
    let mut most = [0u8; 60];
    for j in 0..n {
        later_row(u[j].high, rows[j].those(), &mut most);
    }
    most
}

// The latest finish of EX(i).
#[tactic(auto, unfolding(crate::specs::inside::PairRows::finish_ex))]
pub fn finish_ex(u: &[Instruction; 60], s: &[u16; 300], i: usize) -> u32
    requires { i < 60 }
    ensures { (result ≡ finish_ex u.now s.now i) × (result ≤ 65790) }
{
    let high = u32::from(u[i].high);
    u32::from(s[5 * i + EX]) + high
}

// Whether i and j are apart.
fn apart_at(u: &[Instruction; 60], times: &Times, i: usize, j: usize) -> bool
    requires { (i < 60) × (j < 60) }
    ensures { result ≡ apart_ex u.now times.now.early times.now.late i j }
{
    let x = finish_ex(u, &times.late, i);
    let y = finish_ex(u, &times.late, j);
    (x <= u32::from(times.early[5 * j + EX])) | (y <= u32::from(times.early[5 * i + EX]))
}

// The first instruction whose row has one that is apart from it, or n.
pub fn first_apart(n: usize, u: &[Instruction; 60], times: &Times, rows: &[Row; 60]) -> usize
    requires { n ≤ 60 }
    ensures { result ≡ first_apart n u.now times.now.early times.now.late rows.now }
{
    let mut at = n;
    'scan: for j in 0..n {
        for i in rows[j].those() {
            if apart_at(u, times, j, usize::from(*i)) {
                at = j;
                break 'scan;
            }
        }
    }
    at
}

// Those of j's row that are not apart from it, moved to its front.
fn keep_row(u: &[Instruction; 60], times: &Times, j: usize, row: &mut Row)
    requires { j < 60 }
    ensures { those_of row.new ≡ stays u.now times.now.early times.now.late j (those_of row.old) }
{
    let end = row.len;
    let mut len = 0;
    for k in 0..end {
        let i = row.numbers[k];
        let t = apart_at(u, times, j, usize::from(i));
        row.numbers[len] = i;
        len += usize::from(!t);
    }
    row.len = len;
}

// The rows of these instructions without those that are apart from their instruction.
pub fn keep_rows(these: Range<usize>, u: &[Instruction; 60], times: &Times, rows: &mut [Row; 60])
    requires { (these.start ≤ these.end) × (these.end ≤ 60) }
    ensures { RowsKept these.start these.end u.now times.now.early times.now.late rows.old rows.new }
{
    for j in these {
        keep_row(u, times, j, &mut rows[j]);
    }
}

// How many pairs the rows have.
pub fn pairs_of(n: usize, rows: &[Row; 60]) -> usize
    requires { n ≤ 60 }
    ensures { (result ≡ pair_total n rows.now) × (result ≤ 3600) }
{
    let mut sum = 0;
    for row in &rows[..n] {
        sum += row.len();
    }
    sum
}
