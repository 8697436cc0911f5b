// The contending pairs, from the chains of registers.
ghost use Rattle.std.specs.Prelude.{◌≡◌, ◌≤◌, ◌<◌};
ghost use Rattle.pairs.specs.inside.PairRows.{those_of};
ghost use Rattle.pairs.specs.inside.RowSteps.{NoneFirst, JoinedRows, ChainRow, ChainsFilled, nearby, ContenderRows};

use crate::Row;
use unpacked::{Instruction, UnpackedBlock};

// Two rows of chains joined, and columns x and y besides.
fn join_rows(first: &[bool; 64], second: &[bool; 64], x: usize, y: usize, row: &mut [bool; 64])
    requires { (x < 64) × (y < 64) }
    ensures { JoinedRows x y first.now second.now row.new }
{
    for k in 0..64 {
        row[k] = first[k] | second[k];
    }
    row[x] = true;
    row[y] = true;
}

// Row j + 1 of the table of chains: those to x and those to y, and x and y. Column i + 1 is for instruction i, row and
// column 0 for none.
fn chain_row(x: usize, y: usize, j: usize, a: &mut [[bool; 64]; 61])
    requires { (j < 60) × (x ≤ j) × (y ≤ j) }
    ensures { ChainRow x y j a.old a.new }
{
    let first = a[x];
    let second = a[y];
    join_rows(&first, &second, x, y, &mut a[j + 1]);
}

// The table of chains.
fn chains_into(v: &UnpackedBlock, a: &mut [[bool; 64]; 61])
    requires { NoneFirst a.old }
    ensures { ChainsFilled v.now a.new }
{
    let n = v.shape.n;
    for j in 0..n {
        let e = v.instructions[j];
        chain_row(usize::from(e.first), usize::from(e.second), j, a);
    }
}

// The instructions of j's kind that stand less than w before j and from which no chain leads to it.
fn contenders_of(w: usize, u: &[Instruction; 60], a: &[[bool; 64]; 61], j: usize, row: &mut Row)
    requires { (j < 60) × (w ≤ 60) }
    ensures { those_of row.new ≡ nearby w u.now a.now j }
{
    let kind = u[j].kind;
    let chains = &a[j + 1];
    let first = (j + 1).saturating_sub(w);
    let mut len = 0;
    for i in first..j {
        row.numbers[len] = i as u8;
        len += usize::from((u[i].kind == kind) & !chains[i + 1]);
    }
    row.len = len;
}

// The rows of the contending pairs.
pub fn contenders_into(v: &UnpackedBlock, rows: &mut [Row; 60])
    ensures { ContenderRows v.now rows.new }
{
    let n = v.shape.n;
    let w = v.shape.w;
    let mut a = [[false; 64]; 61];
    chains_into(v, &mut a);
    for j in 0..n {
        contenders_of(w, &v.instructions, &a, j, &mut rows[j]);
    }
}
