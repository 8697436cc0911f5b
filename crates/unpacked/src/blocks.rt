// A block unpacked: header, instructions.
ghost use Rattle.std.specs.Prelude.{◌≡◌, ◌≤◌};
ghost use Rattle.record.specs.Refusals.{block_verdict};
ghost use Rattle.unpacked.specs.inside.UnpackedBlock.{Shapes, Instructions};

use crate::{Instruction, LastWriters, Shape, UnpackedBlock};
use record::Block;

// The header's numbers; and no latency of a value of the code is above 255. They are cast: after six
// calls of `usize::from` the check no longer finds that the entries are bytes.
pub fn shape_of(b: Block) -> Shape
    ensures { Shapes b result }
{
    Shape {
        n: b.n as usize,
        q: b.q as usize,
        w: b.w as usize,
        f: b.f as usize,
        d: b.d as usize,
        c: b.c as usize,
    }
}

// The instructions.
pub fn instructions_of(b: Block) -> [Instruction; 60]
    requires { b.n ≤ 60 }
    ensures { Instructions b result }
{
    let n = usize::from(b.n);
    let mut u = [Instruction::default(); 60];
    let mut last = LastWriters::new();
    for j in 0..n {
        let e = b.entries[j];
        let first = last.source(e.reads1);
        let second = last.source(e.reads2);
        last.note(e.writes, j);
        u[j] = Instruction {
            kind: e.kind,
            low: e.lo,
            high: e.hi,
            first,
            second,
        };
    }
    u
}

// Both of an accepted block.
pub fn unpacked_of(b: Block) -> UnpackedBlock
    requires { block_verdict b ≡ (0, 0) }
    ensures { Shapes b result.shape × Instructions b result.instructions }
{
    UnpackedBlock {
        shape: shape_of(b),
        instructions: instructions_of(b),
    }
}
