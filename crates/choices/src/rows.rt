// What the play asks of each instruction.
ghost use Rattle.std.specs.Prelude.{◌≡◌, ◌≤◌, length};
ghost use Rattle.record.specs.Refusals.{block_verdict};
ghost use Rattle.unpacked.specs.inside.UnpackedBlock.{Shapes};
ghost use Rattle.choices.specs.inside.InstructionRows.{InstructionRows, NoneFrom};

use crate::Row;
use crate::play_block::PlayBlock;
use record::Block;
use unpacked::LastWriters;

// The row of each instruction.
pub fn rows_of(b: Block, lat: &[u8]) -> [Row; 60]
    requires { (b.n ≤ 60) × (length lat.now ≡ b.n) }
    ensures { InstructionRows b lat.now result × NoneFrom b.n result }
{
    let n = usize::from(b.n);
    let none = Row {
        kind: 0,
        latency: 0,
        first: 0,
        second: 0,
    };
    let mut rows = [none; 60];
    let mut last = LastWriters::new();
    for j in 0..n {
        let e = b.entries[j];
        let first = last.source(e.reads1);
        let second = last.source(e.reads2);
        rows[j] = Row {
            kind: e.kind,
            latency: lat[j],
            first,
            second,
        };
        last.note(e.writes, j);
    }
    rows
}

// An accepted block as its play asks for it.
pub fn play_block_of(b: Block, lat: &[u8]) -> PlayBlock
    requires { (block_verdict b ≡ (0, 0)) × (length lat.now ≡ b.n) }
    ensures { Shapes b result.shape × InstructionRows b lat.now result.rows }
{
    PlayBlock {
        shape: unpacked::shape_of(b),
        rows: rows_of(b, lat),
    }
}
