// The last writers of all registers, instruction by instruction: the analysis and the play ask.
ghost use Rattle.std.specs.Prelude.{◌≡◌, ℕ, ◌+◌, ◌<◌, List};
ghost use Rattle.record.specs.declared.Block.{Block};
ghost use Rattle.model.specs.Nodes.{entry, source};
ghost use Rattle.unpacked.specs.inside.Sources.{Sources};
ghost use Rattle.unpacked.specs.inside.UnpackedBlock.{code};

use std::marker::Model;

// By register one more than the last instruction so far that writes it, 0 where there is none.
#[derive(Drop)]
pub struct LastWriters {
    last: [u8; 256],
}

// A contract sees the source of each register, in a list by register.
impl Model for LastWriters {
    ghost Value = { List ℕ };

    ghost view = { λ w. w.last };
}

impl LastWriters {
    // Before the first instruction: no register has one.
    pub fn new() -> Self
        ensures { (b : Block) → Sources b 0 result }
    {
        LastWriters { last: [0; 256] }
    }

    // The source of this register: one more than its number, or 0 where there is none.
    pub fn source(&self, register: u8) -> u8
        ensures { (b : Block) (j : ℕ) → Sources b j self.now → result ≡ code (source b register j) }
    {
        let r = usize::from(register);
        self.last[r]
    }

    // Instruction j writes this register, where it is not 255, which is none.
    pub fn note(&mut self, register: u8, j: usize)
        requires { j < 255 }
        ensures { (b : Block) → register ≡ (entry b j).writes → Sources b j self.old → Sources b (j + 1) self.new }
    {
        self.last[usize::from(register)] = (j + 1) as u8;
        self.last[255] = 0;
    }
}
