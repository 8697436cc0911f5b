// Sets of instructions.
ghost use Rattle.std.specs.Prelude.{◌<◌};

use crate::nodes::{Node, Stage};

// A set: bit i tells whether instruction i is in it.
#[derive(Clone, Copy, PartialEq, Eq, Default)]
pub struct Instructions(u64);

impl Instructions {
    // The instructions before j.
    pub fn before(j: usize) -> Self
        requires { j < 60 }
    {
        Instructions((1u64 << j).saturating_sub(1))
    }

    pub fn has(self, i: usize) -> bool
        requires { i < 60 }
    {
        self.0 & (1u64 << i) != 0
    }

    pub fn with(self, i: usize) -> Self
        requires { i < 60 }
    {
        Instructions(self.0 | (1u64 << i))
    }

    pub fn union(self, other: Self) -> Self {
        Instructions(self.0 | other.0)
    }

    pub fn without(self, other: Self) -> Self {
        Instructions(self.0 & !other.0)
    }

    pub fn size(self) -> u32 {
        self.0.count_ones()
    }

    pub fn members(self) -> Members {
        Members(self.0)
    }

    // Those whose EX passes a test.
    pub fn kept<F: Fn(Node) -> bool>(self, test: F) -> Self
        requires { F.IsAlwaysCallable test }
    {
        let kept = self.members().filter(|v| test(*v));
        kept.fold(Instructions::default(), |set, v| set.with(v.instruction()))
    }
}

// The EX of each member of a set, in program order.
#[derive(Drop)]
pub struct Members(u64);

impl Iterator for Members {
    ghost use Rattle.std.specs.Iterator.{at_most};

    type Item = Node;

    ghost remaining = { λ s. at_most s.0 };

    fn next(&mut self) -> Option<Node> {
        let first = self.0.trailing_zeros().min(59);
        self.0 &= self.0.checked_sub(1)?;
        Some(Node::new(first as usize, Stage::Ex))
    }
}
