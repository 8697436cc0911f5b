// What is read of a block, and steps that are repeated.
ghost use Rattle.std.specs.Prelude.{◌<◌, ◌≤◌};

use crate::nodes::Node;
use record::{Block, Entry};
use std::array::from_fn;

// How many instructions the block has.
pub fn count_of(b: &Block) -> usize
    ensures { result ≤ 60 }
{
    usize::from(b.n).min(60)
}

// One field of every entry.
pub fn column<F: Fn(Entry) -> u8>(b: &Block, field: F) -> [u8; 60]
    requires { F.IsAlwaysCallable field }
{
    from_fn(|i| field(b.entries[i]))
}

// How long a node takes: an EX its latency, every other one cycle.
pub fn latency_of(latencies: &[u8; 60], v: Node) -> u32
    ensures { result < 256 }
{
    if v.is_ex() {
        u32::from(latencies[v.instruction()].max(1))
    } else {
        1
    }
}

// Takes a step over and over, until it gives false or there were as many as the limit; gives how many.
pub fn repeated<F: FnMut() -> bool>(limit: u32, mut step: F) -> u32
    requires { F.IsAlwaysCallable step }
{
    for k in 0..limit {
        if !step() {
            return k + 1;
        }
    }
    limit
}
