// Lists of latencies.
use crate::seed::Seed;
use record::{Block, Entry};

// Which latencies of its entries a block has: the lowest, the highest, or some drawn from between.
#[derive(Clone, Copy)]
pub enum Way {
    Lowest,
    Highest,
    Drawn(Seed),
}

fn latency(e: &Entry, way: &mut Way) -> u8 {
    match way {
        Way::Lowest => e.lo,
        Way::Highest => e.hi,
        Way::Drawn(seed) => seed.between(e.lo, e.hi),
    }
}

// The latencies of a block, and zeros beyond them.
pub fn latencies(b: &Block, mut way: Way) -> [u8; 100] {
    let mut latencies = [0u8; 100];
    for (x, e) in latencies.iter_mut().zip(&b.entries) {
        *x = latency(e, &mut way);
    }
    latencies
}

// The latencies of a block's instructions alone.
pub fn list_of<'a>(b: &Block, latencies: &'a [u8; 100]) -> &'a [u8] {
    &latencies[..usize::from(b.n).min(100)]
}
