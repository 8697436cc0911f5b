// Made blocks in which many contend and many wait: few kinds, few registers, latencies narrow or wide.
use crate::made::{block, entries};
use crate::seed::Seed;
use record::{Block, Entry};

// What entries are drawn from: the highest kind, latency and register.
#[derive(Clone, Copy)]
struct Tops {
    kind: u8,
    latency: u8,
    register: u8,
}

fn draw_tops(mut seed: Seed) -> Tops {
    Tops {
        kind: seed.between(0, 3),
        latency: match seed.between(0, 2) {
            0 => 3,
            1 => 6,
            _ => 255,
        },
        register: seed.between(1, 31),
    }
}

// None where 0 is drawn.
fn register(seed: &mut Seed, top: u8) -> u8 {
    match seed.between(0, top) {
        0 => 255,
        r => r,
    }
}

fn entry(seed: &mut Seed, tops: Tops) -> Entry {
    let kind = seed.between(0, tops.kind);
    let a = seed.between(1, tops.latency);
    let b = seed.between(1, tops.latency);
    Entry {
        kind,
        lo: a.min(b),
        hi: a.max(b),
        writes: register(seed, tops.register),
        reads1: register(seed, tops.register),
        reads2: register(seed, tops.register),
    }
}

// A block of n instructions.
pub fn crowded(n: u8, seed: Seed) -> Block {
    let b = block(seed);
    let own = Seed(u64::from(b.number));
    let tops = draw_tops(own);
    Block {
        n,
        entries: entries(n, own.next(), |seed| entry(seed, tops)),
        ..b
    }
}
