// Blocks made from a seed.
use crate::seed::Seed;
use record::{Block, Entry};

// One time in 33 no register.
fn register(seed: &mut Seed) -> u8 {
    match seed.between(0, 65) {
        64.. => 255,
        r => r,
    }
}

fn entry(seed: &mut Seed) -> Entry {
    let kind = seed.between(0, 3);
    let a = seed.between(1, 255);
    let b = seed.between(1, 255);
    Entry {
        kind,
        lo: a.min(b),
        hi: a.max(b),
        writes: register(seed),
        reads1: register(seed),
        reads2: register(seed),
    }
}

// The entries of n instructions, each drawn in turn; those beyond are all zero.
pub(crate) fn entries<F: FnMut(&mut Seed) -> Entry>(
    n: u8,
    mut seed: Seed,
    mut entry: F,
) -> [Entry; 60]
    requires { F.IsAlwaysCallable entry }
{
    let mut entries = [Entry::default(); 60];
    for e in entries.iter_mut().take(usize::from(n)) {
        *e = entry(&mut seed);
    }
    entries
}

// An accepted block.
pub fn block(mut seed: Seed) -> Block {
    let n = seed.between(1, 60);
    let q = seed.between(1, 16);
    let w = seed.between(1, 32);
    let f = seed.between(1, 4);
    let d = seed.between(1, 4);
    let c = seed.between(1, 4);
    let origin = seed.between(1, 2);
    let last = seed.next();
    Block {
        n,
        q,
        w,
        f,
        d,
        c,
        origin,
        number: (seed.0 % 65536 * 65536 + last.0 % 65536) as u32,
        entries: entries(n, last, entry),
    }
}

// The entry with one field set to v.
fn spoiled_entry(e: Entry, field: u64, v: u8) -> Entry {
    match field {
        0 => Entry { kind: v, ..e },
        1 => Entry { lo: v, ..e },
        2 => Entry { hi: v, ..e },
        3 => Entry { writes: v, ..e },
        4 => Entry { reads1: v, ..e },
        _ => Entry { reads2: v, ..e },
    }
}

// The block with one field set to any byte: often a fault, sometimes none.
pub fn spoiled(b: Block, mut seed: Seed) -> Block {
    let field = seed.draw() % 14;
    let v = seed.byte();
    match field {
        0 => Block { n: v, ..b },
        1 => Block { q: v, ..b },
        2 => Block { w: v, ..b },
        3 => Block { f: v, ..b },
        4 => Block { d: v, ..b },
        5 => Block { c: v, ..b },
        6 => Block { origin: v, ..b },
        _ => {
            let mut spoiled = b;
            let i = (seed.draw() % 60) as usize;
            spoiled.entries[i] = spoiled_entry(b.entries[i], field % 6, v);
            spoiled
        }
    }
}
