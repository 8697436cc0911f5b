// Blocks by hand: no registers read or written unless said, Q 4, W 8, widths 1, classroom block 1.
use record::{Block, Entry};

pub fn entry(kind: u8, lo: u8, hi: u8, writes: u8, reads: u8) -> Entry {
    Entry {
        kind,
        lo,
        hi,
        writes,
        reads1: reads,
        reads2: 255,
    }
}

// A block of n instructions.
pub fn plain(n: u8, entries: [Entry; 60]) -> Block {
    Block {
        n,
        q: 4,
        w: 8,
        f: 1,
        d: 1,
        c: 1,
        origin: 1,
        number: 1,
        entries,
    }
}

// A block of these instructions, at most 60.
pub fn block_of(instructions: &[Entry]) -> Block {
    let mut entries = [Entry::default(); 60];
    for (entry, instruction) in entries.iter_mut().zip(instructions) {
        *entry = *instruction;
    }
    plain(instructions.len().min(60) as u8, entries)
}

// Block E of those worked by hand.
pub fn block_e() -> Block {
    block_of(&[
        entry(0, 1, 4, 1, 255),
        entry(1, 4, 4, 255, 1),
        entry(1, 4, 4, 2, 255),
        entry(2, 12, 12, 255, 2),
    ])
}
