// Made blocks of every size and shape, and the words of a result record.
use record::{Block, Entry};
use std::array::from_fn;
use trial_blocks::crowded::crowded;
use trial_blocks::seed::Seed;
use trial_second::Counts;

// How wide the intervals of a block's entries are: as drawn, as narrow as two latencies, or as wide as from 1 on.
#[derive(Clone, Copy)]
enum Width {
    Drawn,
    Narrow,
    Wide,
}

fn with_width(e: Entry, width: Width) -> Entry {
    if e.hi <= 1 {
        return e;
    }
    match width {
        Width::Drawn => e,
        Width::Narrow => Entry { lo: e.hi - 1, ..e },
        Width::Wide => Entry { lo: 1, ..e },
    }
}

// Made block k: sizes go by 60, then intervals by 3, then buffers as drawn or small.
pub fn shaped(k: usize, seed: Seed) -> Block {
    let width = [Width::Drawn, Width::Narrow, Width::Wide][k / 60 % 3];
    let mut b = crowded((1 + k % 60) as u8, seed);
    for e in b.entries.iter_mut() {
        *e = with_width(*e, width);
    }
    if k / 180 % 2 == 1 {
        b.q = 1 + b.q % 4;
        b.w = 1 + b.w % 4;
    }
    b
}

fn narrow(x: u32) -> u16 {
    (x % 65536) as u16
}

fn head(b: &Block, c: Counts) -> [u16; 14] {
    [
        u16::from_le_bytes(*b"RE"),
        u16::from_le_bytes(*b"S1"),
        u16::from_le_bytes([b.n, b.origin]),
        narrow(c.bound),
        narrow(b.number),
        narrow(b.number / 65536),
        narrow(c.rounds),
        narrow(c.pairs),
        narrow(c.apart),
        0,
        0,
        0,
        0,
        0,
    ]
}

// The check of a record, which its last two words are to be.
fn check(words: &[u16; 256]) -> [u16; 2] {
    let mut a: u32 = 0;
    let mut b: u32 = 0;
    for x in &words[..254] {
        a = (a + u32::from(*x)) % 65535;
        b = (b + a) % 65535;
    }
    [a as u16, b as u16]
}

// The words with their check.
fn sealed(words: [u16; 256]) -> [u16; 256] {
    let mut s = words;
    s[254..].copy_from_slice(&check(&words));
    s
}

// The words of the result record that a window table and counts make: for each instruction EX earliest start, latest
// start and latest finish, CM latest finish.
pub fn result_of(b: &Block, table: &[u16; 1800], c: Counts) -> [u16; 256] {
    let n = usize::from(b.n);
    let mut s = [0u16; 256];
    s[..14].copy_from_slice(&head(b, c));
    let times = s[14..254].as_chunks_mut::<4>().0;
    for (four, row) in times.iter_mut().zip(table.as_chunks::<30>().0).take(n) {
        *four = [row[13], row[16], row[17], row[29]];
    }
    sealed(s)
}

// Bytes as words.
pub fn words_of(s: &[u8; 512]) -> [u16; 256] {
    from_fn(|k| u16::from_le_bytes([s[2 * k], s[2 * k + 1]]))
}
