// A second opinion on records, by another road: from the last byte back to the first, so that the first fault stays.
use record::{Block, Reason, number_of, place_of};

// What is wrong with a record: of a header the first byte at fault, of entries the first one.
#[derive(Clone, Copy)]
pub enum Fault {
    Check,
    Letters,
    Header(usize),
    Entry(usize),
}

impl Fault {
    // The number and the place that a refusal is to have.
    fn number_and_place(self) -> (u8, usize) {
        match self {
            Fault::Check => (2, 0),
            Fault::Letters => (3, 0),
            Fault::Header(k) => (4, k),
            Fault::Entry(i) => (5, i),
        }
    }
}

// Whether an answer says the same as the second opinion.
pub fn agrees(answer: Result<(), Reason>, opinion: Option<Fault>) -> bool {
    let refused = answer
        .err()
        .map(|reason| (number_of(reason), place_of(reason)));
    refused == opinion.map(|fault| fault.number_and_place())
}

// The check with the sums reduced at the end: 4294836225 is 65535 times 65535, and keeps them small till then.
fn check(s: &[u8; 512]) -> u32 {
    let mut a: u64 = 0;
    let mut b: u64 = 0;
    for word in s[..508].as_chunks::<2>().0 {
        a = (a + u64::from(u16::from_le_bytes(*word))) % 4294836225;
        b = (b + a) % 4294836225;
    }
    (b % 65535 * 65536 + a % 65535) as u32
}

// The record with the right check in its last four bytes.
pub fn sealed(s: [u8; 512]) -> [u8; 512] {
    let mut t = s;
    t[508..].copy_from_slice(&check(&s).to_le_bytes());
    t
}

fn none_or_below(r: u8) -> bool {
    r == 255 || r < 64
}

// Whether an entry breaks its rule.
fn entry_bad(entry: &[u8; 8], used: bool) -> bool {
    if !used {
        return *entry != [0; 8];
    }
    let [kind, lo, hi, writes, reads1, reads2, zero1, zero2] = *entry;
    if 3 < kind || lo == 0 || hi < lo {
        return true;
    }
    let registers = none_or_below(writes) && none_or_below(reads1) && none_or_below(reads2);
    !registers || zero1 != 0 || zero2 != 0
}

// Whether byte k of the header breaks its rule.
fn header_bad(k: usize, x: u8) -> bool {
    match k {
        4 => x == 0 || 60 < x,
        5 => x == 0 || 16 < x,
        6 => x == 0 || 32 < x,
        7..=9 => x == 0 || 4 < x,
        10 => x != 1 && x != 2,
        12..=15 => false,
        _ => x != 0,
    }
}

// The first entry at fault.
fn of_entries(s: &[u8; 512]) -> Option<Fault> {
    let mut fault = None;
    for (i, entry) in s[28..508].as_chunks::<8>().0.iter().enumerate().rev() {
        if entry_bad(entry, i < usize::from(s[4])) {
            fault = Some(Fault::Entry(i));
        }
    }
    fault
}

// The first byte of the header at fault.
fn of_header(s: &[u8; 512]) -> Option<usize> {
    let mut fault = None;
    for k in (4..28).rev() {
        if header_bad(k, s[k]) {
            fault = Some(k);
        }
    }
    fault
}

pub fn opinion_of(s: &[u8; 512]) -> Option<Fault> {
    let mut fault = of_entries(s);
    if let Some(k) = of_header(s) {
        fault = Some(Fault::Header(k));
    }
    if s[..4] != b"BLK1"[..] {
        fault = Some(Fault::Letters);
    }
    if check(s).to_le_bytes()[..] != s[508..] {
        fault = Some(Fault::Check);
    }
    fault
}

// The bytes of a block, faults and all, with the right check.
pub fn record_of(b: Block) -> [u8; 512] {
    let mut s = [0u8; 512];
    s[..4].copy_from_slice(b"BLK1");
    s[4..11].copy_from_slice(&[b.n, b.q, b.w, b.f, b.d, b.c, b.origin]);
    s[12..16].copy_from_slice(&b.number.to_le_bytes());
    for (bytes, e) in s[28..508].as_chunks_mut::<8>().0.iter_mut().zip(&b.entries) {
        *bytes = [e.kind, e.lo, e.hi, e.writes, e.reads1, e.reads2, 0, 0];
    }
    sealed(s)
}
