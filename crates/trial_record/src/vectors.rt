// The worked vectors: each through the writer, and its bytes with the right check through the reader.
use crate::judge::{record_of, sealed};
use reader::read;
use record::{Block, Entry};
use trial_blocks::blocks::plain;
use trial_blocks::show::{Answered, print};
use writer::write;

fn entry(lo: u8, hi: u8, register: u8) -> Entry {
    Entry {
        kind: 1,
        lo,
        hi,
        writes: register,
        reads1: 255,
        reads2: 63,
    }
}

// A block of n entries, all of them e.
fn block(n: u8, e: Entry) -> Block {
    let mut entries = [Entry::default(); 60];
    for place in entries.iter_mut().take(usize::from(n)) {
        *place = e;
    }
    Block {
        origin: 2,
        number: 4000000007,
        ..plain(n, entries)
    }
}

// What the reader answers.
fn reading(s: &[u8]) -> Answered {
    Answered(read(s).map(|_| ()))
}

fn both(name: &str, b: Block) {
    let mut out = [0u8; 512];
    let written = Answered(write(b, &mut out));
    print(format_args!("{name}  write{written}  read{}\n", reading(&record_of(b))));
}

// A block of two with its second entry e.
fn second(name: &str, e: Entry) {
    let mut b = block(2, entry(1, 4, 63));
    b.entries[1] = e;
    both(name, b);
}

fn registers() {
    let e = entry(1, 4, 63);
    second("writes 63", e);
    second("writes 255", Entry { writes: 255, ..e });
    second("writes 64", Entry { writes: 64, ..e });
    second(
        "reads 64 first",
        Entry {
            writes: 1,
            reads1: 64,
            ..e
        },
    );
    second(
        "reads 254 second",
        Entry {
            writes: 1,
            reads1: 0,
            reads2: 254,
            ..e
        },
    );
}

// A record with another first letter.
fn damaged() -> [u8; 512] {
    let mut s = record_of(block(2, entry(1, 4, 63)));
    s[0] = b'C';
    s
}

fn letters() {
    let wrong = damaged();
    print(format_args!("wrong letters, wrong check  read{}\n", reading(&wrong)));
    print(format_args!(
        "wrong letters, right check  read{}\n",
        reading(&sealed(wrong))
    ));
}

fn zeros() -> [u8; 100000] {
    [0u8; 100000]
}

// The first n bytes read.
fn front(s: &[u8], n: usize) {
    if let Some(front) = s.get(..n) {
        print(format_args!("{n} bytes  read{}\n", reading(front)));
    }
}

// A block written to the first n bytes.
fn output(s: &mut [u8], n: usize) {
    if let Some(front) = s.get_mut(..n) {
        let written = Answered(write(block(2, entry(1, 4, 63)), front));
        print(format_args!("output of {n} bytes  write{written}\n"));
    }
}

fn lengths() {
    let mut long = zeros();
    for n in [0, 1, 511, 512, 513, 100000] {
        front(&long, n);
    }
    for n in [0, 511, 512, 513, 100000] {
        output(&mut long, n);
    }
}

pub fn run() {
    both("n 0", block(0, Entry::default()));
    both("n 61", block(61, entry(1, 4, 63)));
    both("n 60", block(60, entry(1, 4, 63)));
    second("lo 0", entry(0, 4, 63));
    second("lo above hi", entry(5, 4, 63));
    registers();
    letters();
    lengths();
}
