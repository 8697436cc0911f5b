// Refusals of the analysis and of the window table, and what they leave of their output.
use record::Block;
use trial_blocks::crowded::crowded;
use trial_blocks::seed::Seed;
use trial_blocks::show::{Answered, print};
use trial_blocks::sums::{FILLED, untouched};

// A block analysed to the first n bytes.
fn bytes(b: Block, n: usize) {
    let mut s = [170u8; 600];
    let old = s;
    if let Some(out) = s.get_mut(..n) {
        let answer = Answered(analysis::analyse(b, out));
        print(format_args!("analyse to {n} bytes{answer}"));
    }
    print(if s == old {
        " untouched\n"
    } else {
        " written\n"
    });
}

// The window table of a block to the first n numbers. It ends after 30 numbers for each instruction.
fn table(b: Block, n: usize) {
    let mut s = [FILLED; 1900];
    if let Some(out) = s.get_mut(..n) {
        let answer = Answered(analysis::windows(b, out));
        print(format_args!("windows to {n} numbers{answer}"));
    }
    if untouched(&s, 0) {
        print(" untouched\n");
    } else if untouched(&s, 30 * usize::from(b.n)) {
        print(" written\n");
    } else {
        print(" written beyond its end\n");
    }
}

pub fn run() {
    let b = crowded(7, Seed(5));
    for n in [0, 511, 512, 513] {
        bytes(b, n);
    }
    table(b, 0);
    table(b, 209);
    table(b, 210);
    table(b, 211);
    table(b, 1900);
    table(crowded(60, Seed(6)), 1799);
    table(crowded(60, Seed(6)), 1800);
    let many = Block {
        n: 61,
        ..crowded(60, Seed(7))
    };
    bytes(many, 512);
    table(many, 1900);
    bytes(many, 511);
    let mut low = crowded(9, Seed(8));
    low.entries[4].lo = 200;
    low.entries[4].hi = 199;
    bytes(low, 512);
    table(low, 1900);
    table(low, 0);
}
