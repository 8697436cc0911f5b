// The analysis and the window table: lines of what the result record holds, and a sum over all that both write.
use crate::shapes::words_of;
use record::Block;
use trial_blocks::crowded::crowded;
use trial_blocks::latencies::{Way, latencies, list_of};
use trial_blocks::seed::Seed;
use trial_blocks::show::{count, print};
use trial_blocks::sums::{FILLED, sum_numbers, summed};

// The result record of a block.
fn record_of(b: Block) -> [u8; 512] {
    let mut s = [170u8; 512];
    let _ = analysis::analyse(b, &mut s);
    s
}

// The bound and the counts of a block, out of its result record.
fn show_numbers(b: Block) {
    let words = words_of(&record_of(b));
    let [bound, rounds, pairs, apart] = [words[3], words[6], words[7], words[8]];
    print(format_args!("  bound {bound} rounds {rounds} pairs {pairs} apart {apart}\n"));
}

fn length(b: Block, way: Way) -> u16 {
    play::play_length(b, list_of(&b, &latencies(&b, way))).unwrap_or(0)
}

// How long a block's plays are, with all lowest and with all highest latencies, its bound and its counts.
pub fn line(name: &str, b: Block) {
    let low = length(b, Way::Lowest);
    let high = length(b, Way::Highest);
    print(format_args!("{name}  length {low} at lowest {high} at highest"));
    show_numbers(b);
}

// A made block of each size.
pub fn sizes() {
    let mut seed = Seed(3);
    for n in 1..=60u8 {
        print(format_args!("n {n}"));
        show_numbers(crowded(n, seed));
        seed = seed.next();
    }
}

// The sum with a block's result record and its window table, and what lies beyond it.
fn sum_block(sum: u64, b: Block) -> u64 {
    let bytes = record_of(b);
    let mut t = [FILLED; 1800];
    let _ = analysis::windows(b, &mut t);
    let sum = bytes.iter().fold(sum, |sum, x| summed(sum, u16::from(*x)));
    sum_numbers(sum, &t)
}

pub fn sums() {
    let mut seed = Seed(4);
    let mut sum = 0;
    for k in 0..300usize {
        sum = sum_block(sum, crowded((1 + k % 60) as u8, seed));
        seed = seed.next();
    }
    count("crowded blocks", 300);
    count("  sum over result records and window tables", sum as usize);
}
