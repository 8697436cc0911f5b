// Refusals of the play and what they leave, and cycles from states that no play comes to.
ghost use Rattle.std.specs.Prelude.{◌<◌, ◌≤◌};

use crate::steps::{answer_of, state_after, sum_state, walk};
use play::{PlayState, play, play_length};
use record::Block;
use std::fmt::Display;
use trial_blocks::crowded::crowded;
use trial_blocks::latencies::{Way, latencies, list_of};
use trial_blocks::seed::Seed;
use trial_blocks::show::{Answered, count, print};
use trial_blocks::sums::{FILLED, sum_numbers, untouched};

// The latencies of the first, the middle and the last of seven instructions go from 20 to 30.
fn block() -> Block {
    let mut b = crowded(7, Seed(10));
    for e in b.entries.iter_mut().step_by(3).take(3) {
        e.lo = 20;
        e.hi = 30;
    }
    b
}

// One cycle: the answer, and what comes back, the state as it was or the sum of another.
fn show_cycle(b: Block, latencies: &[u8], p: &PlayState) {
    let cycle = p.cycle(b, latencies);
    let answer = answer_of(cycle);
    let q = state_after(&cycle);
    if q == *p {
        print(format_args!("  cycle{answer} kept"));
    } else {
        print(format_args!("  cycle{answer} sum {}", sum_state(0, &q)));
    }
}

fn show_length(b: Block, latencies: &[u8]) {
    let length = play_length(b, latencies);
    let cycles = length.unwrap_or(0);
    print(format_args!("  length{} of {cycles}", Answered(length.map(|_| ()))));
}

// The play table to an output of so many numbers: where it is written, the sum over it and what lies beyond.
fn show_play(b: Block, latencies: &[u8], room: usize) {
    let mut s = [FILLED; 1000];
    if let Some(out) = s.get_mut(..room) {
        print(format_args!("  play{}", Answered(play(b, latencies, out))));
    }
    if untouched(&s, 0) {
        print(" untouched\n");
    } else {
        count(" sum", sum_numbers(0, &s) as usize);
    }
}

// The three operations, the play to an output of so many numbers.
fn line(name: impl Display + Drop, b: Block, latencies: &[u8], room: usize, p: &PlayState) {
    print(name);
    show_cycle(b, latencies, p);
    show_length(b, latencies);
    show_play(b, latencies, room);
}

// A list of n latencies.
fn list_of_length(n: usize)
    requires { n ≤ 100 }
{
    let b = block();
    let lowest = latencies(&b, Way::Lowest);
    let name = format_args!("list of {n}");
    line(name, b, &lowest[..n], 105, &PlayState::first());
}

// Lists and outputs of other lengths.
pub fn lengths() {
    let b = block();
    let lowest = latencies(&b, Way::Lowest);
    let p = PlayState::first();
    let list = list_of(&b, &lowest);
    line("list of 7, output of 105", b, list, 105, &p);
    list_of_length(0);
    list_of_length(6);
    list_of_length(8);
    list_of_length(100);
    for room in [0, 104, 106, 1000] {
        line(format_args!("output of {room}"), b, list, room, &p);
    }
}

// The latency of instruction i set to other values.
fn values_of(i: usize)
    requires { i < 7 }
{
    let b = block();
    for x in [0u8, 19, 20, 30, 31, 255] {
        let mut list = latencies(&b, Way::Lowest);
        list[i] = x;
        let name = format_args!("latency of instruction {i} set to {x}");
        line(name, b, &list[..7], 105, &PlayState::first());
    }
}

// One latency set to another value.
pub fn values() {
    values_of(0);
    values_of(3);
    values_of(6);
}

// One fault more at a time: the number is that of the first test that fails.
pub fn order() {
    let mut b = block();
    let mut list = latencies(&b, Way::Lowest);
    let mut p = PlayState::first();
    p.t = 30780;
    line("unfit state", b, &list[..7], 105, &p);
    list[6] = 31;
    line("and latency 31 of instruction 6", b, &list[..7], 105, &p);
    list[3] = 19;
    line("and latency 19 of instruction 3", b, &list[..7], 105, &p);
    line("and output of 104", b, &list[..7], 104, &p);
    line("and list of 6", b, &list[..6], 104, &p);
    b.entries[5].kind = 4;
    line("and kind 4 in entry 5", b, &list[..6], 104, &p);
    b.d = 5;
    line("and decode width 5", b, &list[..6], 104, &p);
    b.n = 61;
    line("and n 61", b, &list[..6], 104, &p);
}

// One cycle from the state in cycle t with one start alone, all latencies lowest.
fn alone(b: Block, t: u16, v: usize, x: u16)
    requires { v < 300 }
{
    let n = b.n;
    let mut p = PlayState::first();
    p.t = t;
    p.starts[v] = x;
    print(format_args!("state of {n} in cycle {t}, node {v} started at {x}"));
    show_cycle(b, list_of(&b, &latencies(&b, Way::Lowest)), &p);
    print("\n");
}

// A start of 65535 is none. The last node of seven instructions is 34.
pub fn states() {
    let b = crowded(7, Seed(10));
    alone(b, 30779, 0, 65535);
    alone(b, 30780, 0, 65535);
    alone(b, 65535, 0, 65535);
    alone(b, 30779, 7, 30778);
    alone(b, 30779, 7, 30779);
    alone(b, 0, 0, 0);
    alone(b, 1, 0, 0);
    alone(b, 10, 7, 9);
    alone(b, 10, 7, 10);
    alone(b, 10, 7, 11);
    alone(b, 10, 7, 65534);
    alone(b, 10, 34, 3);
    alone(b, 10, 35, 3);
    alone(b, 10, 299, 3);
    alone(b, 10, 299, 10);
    alone(crowded(60, Seed(11)), 10, 299, 3);
}

// A state of n instructions in a cycle up to 31: every second node has started, in any cycle before.
fn made(n: u8, seed: Seed) -> PlayState {
    let mut first = seed;
    let last = first.between(0, 30);
    let mut draws = seed;
    let mut p = PlayState::first();
    p.t = u16::from(last) + 1;
    for start in p.starts.iter_mut().take(5 * usize::from(n)) {
        let started = draws.between(0, 1) == 0;
        let cycle = draws.between(0, last);
        if started {
            *start = u16::from(cycle);
        }
    }
    p
}

// Walks of up to 40 cycles from made states.
pub fn walks() {
    let mut seed = Seed(12);
    let mut sum = 0;
    for k in 0..300usize {
        let b = crowded((1 + k % 20) as u8, seed);
        let list = latencies(&b, Way::Drawn(seed.next()));
        sum = walk(made(b.n, seed), b, list_of(&b, &list), 40, sum).sum;
        seed = seed.next();
    }
    count("walks from made states", 300);
    count("  sum over the states", sum as usize);
}
