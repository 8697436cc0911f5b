// Plays: the table and the length, and the same play cycle by cycle.
use crate::steps::{answer_of, same_starts, steps, walk};
use play::{PlayState, play, play_length};
use record::Block;
use trial_blocks::blocks::block_e;
use trial_blocks::crowded::crowded;
use trial_blocks::latencies::{Way, latencies, list_of};
use trial_blocks::seed::Seed;
use trial_blocks::show::{count, print};
use trial_blocks::sums::{FILLED, sum_numbers, summed};

// The play table of a block, as it was filled in beyond it.
fn table(b: Block, latencies: &[u8]) -> [u16; 900] {
    let mut s = [FILLED; 900];
    let _ = play(b, latencies, &mut s);
    s
}

fn starts(same: bool) -> &'static str {
    if same { "same starts" } else { "other starts" }
}

// Block E with x for its first latency.
fn first_of_e(x: u8) {
    let b = block_e();
    let latencies = [x, 4, 4, 12];
    let t = table(b, &latencies);
    let length = play_length(b, &latencies).unwrap_or(0);
    let w = walk(PlayState::first(), b, &latencies, 30780, 0);
    let (last, cycles) = (t[59], w.cycles);
    let starts = starts(same_starts(&w.state, &t));
    print(format_args!("E, first latency {x}  length {length} by table {last}"));
    print(format_args!(" by steps {cycles}, {starts}\n"));
}

// All the cycles that a play may have, 513 for each instruction, and one more.
fn to_the_end(name: &str, b: Block, latencies: &[u8]) {
    let cycles = 513 * usize::from(b.n);
    let t = table(b, latencies);
    let s = steps(PlayState::first(), b, latencies, cycles);
    let accepted = s.accepted;
    let starts = starts(same_starts(&s.state, &t));
    let next = answer_of(s.state.cycle(b, latencies));
    print(format_args!("{name}, {cycles} cycles, accepted {accepted}, {starts}; the next{next}\n"));
}

fn ends() {
    to_the_end("E", block_e(), &[1, 4, 4, 12]);
    let full = crowded(60, Seed(9));
    let latencies = latencies(&full, Way::Drawn(Seed(9)));
    to_the_end("60 instructions", full, list_of(&full, &latencies));
}

// Sums over tables and lengths and over states, how many plays were stepped through, how many came to the same starts.
#[derive(Clone, Copy, Default)]
struct Totals {
    plays: u64,
    states: u64,
    stepped: usize,
    same: usize,
}

impl Totals {
    // Takes in the play of a block. Where it is asked for, a short one is stepped through too.
    fn take_in(&mut self, b: Block, latencies: &[u8], step: bool) {
        let t = table(b, latencies);
        let length = play_length(b, latencies).unwrap_or(0);
        self.plays = summed(sum_numbers(self.plays, &t), length);
        if step && length < 300 {
            let w = walk(PlayState::first(), b, latencies, 300, self.states);
            self.states = w.sum;
            self.stepped = self.stepped.saturating_add(1);
            if same_starts(&w.state, &t) {
                self.same = self.same.saturating_add(1);
            }
        }
    }
}

// Crowded blocks of every size under drawn latencies.
fn crowded_totals() -> Totals {
    let mut seed = Seed(9);
    let mut totals = Totals::default();
    for k in 0..300usize {
        let b = crowded((1 + k % 60) as u8, seed);
        seed = seed.next();
        let latencies = latencies(&b, Way::Drawn(seed));
        totals.take_in(b, list_of(&b, &latencies), k % 3 == 0);
    }
    totals
}

pub fn run() {
    for x in 1..5 {
        first_of_e(x);
    }
    ends();
    let t = crowded_totals();
    count("plays of crowded blocks", 300);
    count("  sum over play tables and lengths", t.plays as usize);
    count("  short ones stepped through", t.stepped);
    count("  to the same starts", t.same);
    count("  sum over their states", t.states as usize);
}
