// The bench beside the second analyser and player: every number of result records, window tables and plays, and each
// play inside its windows.
use crate::shapes::{result_of, shaped, words_of};
use record::Block;
use std::array::from_fn;
use std::fmt;
use trial_blocks::latencies::{Way, latencies, list_of};
use trial_blocks::seed::Seed;
use trial_blocks::show::print;
use trial_blocks::sums::FILLED;

// A block, by its number among those made, and the window table that the bench gives it.
#[derive(Drop)]
struct Case {
    number: usize,
    block: Block,
    windows: [u16; 1800],
}

// Where two lists first differ, and what stands there.
#[derive(Clone, Copy)]
struct Difference {
    place: usize,
    ours: u32,
    second: u32,
}

// How many agree, and how many differ.
#[derive(Clone, Copy, Default)]
struct Tally {
    blocks: usize,
    windows: usize,
    results: usize,
    plays: usize,
    agreed: usize,
    inside: usize,
    bounded: usize,
    differ: usize,
}

fn first_difference(ours: &[u16], second: &[u16]) -> Option<Difference> {
    let mut pairs = ours.iter().zip(second).enumerate();
    let (place, (x, y)) = pairs.find(|(_, (x, y))| x != y)?;
    Some(Difference {
        place,
        ours: u32::from(*x),
        second: u32::from(*y),
    })
}

// Whether ready, start and finish of a node are within its window.
fn within(window: &[u16; 6], times: &[u16; 3]) -> bool {
    (0..3).all(|k| window[k] <= times[k] && times[k] <= window[k + 3])
}

// Whether the times of each node of n instructions are within their windows.
fn inside(n: u8, windows: &[u16; 1800], played: &[u16; 900]) -> bool {
    let windows = windows.as_chunks::<6>().0;
    let played = played.as_chunks::<3>().0;
    windows
        .iter()
        .zip(played)
        .take(5 * usize::from(n))
        .all(|(window, times)| within(window, times))
}

// One more where a test holds.
fn counted(n: usize, test: bool) -> usize {
    n.saturating_add(usize::from(test))
}

impl Tally {
    // Whether there is no difference. Tells of one, where it is the first of all.
    fn agree(&mut self, block: usize, name: &str, difference: Option<Difference>) -> bool {
        let Some(d) = difference else {
            return true;
        };
        if self.differ == 0 {
            print(format_args!("first difference: block {block}, {name} {}", d.place));
            print(format_args!(": ours {}, second {}\n", d.ours, d.second));
        }
        self.differ = counted(self.differ, true);
        false
    }

    // Takes in one play of a block, by the number of its list. The bound is the last number of the windows.
    fn play(&mut self, case: &Case, list: usize, way: Way) {
        let b = case.block;
        let all = latencies(&b, way);
        let own = list_of(&b, &all);
        let mut ours = [FILLED; 900];
        let _ = play::play(b, own, &mut ours);
        let length = play::play_length(b, own).unwrap_or(0);
        let mut second = [FILLED; 900];
        let end = trial_second::play(b, &from_fn(|i| all[i]), &mut second);
        let lengths = Difference {
            place: list,
            ours: u32::from(length),
            second: end,
        };
        let bound = case.windows.iter().take(30 * usize::from(b.n)).last();
        let same = self.agree(case.number, "play number", first_difference(&ours, &second))
            && self.agree(
                case.number,
                "length of play",
                (lengths.ours != end).then_some(lengths),
            );
        self.plays = counted(self.plays, true);
        self.agreed = counted(self.agreed, same);
        self.inside = counted(self.inside, inside(b.n, &case.windows, &ours));
        self.bounded = counted(self.bounded, bound.is_some_and(|bound| length <= *bound));
    }

    // Takes in four plays: all lowest latencies, all highest, and two lists that are drawn.
    fn plays(&mut self, case: &Case, seed: Seed) {
        let third = seed.next().next().next().next();
        let fourth = third.next().next();
        self.play(case, 0, Way::Lowest);
        self.play(case, 1, Way::Highest);
        self.play(case, 2, Way::Drawn(third));
        self.play(case, 3, Way::Drawn(fourth));
    }

    // Takes in block k: its window table, its result record and its plays.
    fn block(&mut self, k: usize, seed: Seed) {
        let b = shaped(k, seed);
        let mut ours = [FILLED; 1800];
        let _ = analysis::windows(b, &mut ours);
        let mut second = [FILLED; 1800];
        let counts = trial_second::windows(b, &mut second);
        let mut record = [170u8; 512];
        let _ = analysis::analyse(b, &mut record);
        let made = result_of(&b, &second, counts);
        let windows = self.agree(k, "window number", first_difference(&ours, &second));
        let results = self.agree(
            k,
            "result word",
            first_difference(&words_of(&record), &made),
        );
        self.blocks = counted(self.blocks, true);
        self.windows = counted(self.windows, windows);
        self.results = counted(self.results, results);
        let case = Case {
            number: k,
            block: b,
            windows: ours,
        };
        self.plays(&case, seed);
    }
}

impl fmt::Display for Tally {
    fn fmt<W: fmt::Write>(&self, f: &mut fmt::Formatter<W>) -> fmt::Result {
        writeln!(f, "blocks beside the second analyser {}", self.blocks)?;
        writeln!(f, "  window tables that agree {}", self.windows)?;
        writeln!(f, "  result records that agree {}", self.results)?;
        writeln!(f, "plays beside the second player {}", self.plays)?;
        writeln!(f, "  tables and lengths that agree {}", self.agreed)?;
        writeln!(f, "  inside their windows {}", self.inside)?;
        writeln!(f, "  ended by the bound {}", self.bounded)?;
        writeln!(f, "differences {}", self.differ)
    }
}

pub fn run() {
    let mut seed = Seed(15);
    let mut tally = Tally::default();
    for k in 0..3600 {
        tally.block(k, seed);
        seed = seed.next();
    }
    print(tally);
}
