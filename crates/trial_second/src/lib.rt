// A second analyser and player of blocks, by another road: a list of edges, relaxation until nothing changes, and
// events in time order.
#![tactic(auto)]

ghost use Rattle.std.specs.Prelude.{◌≤◌};

mod blocks;
mod edges;
mod events;
mod instructions;
mod nodes;
mod outgoing;
mod pairs;
mod paths;
mod times;

use record::Block;
use times::Sheet;

// What an analysis counts.
#[derive(Clone, Copy)]
pub struct Counts {
    pub bound: u32,
    pub rounds: u32,
    pub pairs: u32,
    pub apart: u32,
}

fn write_windows(early: &Sheet, late: &Sheet, n: usize, out: &mut [u16; 1800])
    requires { n ≤ 60 }
{
    let windows = out.as_chunks_mut::<6>().0.iter_mut();
    for (window, (early, late)) in windows.zip(early.iter().zip(late)).take(5 * n) {
        let [ready, start, finish] = early.numbers();
        let [latest_ready, latest_start, latest_finish] = late.numbers();
        *window = [
            ready,
            start,
            finish,
            latest_ready,
            latest_start,
            latest_finish,
        ];
    }
}

fn write_play(sheet: &Sheet, n: usize, out: &mut [u16; 900])
    requires { n ≤ 60 }
{
    let played = out.as_chunks_mut::<3>().0.iter_mut();
    for (numbers, times) in played.zip(sheet).take(5 * n) {
        *numbers = times.numbers();
    }
}

// The finish of the last commit.
fn end(sheet: &Sheet, n: usize) -> u32
    requires { n ≤ 60 }
{
    sheet[..5 * n].last().map_or(0, |times| times.finish)
}

// The window table: for each node, earliest ready, start, finish, then latest ready, start, finish.
pub fn windows(b: Block, out: &mut [u16; 1800]) -> Counts {
    let n = blocks::count_of(&b);
    let edges = edges::edges_of(&b);
    let early = times::earliest(&b, &edges);
    let pairs = pairs::contending(&b, &edges);
    let rounds = pairs::run_rounds(&b, &edges, &early, &pairs);
    write_windows(&early, &rounds.late, n, out);
    Counts {
        bound: end(&rounds.late, n),
        rounds: rounds.count,
        pairs: pairs::size(&pairs),
        apart: rounds.apart,
    }
}

// The play table: ready, start, finish for each node; gives back the finish of the last commit.
pub fn play(b: Block, lat: &[u8; 60], out: &mut [u16; 900]) -> u32 {
    let n = blocks::count_of(&b);
    let sheet = events::played(&b, lat);
    write_play(&sheet, n, out);
    end(&sheet, n)
}
