// Prints what the analysis answers: on worked blocks and made ones, and where it refuses. Then analysis and play stand
// beside a second analyser and player.
#![tactic(auto)]

mod beside;
mod refusals;
mod shapes;
mod windows;
mod worked;

fn main() {
    worked::run();
    windows::sizes();
    windows::sums();
    refusals::run();
    beside::run();
}
