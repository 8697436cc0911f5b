// Prints what the play answers: by table and by steps, on faults, and from states that no play comes to.
#![tactic(auto)]

mod faults;
mod plays;
mod steps;

fn main() {
    plays::run();
    faults::lengths();
    faults::values();
    faults::order();
    faults::states();
    faults::walks();
}
