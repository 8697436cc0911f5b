// Prints what reader and writer answer: on worked vectors, on every single-byte change of a record and on made blocks,
// beside a second opinion.
#![tactic(auto)]

mod changes;
mod judge;
mod trips;
mod vectors;

fn main() {
    vectors::run();
    changes::run();
    trips::run();
}
