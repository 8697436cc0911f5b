// What the trial programs share: blocks worked by hand and made from a seed, lists of latencies, sums, lines of output.
#![tactic(auto)]

pub mod blocks;
pub mod crowded;
pub mod latencies;
pub mod made;
pub mod seed;
pub mod show;
pub mod sums;
