// A refusal's number and place, as a report prints them.
ghost use Rattle.std.specs.Prelude.{◌≡◌};
ghost use Rattle.record.specs.Refusals.{number_of, place_of};

use crate::Reason;

// The number of a refusal.
pub fn number_of(r: Reason) -> u8
    ensures { result ≡ number_of r }
{
    match r {
        Reason::Length => 1,
        Reason::Check => 2,
        Reason::Letters => 3,
        Reason::Header(_) => 4,
        Reason::Rule(_) => 5,
        Reason::Output => 6,
        Reason::Latencies => 7,
        Reason::Latency(_) => 8,
        Reason::State => 9,
    }
}

// The place of a refusal, 0 where its number alone says it.
pub fn place_of(r: Reason) -> usize
    ensures { result ≡ place_of r }
{
    match r {
        Reason::Header(k) => k,
        Reason::Rule(i) => i,
        Reason::Latency(i) => i,
        Reason::Length => 0,
        Reason::Check => 0,
        Reason::Letters => 0,
        Reason::Output => 0,
        Reason::Latencies => 0,
        Reason::State => 0,
    }
}
