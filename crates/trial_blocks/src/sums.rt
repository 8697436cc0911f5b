// Sums over numbers, and whether numbers are as they were filled in.

// What outputs of numbers are filled with before a call.
pub const FILLED: u16 = 43690;

// The sum with one number more.
pub fn summed(sum: u64, x: u16) -> u64 {
    (sum % 4294967291 * 65599 + u64::from(x)) % 4294967291
}

pub fn sum_numbers(sum: u64, s: &[u16]) -> u64 {
    s.iter().fold(sum, |sum, x| summed(sum, *x))
}

// Whether all numbers from `first` on are as they were filled in.
pub fn untouched(s: &[u16], first: usize) -> bool {
    s.iter().skip(first).all(|x| *x == FILLED)
}
