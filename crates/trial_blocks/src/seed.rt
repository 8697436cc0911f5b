// What blocks and latencies are drawn from.
ghost use Rattle.std.specs.Prelude.{◌≤◌, max};

// A seed: each number that is drawn moves it on.
#[derive(Clone, Copy)]
pub struct Seed(pub u64);

impl Seed {
    // The seed after this one.
    pub fn next(self) -> Seed {
        Seed((self.0 % 2147483648 * 1103515245 + 12345) % 2147483648)
    }

    // A number, by all but the lowest bits, which are the least random.
    pub fn draw(&mut self) -> u64 {
        let drawn = self.0 / 2048;
        *self = self.next();
        drawn
    }

    pub fn byte(&mut self) -> u8 {
        (self.draw() % 256) as u8
    }

    // A number from low to high, or low where high is not above it.
    pub fn between(&mut self, low: u8, high: u8) -> u8
        ensures least { low ≤ result }
        ensures most { result ≤ max low high }
    {
        let width = 1 + u64::from(high.saturating_sub(low));
        low.saturating_add((self.draw() % width) as u8)
    }
}
