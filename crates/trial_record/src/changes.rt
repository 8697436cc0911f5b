// Every single-byte change of a good record, as it stands and with the check made right again.
ghost use Rattle.std.specs.Prelude.{◌<◌};

use crate::judge::{agrees, opinion_of, record_of, sealed};
use reader::read;
use record::number_of;
use std::fmt;
use trial_blocks::made::block;
use trial_blocks::seed::Seed;
use trial_blocks::show::{count, print};

// How many records were accepted, how many were refused by each number, and how many answers differ from the second
// opinion.
#[derive(Clone, Copy, Default)]
pub struct Tally {
    accepted: usize,
    refused: [usize; 10],
    differ: usize,
}

impl Tally {
    // Counts one record more.
    pub fn judge(&mut self, s: &[u8; 512]) {
        let answer = read(s).map(|_| ());
        match answer {
            Ok(()) => self.accepted = self.accepted.saturating_add(1),
            Err(reason) => {
                let number = usize::from(number_of(reason));
                if number < 10 {
                    self.refused[number] = self.refused[number].saturating_add(1);
                }
            }
        }
        if !agrees(answer, opinion_of(s)) {
            self.differ = self.differ.saturating_add(1);
        }
    }
}

impl fmt::Display for Tally {
    fn fmt<W: fmt::Write>(&self, f: &mut fmt::Formatter<W>) -> fmt::Result {
        writeln!(f, "  accepted {}", self.accepted)?;
        for number in 2..6 {
            writeln!(f, "  refused {} {}", number, self.refused[number])?;
        }
        writeln!(f, "  differ from the second opinion {}", self.differ)
    }
}

// All 255 other values of byte k, with the check as it stands or made right again.
fn change(tally: &mut Tally, s: &[u8; 512], k: usize, seal: bool)
    requires { k < 512 }
{
    for v in 0..=255u8 {
        if v != s[k] {
            let mut changed = *s;
            changed[k] = v;
            tally.judge(&if seal { sealed(changed) } else { changed });
        }
    }
}

// The changes of all bytes, but for those of the check where it is made right again.
fn tally_of(s: &[u8; 512], seal: bool) -> Tally {
    let mut tally = Tally::default();
    for k in 0..if seal { 508 } else { 512 } {
        change(&mut tally, s, k, seal);
    }
    tally
}

pub fn run() {
    let s = record_of(block(Seed(300000)));
    let n = usize::from(s[4]);
    count("single-byte changes of a record, n", n);
    print(tally_of(&s, false));
    count("the same with the check made right, n", n);
    print(tally_of(&s, true));
}
