// The rounds.
ghost use Rattle.std.specs.Prelude.{◌≡◌};
ghost use Rattle.pairs.specs.inside.RowSteps.{ContenderRows};
ghost use Rattle.rounds.specs.inside.BlockTimes.{Unpacks, EarliestTimes, RoundsOver, Refined};

use crate::Counts;
use crate::times::round_into;
use pairs::{Row, Times, contenders_into, first_apart, keep_rows, pairs_of};
use unpacked::UnpackedBlock;

// Rounds until one finds no new pair apart. The rows come as the contending pairs and go as those that are not apart; the late
// times go as the latest starts. The result is the last round's number.
fn rounds_of(v: &UnpackedBlock, rows: &mut [Row; 60], times: &mut Times) -> usize
    requires { Unpacks v.now × EarliestTimes v.now times.old.early × ContenderRows v.now rows.old }
    ensures rounds { RoundsOver v.now result times.new.late rows.new }
    ensures kept { times.new.early ≡ times.old.early }
{
    let n = v.shape.n;
    let mut k = 1;
    let rounds = loop {
        round_into(v, rows, &mut times.late);
        let at = first_apart(n, &v.instructions, times, rows);
        if at == n {
            break k;
        }
        keep_rows(at..n, &v.instructions, times, rows);
        k += 1;
    };
    rounds
}

// The windows of a block whose earliest starts are known: the late times go as the latest starts.
pub fn refine(v: &UnpackedBlock, times: &mut Times) -> Counts
    requires { Unpacks v.now × EarliestTimes v.now times.old.early }
    ensures refined { Refined v.now result times.new.late }
    ensures kept { times.new.early ≡ times.old.early }
{
    let n = v.shape.n;
    let mut rows = [Row::new(); 60];
    contenders_into(v, &mut rows);
    let pairs = pairs_of(n, &rows);
    let rounds = rounds_of(v, &mut rows, times);
    let left = pairs_of(n, &rows);
    Counts {
        rounds,
        pairs,
        apart: pairs.saturating_sub(left),
    }
}
