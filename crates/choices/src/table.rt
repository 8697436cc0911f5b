// The play table, a row when an instruction commits.
ghost use Rattle.std.specs.Prelude.{◌≡◌, [], ◌∷◌, ◌++◌, ◌+◌, ◌≤◌, ◌<◌, min, length, drop};
ghost use Rattle.lists.specs.Lists.{put};
ghost use Rattle.record.specs.Refusals.{block_verdict};
ghost use Rattle.model.specs.Nodes.{IF, node, chosen};
ghost use Rattle.model.specs.Cycles.{play_place, play_numbers, play_table};
ghost use Rattle.schedules.specs.inside.Executions.{Fitting};
ghost use Rattle.choices.specs.inside.NoteSteps.{Noted, row_into};

use crate::choosing::{sources_of, until_started};
use crate::notes::{commit_one, decode_until, first_notes};
use crate::play_block::PlayBlock;
use crate::rows::play_block_of;
use crate::{PAD, PlayNotes};
use record::Block;
use unpacked::{CM, EX, ID, IF, WB, time};

// The place of the first number of stage g of instruction i.
fn play_place(i: usize, g: usize) -> usize
    requires { (i < 60) × (g < 5) }
    ensures { result ≡ play_place (node g i) 0 }
{
    3 * (5 * i + g)
}

// Ready, start and finish of stage g of instruction i.
fn put_three(three: [u16; 3], i: usize, g: usize, out: &mut [u16])
    requires { (i < 60) × (g < 5) × (play_place (node g i) 3 ≤ length out.old) }
    ensures { out.new ≡ put out.old (play_place (node g i) 0) three }
{
    let at = play_place(i, g);
    out[at..at + 3].copy_from_slice(&three);
}

// The row of instruction i, all of whose times are noted.
fn put_row(i: usize, p: &PlayBlock, x: &PlayNotes, out: &mut [u16])
    requires { (play_place (node IF (i + 1)) 0 ≤ length out.old) × (i < 60) × Noted p.now.rows x.now i }
    ensures { out.new ≡ row_into p.now.rows x.now i out.old }
{
    let f = x.fetch[PAD + i];
    let d = x.decoded[PAD + i];
    let w = x.written[i + 1];
    let c = x.committed[PAD + i];
    let ready = time(u32::from(d).max(sources_of(i, p, x)));
    put_three([f, f, x.fetched[PAD + i]], i, IF, out);
    put_three([d - 1, d - 1, d], i, ID, out);
    let start = w - 1 - u16::from(p.rows[i].latency);
    put_three([ready, start, w - 1], i, EX, out);
    put_three([w - 1, w - 1, w], i, WB, out);
    put_three([c - 1, c - 1, c], i, CM, out);
}

// The play table of a block under the latencies of a list.
pub fn table_into(b: Block, lat: &[u8], out: &mut [u16])
    requires { (block_verdict b ≡ (0, 0)) × Fitting b lat.now × (length lat.now ≡ b.n) × (play_numbers b ≤ length out.old) }
    ensures { out.new ≡ play_table b (chosen b lat.now) ++ drop (play_numbers b) out.old }
{
    let p = play_block_of(b, lat);
    let mut x = first_notes();
    let mut m = 0;
    let n = p.shape.n;
    for c in 0..n {
        let end = n.min(c + p.shape.w);
        decode_until(&p, m, end, &mut x);
        m = end;
        until_started(c, m, &p, &mut x);
        commit_one(&p, c, &mut x);
        put_row(c, &p, &x, out);
    }
}
