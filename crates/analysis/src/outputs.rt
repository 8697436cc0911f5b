// The result record and the window table.
ghost use Rattle.std.specs.Prelude.{◌≡◌, [], ◌∷◌, ◌+◌, ◌*◌, ◌≤◌, ◌<◌, length, eqb};
ghost use Rattle.lists.specs.Lists.{pick, joined, put};
ghost use Rattle.model.specs.Nodes.{EX, node};
ghost use Rattle.model.specs.Cycles.{start};
ghost use Rattle.model.specs.Rounds.{window_place};
ghost use Rattle.unpacked.specs.inside.ReadyByStage.{ready_ex};
ghost use Rattle.unpacked.specs.inside.StageNumbers.{number};
ghost use Rattle.analysis.specs.Result.{head_of, four_of};
ghost use Rattle.analysis.specs.inside.OutputSteps.{times_at, result_from, node_into, table_from, NodeRoom};

use crate::Summary;
use pairs::{Times, finish_ex};
use unpacked::{CM, EX, FETCH, Instruction, Stage, UnpackedBlock, latency_of, stage_of, time};

// The result record's first 28 bytes.
fn result_head(s: Summary) -> [u8; 28]
    ensures { result ≡ head_of s }
{
    let mut head = [0; 28];
    head[..4].copy_from_slice(b"RES1");
    head[4] = s.n;
    head[5] = s.origin;
    head[6..8].copy_from_slice(&s.bound.to_le_bytes());
    head[8..12].copy_from_slice(&s.number.to_le_bytes());
    head[12..14].copy_from_slice(&s.rounds.to_le_bytes());
    head[14..16].copy_from_slice(&s.pairs.to_le_bytes());
    head[16..18].copy_from_slice(&s.apart.to_le_bytes());
    head
}

// Four 16-bit numbers.
fn put_four(x: u32, y: u32, z: u32, u: u32, at: usize, out: &mut [u8])
    requires { (at + 8 ≤ length out.old) × (at ≤ 600) }
    ensures { out.new ≡ put out.old at (four_of x y z u) }
{
    let x = time(x).to_le_bytes();
    let y = time(y).to_le_bytes();
    let z = time(z).to_le_bytes();
    let u = time(u).to_le_bytes();
    let four = [x[0], x[1], y[0], y[1], z[0], z[1], u[0], u[1]];
    out[at..at + 8].copy_from_slice(&four);
}

// The four numbers of instruction i, zeros from n on.
fn put_times(n: usize, u: &[Instruction; 60], times: &Times, i: usize, out: &mut [u8])
    requires { (i < 60) × (length out.old ≡ 512) }
    ensures { out.new ≡ put out.old (28 + 8 * i) (times_at n u.now times.now.early times.now.late i) }
{
    let at = 28 + 8 * i;
    if i < n {
        let x = u32::from(times.early[5 * i + EX]);
        let y = u32::from(times.late[5 * i + EX]);
        let z = u32::from(times.late[5 * i + CM]) + 1;
        put_four(x, y, finish_ex(u, &times.late, i), z, at, out);
    } else {
        put_four(0, 0, 0, 0, at, out);
    }
}

// The numbers of all 60 entries.
fn put_all_times(n: usize, u: &[Instruction; 60], times: &Times, out: &mut [u8])
    requires { length out.old ≡ 512 }
    ensures { out.new ≡ put out.old 28 (joined 60 (times_at n u.now times.now.early times.now.late)) }
{
    for i in 0..60 {
        put_times(n, u, times, i, out);
    }
}

// The result record of what an analysis says.
pub fn put_result(s: Summary, u: &[Instruction; 60], times: &Times, out: &mut [u8])
    requires { length out.old ≡ 512 }
    ensures { out.new ≡ result_from s u.now times.now.early times.now.late }
{
    let head = result_head(s);
    writer::put_head(&head, out);
    put_all_times(usize::from(s.n), u, times, out);
    record::seal(out);
}

// The latest ready time of stage g of instruction i: off EX it is the latest start.
fn latest_ready(g: Stage, x: u8, y: u8, late: &[u16; 300], i: usize) -> u32
    requires { (i < 60) × (x ≤ 60) × (y ≤ 60) }
    ensures { (result ≡ pick (eqb (number g) EX) (ready_ex x y late.now i) (start late.now (node (number g) i))) × (result ≤ 65536) }
{
    match g {
        Stage::Execute => unpacked::ready_ex(x, y, late, i),
        Stage::Fetch | Stage::Decode | Stage::Write | Stage::Commit => {
            u32::from(late[5 * i + g as usize])
        }
    }
}

// The place of number k of node v.
fn window_place(v: usize, k: usize) -> usize
    requires { (v < 300) × (k < 6) }
    ensures { result ≡ window_place v k }
{
    6 * v + k
}

// Ready, start and finish of a node, one by one: `copy_from_slice` makes the whole table a fifth slower.
fn put_three(ready: u16, start: u16, finish: u16, at: usize, out: &mut [u16])
    requires { (at + 3 ≤ length out.old) × (at ≤ 2000) }
    ensures { out.new ≡ put out.old at (ready ∷ start ∷ finish ∷ []) }
{
    out[at] = ready;
    out[at + 1] = start;
    out[at + 2] = finish;
}

// The six numbers of node v.
fn put_node(v: usize, u: &[Instruction; 60], times: &Times, out: &mut [u16])
    requires { NodeRoom v u.now out.old }
    ensures { out.new ≡ node_into v u.now times.now.early times.now.late out.old }
{
    let i = v / 5;
    let g = stage_of(v);
    let this = u[i];
    let e = times.early[v];
    let l = times.late[v];
    let ready = latest_ready(g, this.first, this.second, &times.late, i);
    let x = latency_of(g as usize, FETCH, this.low);
    let y = latency_of(g as usize, FETCH, this.high);
    put_three(e, e, time(u32::from(e) + x), window_place(v, 0), out);
    put_three(
        time(ready),
        l,
        time(u32::from(l) + y),
        window_place(v, 3),
        out,
    );
}

// The window table.
pub fn put_table(block: &UnpackedBlock, times: &Times, out: &mut [u16])
    requires { 30 * block.now.shape.n ≤ length out.old }
    ensures { out.new ≡ table_from block.now times.now.early times.now.late out.old }
{
    let end = 5 * block.shape.n;
    for v in 0..end {
        put_node(v, &block.instructions, times, out);
    }
}
