// The edges of a block.
ghost use Rattle.std.specs.Prelude.{◌<◌, ◌≤◌};

use crate::blocks::count_of;
use crate::nodes::{Node, Stage};
use record::{Block, Entry};

// Which time of its first node an edge carries to its second: the start, for one that keeps the order of the program,
// or the finish.
#[derive(Clone, Copy, PartialEq, Eq)]
pub enum Sort {
    Start,
    Finish,
}

#[derive(Clone, Copy)]
pub struct Edge {
    pub sort: Sort,
    pub from: Node,
    pub to: Node,
}

// 14 places for each instruction, of which some stay empty.
pub type Edges = [Option<Edge>; 840];

// A family: for each i, the edge from a stage of i to a stage of i + step, if that is in the block.
#[derive(Clone, Copy)]
struct Family {
    sort: Sort,
    from: Stage,
    to: Stage,
    step: u8,
}

// What an entry's `writes` is where it writes no register.
const NO_REGISTER: u8 = 255;

fn start(stage: Stage) -> Family {
    Family {
        sort: Sort::Start,
        from: stage,
        to: stage,
        step: 1,
    }
}

fn finish(from: Stage, to: Stage, step: u8) -> Family {
    Family {
        sort: Sort::Finish,
        from,
        to,
        step,
    }
}

fn families(b: &Block) -> [Family; 12] {
    [
        finish(Stage::If, Stage::Id, 0),
        finish(Stage::Id, Stage::Ex, 0),
        finish(Stage::Ex, Stage::Wb, 0),
        finish(Stage::Wb, Stage::Cm, 0),
        finish(Stage::Id, Stage::If, b.q),
        finish(Stage::Cm, Stage::Id, b.w),
        finish(Stage::If, Stage::If, b.f),
        finish(Stage::Id, Stage::Id, b.d),
        finish(Stage::Cm, Stage::Cm, b.c),
        start(Stage::If),
        start(Stage::Id),
        start(Stage::Cm),
    ]
}

// Lays a family, among n instructions, at one place of each.
fn lay(edges: &mut Edges, n: usize, place: usize, family: Family)
    requires count { n ≤ 60 }
    requires place { place < 14 }
{
    let step = family.step as usize;
    for j in step..n {
        let i = j - step;
        edges[14 * i + place] = Some(Edge {
            sort: family.sort,
            from: Node::new(i, family.from),
            to: Node::new(j, family.to),
        });
    }
}

// WB(i) to EX(j) for each j that reads what i writes, until another writes it.
fn lay_readers(edges: &mut Edges, n: usize, i: usize, entries: &[Entry; 60])
    requires count { n ≤ 60 }
    requires writer { i < n }
{
    let r = entries[i].writes;
    for j in i + 1..n {
        let edge = Some(Edge {
            sort: Sort::Finish,
            from: Node::new(i, Stage::Wb),
            to: Node::new(j, Stage::Ex),
        });
        let e = entries[j];
        if e.reads1 == r {
            edges[14 * j] = edge;
        }
        if e.reads2 == r {
            edges[14 * j + 1] = edge;
        }
        if e.writes == r {
            break;
        }
    }
}

// The edges of registers, writer by writer.
fn lay_registers(edges: &mut Edges, b: &Block) {
    let n = count_of(b);
    for i in 0..n {
        if b.entries[i].writes != NO_REGISTER {
            lay_readers(edges, n, i, &b.entries);
        }
    }
}

// All edges of a block. Places 0 and 1 of an instruction are for the registers it reads.
pub fn edges_of(b: &Block) -> Edges {
    let n = count_of(b);
    let mut edges = [None; 840];
    lay_registers(&mut edges, b);
    for (k, family) in families(b).iter().enumerate() {
        lay(&mut edges, n, k + 2, *family);
    }
    edges
}
