// Contending pairs and rounds.
ghost use Rattle.std.specs.Prelude.{◌<◌};

use crate::blocks::{column, count_of, repeated};
use crate::edges::Edges;
use crate::instructions::Instructions;
use crate::nodes::{Node, Stage};
use crate::paths::{Paths, paths_of};
use crate::times::{Setting, Sheet, Times, Weight, relaxed};
use record::Block;
use std::array::from_fn;

// For each instruction, the earlier ones that contend with it and are not known to be apart from it.
pub type Pairs = [Instructions; 60];

// The instructions before j of the same kind, where no path leads from one EX to the other.
fn contenders(paths: &Paths, kinds: &[u8; 60], j: usize) -> Instructions
    requires { j < 60 }
{
    let from = paths[Node::new(j, Stage::Ex).place()];
    let unreached = Instructions::before(j).without(from);
    unreached.kept(|v| kinds[v.instruction()] == kinds[j] && !paths[v.place()].has(j))
}

// The contending pairs of a block.
pub fn contending(b: &Block, edges: &Edges) -> Pairs {
    let n = count_of(b);
    let kinds = column(b, |e| e.kind);
    let paths = paths_of(edges);
    let mut open = [Instructions::default(); 60];
    for j in 0..n {
        open[j] = contenders(&paths, &kinds, j);
    }
    open
}

// How many pairs there are.
pub fn size(open: &Pairs) -> u32 {
    open.iter()
        .fold(0u32, |sum, set| sum.saturating_add(set.size()))
}

// Adds what the pairs of instruction j with earlier ones weigh: each of those on j, and j on each of those.
fn weigh(weights: &mut [Weight; 60], hi: &[u8; 60], j: usize, earlier: Instructions)
    requires { j < 60 }
{
    let own = u32::from(hi[j].saturating_sub(1));
    for v in earlier.members() {
        let i = v.instruction();
        let sum = weights[j].earlier;
        weights[j].earlier = sum.saturating_add(u32::from(hi[i].max(1)));
        weights[i].later = weights[i].later.max(own);
    }
}

// What the pairs weigh, by the highest latencies.
fn weights_of(hi: &[u8; 60], open: &Pairs) -> [Weight; 60] {
    let mut weights = [Weight::default(); 60];
    for (j, set) in open.iter().enumerate() {
        weigh(&mut weights, hi, j, *set);
    }
    weights
}

// Whether two nodes are apart: the latest finish of one is at most the earliest ready of the other.
fn apart(early: &Sheet, late: &Sheet, u: Node, v: Node) -> bool {
    let [u, v] = [u.place(), v.place()];
    late[u].finish <= early[v].ready || late[v].finish <= early[u].ready
}

// What is left of a set once those apart from j are out of it.
fn left(early: &Sheet, late: &Sheet, set: Instructions, j: usize) -> Instructions
    requires { j < 60 }
{
    set.kept(|v| !apart(early, late, v, Node::new(j, Stage::Ex)))
}

// What the rounds come to: how many there were, the latest times, and how many pairs are apart.
#[derive(Drop)]
pub struct Rounds {
    pub count: u32,
    pub late: Sheet,
    pub apart: u32,
}

// Rounds until one finds no new pair apart.
pub fn run_rounds(b: &Block, edges: &Edges, early: &Sheet, pairs: &Pairs) -> Rounds {
    let hi = column(b, |e| e.hi);
    let mut late = [Times::default(); 300];
    let mut open = *pairs;
    let count = repeated(1771, || {
        let setting = Setting {
            latencies: hi,
            open,
            weights: weights_of(&hi, &open),
        };
        late = relaxed(edges, &setting);
        let old = open;
        open = from_fn(|j| left(early, &late, old[j], j));
        open != old
    });
    Rounds {
        count,
        late,
        apart: size(pairs).saturating_sub(size(&open)),
    }
}
