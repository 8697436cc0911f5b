// Paths: for each node, the instructions whose EX a path from it comes to.
use crate::blocks::repeated;
use crate::edges::{Edge, Edges};
use crate::instructions::Instructions;
use crate::nodes::Node;

pub type Paths = [Instructions; 300];

// The instructions that a node and the paths from it come to.
fn reached(paths: &Paths, v: Node) -> Instructions {
    let beyond = paths[v.place()];
    if v.is_ex() {
        beyond.with(v.instruction())
    } else {
        beyond
    }
}

// The set of an edge's first node takes in the second node and its set; gives whether it grew.
fn take_in(paths: &mut Paths, e: &Edge) -> bool {
    let old = paths[e.from.place()];
    let new = old.union(reached(paths, e.to));
    paths[e.from.place()] = new;
    new != old
}

// One sweep over the edges, from the last to the first; gives whether a set grew.
fn sweep(paths: &mut Paths, edges: &Edges) -> bool {
    let mut grew = false;
    for e in edges.iter().rev().flatten() {
        if take_in(paths, e) {
            grew = true;
        }
    }
    grew
}

// The paths once no sweep makes a set grow.
pub fn paths_of(edges: &Edges) -> Paths {
    let mut paths = [Instructions::default(); 300];
    repeated(302, || sweep(&mut paths, edges));
    paths
}
