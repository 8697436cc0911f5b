// Times by relaxation: sweeps over the edges until one changes nothing.
use crate::blocks::{column, latency_of, repeated};
use crate::edges::{Edge, Edges, Sort};
use crate::instructions::Instructions;
use crate::nodes::Node;
use record::Block;
use std::array::from_fn;

// When a node is ready, starts and finishes.
#[derive(Clone, Copy, Default)]
pub struct Times {
    pub ready: u32,
    pub start: u32,
    pub finish: u32,
}

// The times of every node.
pub type Sheet = [Times; 300];

// What the EX of an instruction may have to wait for: the sum of the highest latencies of the earlier ones that it
// contends with, and the largest highest latency of the later ones, less 1.
#[derive(Clone, Copy, Default)]
pub struct Weight {
    pub earlier: u32,
    pub later: u32,
}

// What times rest on beside the edges: the latencies, and for each instruction the earlier ones that it contends with
// and is not known to be apart from, and what they weigh. Where there are none the rule for EX falls away.
#[derive(Drop)]
pub struct Setting {
    pub latencies: [u8; 60],
    pub open: [Instructions; 60],
    pub weights: [Weight; 60],
}

impl Times {
    // The times as the tables hold them.
    pub fn numbers(self) -> [u16; 3] {
        [short(self.ready), short(self.start), short(self.finish)]
    }
}

fn short(x: u32) -> u16 {
    (x % 65536) as u16
}

// The largest finish among the EX of a set.
fn largest_finish(sheet: &Sheet, set: Instructions) -> u32 {
    let finishes = set.members().map(|v| sheet[v.place()].finish);
    finishes.max().unwrap_or(0)
}

// When a node starts, being ready at a given time.
fn start_of(sheet: &Sheet, setting: &Setting, v: Node, ready: u32) -> u32 {
    if !v.is_ex() {
        return ready;
    }
    let i = v.instruction();
    let weight = setting.weights[i];
    let blocked = ready.saturating_add(weight.later);
    let all = blocked.saturating_add(weight.earlier);
    all.min(blocked.max(largest_finish(sheet, setting.open[i])))
}

// The times of a node that is ready at a given time.
fn times_from(sheet: &Sheet, setting: &Setting, v: Node, ready: u32) -> Times {
    let start = start_of(sheet, setting, v, ready);
    let latency = latency_of(&setting.latencies, v);
    Times {
        ready,
        start,
        finish: start.saturating_add(latency),
    }
}

// Carries the time of an edge's first node to its second; gives whether the second's finish changed.
fn relax(sheet: &mut Sheet, setting: &Setting, e: &Edge) -> bool {
    let from = sheet[e.from.place()];
    let carried = match e.sort {
        Sort::Start => from.start,
        Sort::Finish => from.finish,
    };
    let old = sheet[e.to.place()];
    let new = times_from(sheet, setting, e.to, old.ready.max(carried));
    sheet[e.to.place()] = new;
    new.finish != old.finish
}

// One sweep over the edges; gives whether a time changed.
fn sweep(sheet: &mut Sheet, edges: &Edges, setting: &Setting) -> bool {
    let mut changed = false;
    for e in edges.iter().flatten() {
        if relax(sheet, setting, e) {
            changed = true;
        }
    }
    changed
}

// All ready at 0.
fn at_once(latencies: &[u8; 60]) -> Sheet {
    from_fn(|k| Times {
        ready: 0,
        start: 0,
        finish: latency_of(latencies, Node::at(k)),
    })
}

// The times, once no sweep changes one.
pub fn relaxed(edges: &Edges, setting: &Setting) -> Sheet {
    let mut sheet = at_once(&setting.latencies);
    repeated(302, || sweep(&mut sheet, edges, setting));
    sheet
}

// The earliest times: the lowest latencies, and no contention.
pub fn earliest(b: &Block, edges: &Edges) -> Sheet {
    let setting = Setting {
        latencies: column(b, |e| e.lo),
        open: [Instructions::default(); 60],
        weights: [Weight::default(); 60],
    };
    relaxed(edges, &setting)
}
