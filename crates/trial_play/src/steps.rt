// Walks from state to state.
use play::{PlayState, RefusedCycle};
use record::Block;
use trial_blocks::show::Answered;
use trial_blocks::sums::{FILLED, sum_numbers, summed};

// The start of a node that has not started.
const NOT_STARTED: u16 = 65535;

// The sum with a state's cycle number and its starts.
pub fn sum_state(sum: u64, p: &PlayState) -> u64 {
    sum_numbers(summed(sum, p.t), &p.starts)
}

// What a cycle answered.
pub fn answer_of(cycle: Result<PlayState, RefusedCycle>) -> Answered {
    Answered(cycle.map(|_| ()).map_err(|refused| refused.reason))
}

// The state after a cycle: the next one, or at a refusal the one that comes back.
pub fn state_after(cycle: &Result<PlayState, RefusedCycle>) -> PlayState {
    match cycle {
        Ok(state) => *state,
        Err(refused) => refused.state,
    }
}

// Where a walk ends, after how many cycles, and the sum with all states on the way.
#[derive(Clone, Copy)]
pub struct Reached {
    pub state: PlayState,
    pub cycles: usize,
    pub sum: u64,
}

// One cycle after the other until CM of the last instruction, node 5 n - 1, has started; at most so many.
pub fn walk(p: PlayState, b: Block, latencies: &[u8], most: usize, sum: u64) -> Reached {
    let last = (5 * usize::from(b.n) + 299) % 300;
    let mut reached = Reached {
        state: p,
        cycles: 0,
        sum,
    };
    for k in 0..most {
        reached.state = state_after(&reached.state.cycle(b, latencies));
        reached.cycles = k + 1;
        reached.sum = sum_state(reached.sum, &reached.state);
        if reached.state.starts[last] != NOT_STARTED {
            break;
        }
    }
    reached
}

// Where so many cycles lead, whatever has started, and how many of them were accepted.
#[derive(Clone, Copy)]
pub struct Stepped {
    pub state: PlayState,
    pub accepted: usize,
}

// As many cycles as asked for, one after the other.
pub fn steps(p: PlayState, b: Block, latencies: &[u8], cycles: usize) -> Stepped {
    let mut stepped = Stepped {
        state: p,
        accepted: 0,
    };
    for _ in 0..cycles {
        let cycle = stepped.state.cycle(b, latencies);
        if cycle.is_ok() {
            stepped.accepted = stepped.accepted.saturating_add(1);
        }
        stepped.state = state_after(&cycle);
    }
    stepped
}

// Whether a state's starts are those of a play table, and beyond it nothing has started and its numbers are as they
// were filled in.
pub fn same_starts(p: &PlayState, table: &[u16; 900]) -> bool {
    let starts = table.iter().skip(1).step_by(3);
    p.starts
        .iter()
        .zip(starts)
        .all(|(x, y)| x == y || (*x == NOT_STARTED && *y == FILLED))
}
