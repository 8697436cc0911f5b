// The blocks worked by hand. The last one of I ends before the second is ready: just so at [8,8], not at [9,9].
use crate::windows::line;
use record::Block;
use trial_blocks::blocks::{block_e, block_of, entry};

fn small() {
    let integer = entry(0, 1, 1, 255, 255);
    let multiply = entry(1, 1, 4, 255, 255);
    line("A", block_of(&[integer]));
    line("B", block_of(&[multiply]));
    line("C", block_of(&[multiply, multiply]));
    let reader = entry(1, 1, 4, 255, 1);
    line("D", block_of(&[entry(1, 1, 4, 1, 255), reader]));
}

fn middle() {
    line("E", block_e());
    let integer = entry(0, 1, 1, 255, 255);
    let multiply = entry(1, 1, 1, 255, 255);
    let last = entry(1, 1, 3, 255, 255);
    line("F", block_of(&[multiply, integer, integer, last]));
}

fn other() {
    let integer = entry(0, 1, 1, 255, 255);
    let b = block_of(&[integer, integer]);
    line(
        "G",
        Block {
            f: 2,
            d: 2,
            c: 2,
            ..b
        },
    );
    line("H", Block { w: 1, ..b });
    let i1 = entry(0, 10, 10, 1, 255);
    let i2 = entry(1, 1, 1, 255, 1);
    line("I", block_of(&[i1, i2, entry(1, 2, 2, 255, 255)]));
    line(
        "I, last [8,8]",
        block_of(&[i1, i2, entry(1, 8, 8, 255, 255)]),
    );
    line(
        "I, last [9,9]",
        block_of(&[i1, i2, entry(1, 9, 9, 255, 255)]),
    );
}

pub fn run() {
    small();
    middle();
    other();
}
