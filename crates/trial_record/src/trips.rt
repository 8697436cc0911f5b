// Made blocks there and back, and spoiled ones beside the second opinion.
use crate::changes::Tally;
use crate::judge::{agrees, opinion_of, record_of};
use reader::read;
use record::{Block, Reason};
use trial_blocks::made::{block, spoiled};
use trial_blocks::seed::Seed;
use trial_blocks::show::{count, print};
use writer::write;

// The block that comes back from the record that the writer makes of a block.
fn block_back(b: Block) -> Result<Block, Reason> {
    let mut out = [0u8; 512];
    write(b, &mut out)?;
    read(&out)
}

// The bytes that come back, through reader and writer, from those of another encoder.
fn bytes_back(s: &[u8; 512]) -> Result<[u8; 512], Reason> {
    let mut out = [0u8; 512];
    write(read(s)?, &mut out)?;
    Ok(out)
}

// Whether the writer answers as the second opinion on the block's bytes, and leaves the output alone at a refusal.
fn write_judged(b: Block) -> bool {
    let s = record_of(b);
    let opinion = opinion_of(&s);
    let mut out = [170u8; 512];
    let wanted = if opinion.is_none() { s } else { out };
    agrees(write(b, &mut out), opinion) && out == wanted
}

fn good() {
    let mut seed = Seed(1);
    let mut blocks = 0usize;
    let mut bytes = 0usize;
    for _ in 0..400 {
        let b = block(seed);
        if block_back(b) == Ok(b) {
            blocks = blocks.saturating_add(1);
        }
        let s = record_of(b);
        if bytes_back(&s) == Ok(s) {
            bytes = bytes.saturating_add(1);
        }
        seed = Seed(u64::from(b.number)).next();
    }
    count("made blocks", 400);
    count("  blocks that came back", blocks);
    count("  records that came back", bytes);
}

fn bad() {
    let mut seed = Seed(2);
    let mut writes = 0usize;
    let mut tally = Tally::default();
    for _ in 0..2000 {
        let b = spoiled(block(seed), seed.next().next());
        if write_judged(b) {
            writes = writes.saturating_add(1);
        }
        tally.judge(&record_of(b));
        seed = seed.next();
    }
    count("spoiled blocks", 2000);
    count("  written or refused as the second opinion says", writes);
    print(tally);
}

pub fn run() {
    good();
    bad();
}
