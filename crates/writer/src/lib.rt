// The tests of a block value, and the writer.
#![tactic(auto)]

ghost use Rattle.std.specs.Prelude.{◌≡◌, ◌++◌, ◌+◌, ◌≤◌, length, drop};
ghost use Rattle.lists.specs.Lists.{first_at, put};
ghost use Rattle.record.specs.Rules.{broken};
ghost use Rattle.record.specs.Layout.{head_bytes, entry_bytes, entries_bytes, encoded};
ghost use Rattle.record.specs.Promises.{Whole, TestsBlock, Writes};

use record::{Block, Entry, Reason, entry_ok, header_fault, seal};

// The header's bytes. The promise also says what every block value is: the machine tells it where a field is computed with, so
// the number is cut in two here.
fn head_bytes(b: Block) -> [u8; 28]
    ensures { (result ≡ head_bytes b) × Whole b }
{
    let [x0, x1] = ((b.number % 65536) as u16).to_le_bytes();
    let [x2, x3] = ((b.number / 65536) as u16).to_le_bytes();
    [
        b'B', b'L', b'K', b'1', b.n, b.q, b.w, b.f, b.d, b.c, b.origin, 0, x0, x1, x2, x3, 0, 0, 0,
        0, 0, 0, 0, 0, 0, 0, 0, 0,
    ]
}

// The first entry that breaks its rule, if there is one.
fn block_entry_fault(b: Block) -> Option<usize>
    ensures { result ≡ first_at 0 60 (broken (encoded b)) }
{
    for (i, e) in b.entries.iter().enumerate() {
        if !entry_ok(b.n, i, *e) {
            return Some(i);
        }
    }
    None
}

// The tests of a block value whose header bytes are known.
fn tested(b: Block, head: &[u8; 28]) -> Result<(), Reason>
    requires { (head.now ≡ head_bytes b) × Whole b }
    ensures { TestsBlock b result }
{
    if let Some(k) = header_fault(head) {
        return Err(Reason::Header(k));
    }
    match block_entry_fault(b) {
        Some(i) => Err(Reason::Rule(i)),
        None => Ok(()),
    }
}

// Tests a block value, as the writer does and every other operation that takes one.
pub fn block_answer(b: Block) -> Result<(), Reason>
    ensures { TestsBlock b result }
{
    let head = head_bytes(b);
    tested(b, &head)
}

// Puts a header in the first 28 bytes of an output.
pub fn put_head(head: &[u8], out: &mut [u8])
    requires { (length head.now ≡ 28) × (length out.old ≡ 512) }
    ensures { out.new ≡ head.now ++ drop 28 out.old }
{
    out[..28].copy_from_slice(head);
}

fn put_entry(e: Entry, at: usize, out: &mut [u8])
    requires { at + 8 ≤ length out.old }
    ensures { out.new ≡ put out.old at (entry_bytes e) }
{
    let bytes = [e.kind, e.lo, e.hi, e.writes, e.reads1, e.reads2, 0, 0];
    out[at..at + 8].copy_from_slice(&bytes);
}

fn put_entries(b: Block, out: &mut [u8])
    requires { length out.old ≡ 512 }
    ensures { out.new ≡ put out.old 28 (entries_bytes b) }
{
    for (i, e) in b.entries.iter().enumerate() {
        put_entry(*e, 28 + 8 * i, out);
    }
}

fn put_block(b: Block, head: &[u8; 28], out: &mut [u8])
    requires { (head.now ≡ head_bytes b) × (length out.old ≡ 512) }
    ensures { out.new ≡ encoded b }
{
    put_head(head, out);
    put_entries(b, out);
    seal(out);
}

// Writes the record of a block to an output of 512 bytes.
pub fn write(b: Block, out: &mut [u8]) -> Result<(), Reason>
    ensures { Writes b out.old result out.new }
{
    let head = head_bytes(b);
    tested(b, &head)?;
    if out.len() != 512 {
        return Err(Reason::Output);
    }
    put_block(b, &head, out);
    Ok(())
}
