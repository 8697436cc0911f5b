// The reader.
#![tactic(auto)]

ghost use Rattle.std.specs.Prelude.{◌≡◌, not, ◌<◌, length, ltb, unwrap_or};
ghost use Rattle.lists.specs.Lists.{tab, first_at};
ghost use Rattle.record.specs.Rules.{broken};
ghost use Rattle.record.specs.Layout.{entry_at, decoded};
ghost use Rattle.record.specs.Promises.{Reads};

use record::{
    Block, Entry, HI, LO, READS1, READS2, Reason, WRITES, ZERO1, ZERO2, check_of, entry_ok,
    four_at, header_fault,
};

// Entry i of a record.
fn entry_at(s: &[u8; 512], i: usize) -> Entry
    requires { i < 60 }
    ensures { result ≡ entry_at s.now i }
{
    let at = 28 + 8 * i;
    Entry {
        kind: s[at],
        lo: s[at + LO],
        hi: s[at + HI],
        writes: s[at + WRITES],
        reads1: s[at + READS1],
        reads2: s[at + READS2],
    }
}

// Whether entry i of a record keeps its rule.
fn bytes_ok(s: &[u8; 512], i: usize) -> bool
    requires { i < 60 }
    ensures { not result ≡ broken s.now i }
{
    let e = entry_at(s, i);
    let at = 28 + 8 * i;
    let ok = entry_ok(s[4], i, e);
    ok & (s[at + ZERO1] == 0) & (s[at + ZERO2] == 0)
}

// The first entry that breaks its rule, if there is one.
fn entry_fault(s: &[u8; 512]) -> Option<usize>
    ensures { result ≡ first_at 0 60 (broken s.now) }
{
    for i in 0..60 {
        if !bytes_ok(s, i) {
            return Some(i);
        }
    }
    None
}

fn entries_of(s: &[u8; 512]) -> [Entry; 60]
    ensures { result ≡ tab 60 (entry_at s.now) }
{
    let mut entries = [Entry::default(); 60];
    for (i, entry) in entries.iter_mut().enumerate() {
        *entry = entry_at(s, i);
    }
    entries
}

fn decode(s: &[u8; 512]) -> Block
    ensures { result ≡ decoded s.now }
{
    let entries = entries_of(s);
    let number = four_at(s, 12);
    Block {
        n: s[4],
        q: s[5],
        w: s[6],
        f: s[7],
        d: s[8],
        c: s[9],
        origin: s[10],
        number,
        entries,
    }
}

// Whether a header's first fault lies in the letters.
fn in_letters(fault: Option<usize>) -> bool
    ensures { result ≡ ltb (unwrap_or fault 28) 4 }
{
    fault.is_some_and(|k| k < 4)
}

// Reads a byte string of any length.
pub fn read(s: &[u8]) -> Result<Block, Reason>
    ensures { Reads s.now result }
{
    let Ok(s) = <&[u8; 512]>::try_from(s) else {
        return Err(Reason::Length);
    };
    let sum = check_of(s);
    let kept = four_at(s, 508);
    let h = header_fault(s);
    let letters = in_letters(h);
    if sum != kept {
        return Err(Reason::Check);
    }
    if letters {
        return Err(Reason::Letters);
    }
    if let Some(k) = h {
        return Err(Reason::Header(k));
    }
    if let Some(i) = entry_fault(s) {
        return Err(Reason::Rule(i));
    }
    Ok(decode(s))
}
