// The rules of the header bytes and of an entry.
ghost use Rattle.std.specs.Prelude.{◌≡◌, not, ◌≤◌, length};
ghost use Rattle.lists.specs.Lists.{first_at};
ghost use Rattle.record.specs.Rules.{outside, register, kind, used_bytes, unused_bytes};
ghost use Rattle.record.specs.inside.EntryBytes.{byte_of, some_broken, wrong_entry};

use crate::Entry;

// The lowest and the highest allowed value of each header byte.
const RANGES: [(u8, u8); 28] = [
    // letters
    (b'B', b'B'),
    (b'L', b'L'),
    (b'K', b'K'),
    (b'1', b'1'),
    // n
    (1, 60),
    // Q
    (1, 16),
    // W
    (1, 32),
    // fetch, decode, commit width
    (1, 4),
    (1, 4),
    (1, 4),
    // origin
    (1, 2),
    // spare
    (0, 0),
    // block number
    (0, 255),
    (0, 255),
    (0, 255),
    (0, 255),
    // spare
    (0, 0),
    (0, 0),
    (0, 0),
    (0, 0),
    (0, 0),
    (0, 0),
    (0, 0),
    (0, 0),
    (0, 0),
    (0, 0),
    (0, 0),
    (0, 0),
];

// The first header byte outside its range, if there is one.
pub fn header_fault(s: &[u8]) -> Option<usize>
    requires { 28 ≤ length s.now }
    ensures { result ≡ first_at 0 28 (outside s.now) }
{
    s.iter()
        .zip(&RANGES)
        .position(|(x, (low, high))| (x < low) | (high < x))
}

#[tactic(auto, unfolding(crate::specs::Rules::kind))]
fn is_kind(k: u8) -> bool
    ensures { result ≡ kind k }
{
    matches!(k, 0..=3)
}

#[tactic(auto, unfolding(crate::specs::Rules::register))]
fn is_register(r: u8) -> bool
    ensures { result ≡ register r }
{
    matches!(r, 0..=63 | 255)
}

fn used_ok(e: Entry) -> bool
    ensures { not result ≡ some_broken (used_bytes (byte_of e)) }
{
    let k = is_kind(e.kind);
    let w = is_register(e.writes);
    let x = is_register(e.reads1);
    let y = is_register(e.reads2);
    k & (1 <= e.lo) & (e.lo <= e.hi) & w & x & y
}

fn unused_ok(e: Entry) -> bool
    ensures { not result ≡ some_broken (unused_bytes (byte_of e)) }
{
    e == Entry::default()
}

// Whether entry i keeps its rule where there are n instructions.
pub fn entry_ok(n: u8, i: usize, e: Entry) -> bool
    ensures { not result ≡ wrong_entry n i e }
{
    let used = i < usize::from(n);
    if used { used_ok(e) } else { unused_ok(e) }
}
