// The check, and numbers of four bytes.
ghost use Rattle.std.specs.Prelude.{◌≡◌, ◌+◌, ◌≤◌, ◌<◌, length};
ghost use Rattle.lists.specs.Lists.{put};
ghost use Rattle.lists.specs.Bytes.{little, bytes};
ghost use Rattle.record.specs.Check.{check_of};

// The check of a record's first 508 bytes.
pub fn check_of(s: &[u8]) -> u32
    requires { 508 ≤ length s.now }
    ensures { result ≡ check_of s.now }
{
    let mut a: u32 = 0;
    let mut b: u32 = 0;
    for word in s[..508].as_chunks::<2>().0 {
        a = (a + u32::from(u16::from_le_bytes(*word))) % 65535;
        b = (b + a) % 65535;
    }
    b * 65536 + a
}

// The little-endian number of four bytes.
pub fn four_at(s: &[u8], i: usize) -> u32
    requires { i + 4 ≤ length s.now }
    ensures { result ≡ little 4 s.now i }
{
    u32::from_le_bytes([s[i], s[i + 1], s[i + 2], s[i + 3]])
}

// Puts the check of the first 508 bytes behind them.
pub fn seal(out: &mut [u8])
    requires { length out.old ≡ 512 }
    ensures { out.new ≡ put out.old 508 (bytes 4 (check_of out.old)) }
{
    let x = check_of(out);
    out[508..].copy_from_slice(&x.to_le_bytes());
}
