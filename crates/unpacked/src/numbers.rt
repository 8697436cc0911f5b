// Numbers cut to 16 bits.
ghost use Rattle.std.specs.Prelude.{◌≡◌, ◌%◌};

// A time as the 16-bit number that it is.
pub fn time(x: u32) -> u16
    ensures { result ≡ x % 65536 }
{
    (x % 65536) as u16
}
