// The bench's operations for a program in C or Rust, from a record's bytes on: numbers and slices alone. Each hands back a
// refusal as number × 65536 + place, and 0 where it accepts; at a refusal nothing is written. `exports_c` gives them to C.
#![tactic(auto)]

ghost use Rattle.std.specs.Prelude.{◌≡◌, ◌<◌};
ghost use Rattle.record.specs.Refusals.{number_of, place_of, meaning};
ghost use Rattle.exports.specs.Doors.{coded, ChecksBytes, RecodesBytes, AnalysesBytes, WindowsBytes, PlaysBytes, PlayLengthBytes};

use record::Reason;

// A refusal's number and place as one number.
fn refused(r: Reason) -> u32
    requires { place_of r < 65536 }
    ensures { result ≡ coded (number_of r, place_of r) }
{
    let number = record::number_of(r);
    let place = record::place_of(r);
    u32::from(number) * 65536 + place as u32
}

// The same of an answer, 0 where it accepts.
fn one_number(a: Result<(), Reason>) -> u32
    requires { (meaning a).1 < 65536 }
    ensures { result ≡ coded (meaning a) }
{
    match a {
        Ok(()) => 0,
        Err(r) => refused(r),
    }
}

// Tests a record.
pub fn bench_check(s: &[u8]) -> u32
    ensures { ChecksBytes s.now result }
{
    match reader::read(s) {
        Ok(_) => 0,
        Err(r) => refused(r),
    }
}

// Reads a record and writes the record of what it read, to 512 bytes.
pub fn bench_recode(s: &[u8], out: &mut [u8]) -> u32
    ensures { RecodesBytes s.now out.old result out.new }
{
    match reader::read(s) {
        Ok(b) => one_number(writer::write(b, out)),
        Err(r) => refused(r),
    }
}

// Reads a record and writes the result record of what it read, to 512 bytes.
pub fn bench_analyse(s: &[u8], out: &mut [u8]) -> u32
    ensures { AnalysesBytes s.now out.old result out.new }
{
    match reader::read(s) {
        Ok(b) => one_number(analysis::analyse(b, out)),
        Err(r) => refused(r),
    }
}

// Reads a record and writes the window table of what it read, to at least 30 n numbers.
pub fn bench_windows(s: &[u8], out: &mut [u16]) -> u32
    ensures { WindowsBytes s.now out.old result out.new }
{
    match reader::read(s) {
        Ok(b) => one_number(analysis::windows(b, out)),
        Err(r) => refused(r),
    }
}

// Reads a record and writes the play table of what it read under the latencies of a list, to at least 15 n numbers.
pub fn bench_play(s: &[u8], lat: &[u8], out: &mut [u16]) -> u32
    ensures { PlaysBytes s.now lat.now out.old result out.new }
{
    match reader::read(s) {
        Ok(b) => one_number(play::play(b, lat, out)),
        Err(r) => refused(r),
    }
}

// Reads a record and writes the length of the play of what it read under the latencies of a list, to one number.
pub fn bench_play_length(s: &[u8], lat: &[u8], out: &mut u16) -> u32
    ensures { PlayLengthBytes s.now lat.now out.old result out.new }
{
    match reader::read(s) {
        Ok(b) => match play::play_length(b, lat) {
            Ok(cycles) => {
                *out = cycles;
                0
            }
            Err(r) => refused(r),
        },
        Err(r) => refused(r),
    }
}
