// The operations of `exports` under their C names, for a program in C or Rust. Each calls the one of its name, and promises
// what that promises.
#![tactic(auto)]

ghost use Rattle.exports.specs.Doors.{ChecksBytes, RecodesBytes, AnalysesBytes, WindowsBytes, PlaysBytes, PlayLengthBytes};

// Tests a record.
#[unsafe(no_mangle)]
pub extern "C" fn bench_check(s: &[u8]) -> u32
    ensures { ChecksBytes s.now result }
{
    exports::bench_check(s)
}

// Reads a record and writes the record of what it read, to 512 bytes.
#[unsafe(no_mangle)]
pub extern "C" fn bench_recode(s: &[u8], out: &mut [u8]) -> u32
    ensures { RecodesBytes s.now out.old result out.new }
{
    exports::bench_recode(s, out)
}

// Reads a record and writes the result record of what it read, to 512 bytes.
#[unsafe(no_mangle)]
pub extern "C" fn bench_analyse(s: &[u8], out: &mut [u8]) -> u32
    ensures { AnalysesBytes s.now out.old result out.new }
{
    exports::bench_analyse(s, out)
}

// Reads a record and writes the window table of what it read, to at least 30 n numbers.
#[unsafe(no_mangle)]
pub extern "C" fn bench_windows(s: &[u8], out: &mut [u16]) -> u32
    ensures { WindowsBytes s.now out.old result out.new }
{
    exports::bench_windows(s, out)
}

// Reads a record and writes the play table of what it read under the latencies of a list, to at least 15 n numbers.
#[unsafe(no_mangle)]
pub extern "C" fn bench_play(s: &[u8], lat: &[u8], out: &mut [u16]) -> u32
    ensures { PlaysBytes s.now lat.now out.old result out.new }
{
    exports::bench_play(s, lat, out)
}

// Reads a record and writes the length of the play of what it read under the latencies of a list, to one number.
#[unsafe(no_mangle)]
pub extern "C" fn bench_play_length(s: &[u8], lat: &[u8], out: &mut u16) -> u32
    ensures { PlayLengthBytes s.now lat.now out.old result out.new }
{
    exports::bench_play_length(s, lat, out)
}
