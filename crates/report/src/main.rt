// Reports on the block records on standard input: a header, then a line for each record. The lines come from `report_lines`, for
// a piece of 65,536 bytes at a time; here they are read and written.
#![tactic(auto)]

use std::io::Read;

// The process's own three files, by number.
const INPUT: i32 = 0;

const OUTPUT: i32 = 1;

const ERRORS: i32 = 2;

// Why a report ends early.
#[derive(Clone, Copy)]
enum Trouble {
    Output,
    Input,
    Length,
}

// Says so.
fn complain(trouble: Trouble) {
    let what: &[u8] = match trouble {
        Trouble::Output => b"report: the output broke off\n",
        Trouble::Input => b"report: the input broke off\n",
        Trouble::Length => b"report: what follows 281474976645120 bytes was not read\n",
    };
    io::write_all(ERRORS, what);
}

// Writes a text.
fn print(text: &[u8]) -> Result<(), Trouble> {
    if io::write_all(OUTPUT, text) {
        Ok(())
    } else {
        Err(Trouble::Output)
    }
}

// Whether the input has ended after a piece that came short: else a read fails or gives bytes after all.
fn end(rt: &HostRuntime) -> Result<(), Trouble> {
    let mut byte = [0u8; 1];
    match rt.stdin().read(&mut byte) {
        Ok(0) => Ok(()),
        _ => Err(Trouble::Input),
    }
}

fn room() -> [u8; 16384] {
    [0; 16384]
}

// Reads a piece and writes its lines. Gives whether another may follow.
fn piece_on(rt: &HostRuntime, piece: u32) -> Result<bool, Trouble> {
    let mut bytes = io::large_buffer();
    let got = io::read_full(INPUT, &mut bytes);
    let mut text = room();
    let n = report_lines::lines_into(&bytes[..got], piece, &mut text);
    print(&text[..n])?;
    if got < 65536 {
        end(rt)?;
        return Ok(false);
    }
    Ok(true)
}

fn report(rt: &HostRuntime) -> Result<(), Trouble> {
    print(&report_lines::header())?;
    for piece in 0..u32::MAX {
        if !piece_on(rt, piece)? {
            return Ok(());
        }
    }
    Err(Trouble::Length)
}

fn main(rt: HostRuntime) {
    if let Err(trouble) = report(&rt) {
        complain(trouble);
    }
}
