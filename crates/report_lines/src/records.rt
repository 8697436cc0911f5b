// The line of a record, and the lines of a piece of an archive.
ghost use Rattle.std.specs.Prelude.{◌≡◌, ◌∷◌, ◌+◌, ◌*◌, ◌≤◌, min, length, take};
ghost use Rattle.io.specs.Counts.{IsPrefixLen};
ghost use Rattle.lists.specs.Bytes.{ascii};
ghost use Rattle.report_lines.specs.Promises.{PutsText};
ghost use Rattle.report_lines.specs.Report.{header as header_text, letter, summary_line, refusal_line, line, lines_from};
ghost use Rattle.report_lines.specs.inside.TextSteps.{Adds, Room, counts_text};

use crate::fields::Output;
use analysis::Summary;

// The header with its line end.
pub fn header() -> [u8; 40]
    ensures { result ≡ header_text }
{
    *b"block origin n bound rounds pairs apart\n"
}

fn letter_of(origin: u8) -> u8
    ensures { result ≡ letter origin }
{
    if origin == 1 { b'C' } else { b'P' }
}

impl Output<'_> {
    // Puts the letter of an origin and a space.
    fn origin(&mut self, origin: u8)
        requires { Room self.old 2 }
        ensures { Adds (letter origin ∷ ascii " ") 2 self.old self.new }
    {
        self.text(&[letter_of(origin), b' ']);
    }

    // Puts bound, rounds, pairs and pairs apart.
    fn counts(&mut self, s: Summary)
        requires { Room self.old 84 }
        ensures { Adds (counts_text s) 84 self.old self.new }
    {
        self.number(u64::from(s.bound), b' ');
        self.number(u64::from(s.rounds), b' ');
        self.number(u64::from(s.pairs), b' ');
        self.number(u64::from(s.apart), b'\n');
    }

    // Puts the line of what an analysis says.
    fn summary_line(&mut self, s: Summary)
        requires { Room self.old 128 }
        ensures { Adds (summary_line s) 128 self.old self.new }
    {
        self.number(u64::from(s.number), b' ');
        self.origin(s.origin);
        self.number(u64::from(s.n), b' ');
        self.counts(s);
    }

    // Puts the line of a refusal.
    fn refusal(&mut self, index: u64, number: u8)
        requires { Room self.old 53 }
        ensures { Adds (refusal_line index number) 53 self.old self.new }
    {
        self.text(b"at ");
        self.number(index, b' ');
        self.text(b"refused ");
        self.number(u64::from(number), b'\n');
    }

    // Puts the line of a byte string as the record at an index.
    fn line(&mut self, s: &[u8], index: u64)
        requires { Room self.old 128 }
        ensures { Adds (line index s.now) 128 self.old self.new }
    {
        match reader::read(s) {
            Ok(block) => self.summary_line(analysis::summary_of(block)),
            Err(reason) => self.refusal(index, record::number_of(reason)),
        }
    }
}

// Puts the line of a byte string, as the record at an index, at the start of out, and gives its length.
pub fn line_into(s: &[u8], index: u64, out: &mut [u8; 128]) -> usize
    ensures puts_text { PutsText (line index s.now) out.old result out.new }
    ensures prefix_len { IsPrefixLen result out.new }
{
    let mut text = Output { bytes: out, at: 0 };
    text.line(s, index);
    text.at
}

// Puts the lines of a piece, one of those that an archive is read in.
fn piece_into(s: &[u8], piece: u32, out: &mut [u8; 16384]) -> usize
    requires { length s.now ≤ 65536 }
    ensures { PutsText (lines_from (128 * piece) s.now) out.old result out.new }
{
    let first = 128 * u64::from(piece);
    let mut text = Output { bytes: out, at: 0 };
    for (k, record) in s.chunks(512).enumerate() {
        text.line(record, first + k as u64);
    }
    text.at
}

// Puts the lines of the first 65,536 bytes of s at the start of out, and gives their length. Before s there are `piece`
// pieces of 65,536 bytes, so 128 records each.
pub fn lines_into(s: &[u8], piece: u32, out: &mut [u8; 16384]) -> usize
    ensures puts_text { PutsText (lines_from (128 * piece) (take 65536 s.now)) out.old result out.new }
    ensures prefix_len { IsPrefixLen result out.new }
{
    let n = s.len().min(65536);
    piece_into(&s[..n], piece, out)
}
