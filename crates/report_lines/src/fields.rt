// An output and its fields: each is put behind the one before.
ghost use Rattle.std.specs.Prelude.{[], ◌∷◌, ◌++◌, length};
ghost use Rattle.report_lines.specs.Text.{decimal};
ghost use Rattle.report_lines.specs.inside.TextSteps.{Adds, Room};

// An output, and the place behind what was put into it.
#[derive(Drop)]
pub struct Output<'a> {
    pub bytes: &'a mut [u8],
    pub at: usize,
}

impl Output<'_> {
    // Puts a text.
    pub fn text(&mut self, text: &[u8])
        requires { Room self.old (length text.now) }
        ensures { Adds text.now (length text.now) self.old self.new }
    {
        let end = self.at + text.len();
        self.bytes[self.at..end].copy_from_slice(text);
        self.at = end;
    }

    // Puts a number in decimal and the byte that ends its field.
    pub fn number(&mut self, x: u64, end: u8)
        requires { Room self.old 21 }
        ensures { Adds (decimal x ++ (end ∷ [])) 21 self.old self.new }
    {
        let mut digits = [0u8; 20];
        let k = io::decimal(x, &mut digits);
        self.text(&digits[..k]);
        self.text(&[end]);
    }
}
