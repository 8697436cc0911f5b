// A row: instructions that an instruction may wait for, in order.
ghost use Rattle.std.specs.Prelude.{◌≤◌};
ghost use Rattle.pairs.specs.inside.RowNumbers.{Inside};

// The first `len` of the numbers count.
#[derive(Clone, Copy)]
pub struct Row {
    pub numbers: [u8; 60],
    pub len: usize,
    pub ghost few: { len ≤ 60 },
    pub ghost inside: { Inside numbers },
}

impl Row {
    ghost use Rattle.std.specs.Prelude.{◌≡◌, [], length};
    ghost use Rattle.pairs.specs.inside.PairRows.{those_of};

    // An empty row.
    pub fn new() -> Row
        ensures { those_of result ≡ [] }
    {
        Row {
            numbers: [0; 60],
            len: 0,
        }
    }

    // How many count.
    pub fn len(&self) -> usize
        ensures { (result ≡ length (those_of self.now)) × (result ≤ 60) }
    {
        self.len
    }

    // Those that count.
    pub fn those(&self) -> &[u8]
        ensures same { result.now ≡ those_of self.now }
        ensures places { (length result.now ≤ 60) × Inside result.now }
    {
        &self.numbers[..self.len]
    }
}
