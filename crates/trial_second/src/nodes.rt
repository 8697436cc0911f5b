// Nodes: five stages of each of 60 instructions.
ghost use Rattle.std.specs.Prelude.{◌<◌};

#[derive(Clone, Copy)]
pub enum Stage {
    If,
    Id,
    Ex,
    Wb,
    Cm,
}

// A node, by its place in program order: instruction by instruction, and stage by stage.
#[derive(Clone, Copy, PartialEq, Eq, PartialOrd, Ord)]
pub struct Node {
    place: u16,
    ghost inside: { place < 300 },
}

impl Node {
    pub fn new(instruction: usize, stage: Stage) -> Node
        requires { instruction < 60 }
    {
        Node {
            place: (5 * instruction + stage as usize) as u16,
        }
    }

    pub fn at(place: usize) -> Node
        requires { place < 300 }
    {
        Node {
            place: place as u16,
        }
    }

    pub fn place(self) -> usize
        ensures { result < 300 }
    {
        self.place as usize
    }

    pub fn instruction(self) -> usize
        ensures { result < 60 }
    {
        self.place() / 5
    }

    pub fn is_ex(self) -> bool {
        self.place() % 5 == Stage::Ex as usize
    }
}

// The first node of all: what the free places of a list hold.
impl Default for Node {
    fn default() -> Self {
        Node { place: 0 }
    }
}
