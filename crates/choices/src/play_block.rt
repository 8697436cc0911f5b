// A block as its play asks for it, whose numbers lead nowhere outside the notes.
ghost use Rattle.choices.specs.inside.InstructionRows.{Kinds};
ghost use Rattle.choices.specs.inside.NoteSteps.{Narrow};

use crate::Row;
use unpacked::Shape;

// The header's numbers, and the rows of the instructions.
#[derive(Clone, Copy)]
pub struct PlayBlock {
    pub shape: Shape,
    pub rows: [Row; 60],
    pub ghost narrow: { Narrow shape },
    pub ghost kinds: { Kinds rows },
}
