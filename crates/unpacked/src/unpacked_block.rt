// A block unpacked, whose instructions lead nowhere outside.
ghost use Rattle.unpacked.specs.inside.UnpackedBlock.{Within};

use crate::{Instruction, Shape};

#[derive(Clone, Copy)]
pub struct UnpackedBlock {
    pub shape: Shape,
    pub instructions: [Instruction; 60],
    pub ghost within: { Within shape instructions },
}
