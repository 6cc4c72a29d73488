/// The number of a pattern block.
#[derive(Clone, Copy, PartialEq, Eq, Debug)]
pub struct PatternBlock(pub usize);

/// The number of a program block.
#[derive(Clone, Copy, PartialEq, Eq, Debug)]
pub struct ProgramBlock(pub usize);
