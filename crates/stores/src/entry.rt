use sets::Set;

/// One entry of a row: the block that wires run to, and the set of their types.
#[derive(Clone, Copy, PartialEq, Eq, Debug)]
pub struct Entry {
    pub to: u16,
    pub types: Set,
}
