/// How far a pass over the wires has come: how many wires it has passed, and how many wired pairs they make.
#[derive(Clone, Copy)]
pub(crate) struct Passed {
    pub(crate) wires: usize,
    pub(crate) pairs: usize,
}

impl Passed {
    /// A pass that has not begun.
    pub(crate) const NONE: Passed = Passed { wires: 0, pairs: 0 };
}
