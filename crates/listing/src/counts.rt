/// How many blocks a listing has at most.
pub const MOST_BLOCKS: usize = 192;

/// How many wires a listing has at most.
pub const MOST_WIRES: usize = 1024;

/// How many words the shortest listing has: an opening word, a block word and a closing word.
pub const FEWEST_WORDS: usize = 3;

/// How many words the longest listing has.
pub const MOST_WORDS: usize = MOST_BLOCKS + MOST_WIRES + 2;

/// How many blocks and how many wires a listing has.
#[derive(Clone, Copy, PartialEq, Eq, Debug)]
pub struct Counts {
    pub blocks: usize,
    pub wires: usize,
}
