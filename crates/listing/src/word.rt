ghost use Rattle.std.specs.Prelude.{◌≡◌, ◌<◌};
ghost use Rattle.listing.specs.Words.{field, kind, kind_number, opening_blocks, opening_wires, wire_from, wire_to, wire_type, is_opening, is_block, is_wire, is_closing};
ghost use Rattle.listing.specs.Graphs.{leads, tag_set};

use crate::counts::{Counts, MOST_BLOCKS, MOST_WIRES};
use sets::Set;

/// What sort of word a word is, as its two highest bits say.
#[derive(Clone, Copy, PartialEq, Eq, Debug)]
pub enum Kind {
    Opening,
    Block,
    Wire,
    Closing,
}

/// One word of a listing.
#[derive(Clone, Copy, PartialEq, Eq, Debug)]
pub struct Word(pub u32);

impl Word {
    /// The kind of the word.
    pub fn kind(self) -> Kind
        ensures { kind_number result ≡ kind self.0 }
    {
        match self.0 >> 30 {
            0 => Kind::Opening,
            1 => Kind::Block,
            2 => Kind::Wire,
            _ => Kind::Closing,
        }
    }

    // The number that `width` bits hold, from bit `low` up.
    fn field(self, low: u32, width: u32) -> usize
        requires { (low < 32) × (width < 32) }
        ensures { result ≡ field low width self.0 }
    {
        ((self.0 >> low) & ((1 << width) - 1)) as usize
    }

    /// The two counts that an opening word gives.
    pub fn counts(self) -> Counts
        ensures { result ≡ record { blocks = opening_blocks self.0; wires = opening_wires self.0 } }
    {
        Counts {
            blocks: self.field(0, 16),
            wires: self.field(16, 14),
        }
    }

    /// Whether the word can open a listing.
    pub fn is_opening(self) -> bool
        ensures { result ≡ is_opening self.0 }
    {
        let counts = self.counts();
        self.kind() == Kind::Opening
            && (1..=MOST_BLOCKS).contains(&counts.blocks)
            && counts.wires <= MOST_WIRES
    }

    /// The tags that a block word gives.
    pub fn tags(self) -> Set
        ensures { result ≡ tag_set self.0 }
    {
        Set(self.0 & 0x00FF_FFFF)
    }

    /// The block that a wire word lays a wire from.
    pub fn from(self) -> usize
        ensures { result ≡ wire_from self.0 }
    {
        self.field(22, 8)
    }

    /// The block that a wire word lays a wire to.
    pub fn to(self) -> usize
        ensures { result ≡ wire_to self.0 }
    {
        self.field(14, 8)
    }

    /// The type of the wire that a wire word lays.
    pub fn wire_type(self) -> usize
        ensures { result ≡ wire_type self.0 }
    {
        self.field(0, 5)
    }

    /// Whether a wire word lays a wire from one block to another.
    pub fn leads(self, from: usize, to: usize) -> bool
        ensures { result ≡ leads from to self.0 }
    {
        self.from() == from && self.to() == to
    }

    /// Whether the word is a block's.
    pub fn is_block(self) -> bool
        ensures { result ≡ is_block self.0 }
    {
        self.kind() == Kind::Block && self.field(24, 6) == 0 && self.field(0, 24) > 0
    }

    /// Whether the word is that of a wire among so many blocks.
    pub fn is_wire(self, blocks: usize) -> bool
        ensures { result ≡ is_wire blocks self.0 }
    {
        self.kind() == Kind::Wire
            && self.field(5, 9) == 0
            && self.from() < blocks
            && self.to() < blocks
    }

    /// Whether the word closes a listing after so many words.
    pub fn is_closing(self, before: usize) -> bool
        ensures { result ≡ is_closing before self.0 }
    {
        self.kind() == Kind::Closing && self.field(0, 30) == before
    }
}
