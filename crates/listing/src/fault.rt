ghost use Rattle.std.specs.Prelude.{◌≡◌};
ghost use Rattle.listing.specs.Faults.{refusal};

use refusal::{Place, Refusal, RefusalNumber};

/// Why the words of a file are no listing.
#[derive(Clone, Copy, PartialEq, Eq, Debug)]
pub enum Fault {
    /// Too few or too many words.
    WordCount,
    /// A bad opening word.
    Opening,
    /// Another number of words than the opening word asks for.
    Total,
    /// A bad block word.
    Block(Place),
    /// A bad wire word, or one with a block number at or above the count.
    Wire(Place),
    /// A wire word that does not rise above the one before it.
    Rise(Place),
    /// A bad closing word.
    Closing(Place),
    /// Bytes that end within a word.
    PartialWord(Place),
}

impl From<Fault> for Refusal {
    ghost from_gives = { λ fault told. told ≡ refusal fault };

    /// The number and the place of a fault.
    fn from(fault: Fault) -> Refusal {
        let (number, place) = match fault {
            Fault::WordCount => (10, Place(0)),
            Fault::Opening => (11, Place(0)),
            Fault::Total => (12, Place(0)),
            Fault::Block(place) => (13, place),
            Fault::Wire(place) => (14, place),
            Fault::Rise(place) => (15, place),
            Fault::Closing(place) => (16, place),
            Fault::PartialWord(place) => (17, place),
        };
        Refusal {
            number: RefusalNumber(number),
            place: Some(place),
        }
    }
}
