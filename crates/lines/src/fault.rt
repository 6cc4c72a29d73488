ghost use Rattle.lines.specs.Lines.{refusal};
ghost use Rattle.std.specs.Prelude.{◌≡◌};

use refusal::{Refusal, RefusalNumber};

/// Why a line was not written.
#[derive(Clone, Copy, PartialEq, Eq, Debug)]
pub enum LineFault {
    /// The buffer holds fewer than 64 bytes.
    ShortBuffer,
}

/// The refusal that a fault is told as: number 8, with no place.
impl From<LineFault> for Refusal {
    ghost from_gives = { λ fault told. told ≡ refusal fault };

    fn from(fault: LineFault) -> Refusal {
        match fault {
            LineFault::ShortBuffer => Refusal {
                number: RefusalNumber(8),
                place: None,
            },
        }
    }
}
