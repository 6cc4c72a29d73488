ghost use Rattle.std.specs.Prelude.{◌≡◌};
ghost use Rattle.proposal.specs.Faults.{refusal};
ghost use Rattle.proposal.specs.declared.fault.ProposalFault.TheVariants.{Check};

use listing::fault::Fault;
use refusal::{Refusal, RefusalNumber};

/// Why no order is proposed.
#[derive(Clone, Copy, PartialEq, Eq, Debug)]
pub enum ProposalFault {
    /// The words are no listing.
    Check(Fault),
    /// The listing has more than 8 blocks.
    TooManyBlocks,
    /// The buffer for the order has another length than there are blocks.
    OrderLength,
}

impl From<Fault> for ProposalFault {
    ghost from_gives = { λ fault found. found ≡ Check fault };

    fn from(fault: Fault) -> ProposalFault {
        Self::Check(fault)
    }
}

/// The number of a fault, and its place if it has one.
impl From<ProposalFault> for Refusal {
    ghost from_gives = { λ fault told. told ≡ refusal fault };

    fn from(fault: ProposalFault) -> Refusal {
        match fault {
            ProposalFault::Check(fault) => Refusal::from(fault),
            ProposalFault::TooManyBlocks => Refusal {
                number: RefusalNumber(1),
                place: None,
            },
            ProposalFault::OrderLength => Refusal {
                number: RefusalNumber(3),
                place: None,
            },
        }
    }
}
