//! Why an operation of the algebra gives no bigraph.
use bg_lists::OutOfMemory;
use thiserror::Error;

/// Why an operation of the algebra gives no bigraph.
#[derive(Clone, Copy, Debug, PartialEq, Eq, Error)]
pub enum AlgebraFault {
    /// The outer face of the bigraph below is not the inner face of the one above.
    #[error("the outer face of the lower bigraph is not the inner face of the upper one")]
    FacesDiffer,
    /// A node or an edge is in both bigraphs.
    #[error("a node or an edge is in both bigraphs")]
    SupportMeets,
    /// An inner name is in both bigraphs, or an outer name is.
    #[error("a name is in both bigraphs")]
    NamesMeet,
    /// An inner name is in both bigraphs.
    #[error("an inner name is in both bigraphs")]
    InnerNamesMeet,
    /// The upper bigraph has not as many sites as the lower one has regions.
    #[error("the upper bigraph has not as many sites as the lower one has regions")]
    WidthsDiffer,
    /// The bigraph has no such outer name.
    #[error("the bigraph has no such outer name")]
    NoSuchName,
    /// The upper bigraph of a nesting has an inner name.
    #[error("the upper bigraph of a nesting has an inner name")]
    HasInnerNames,
    /// There was no memory for the result, or it has more rows than 32 bits can number.
    #[error("out of memory")]
    OutOfMemory,
}

impl AlgebraFault {
    ghost use Rattle.std.specs.Prelude.{◌≡◌};
    ghost use Rattle.bg_algebra.specs.Faults.{fault_number};

    /// The number of the refusal: 11 for `FacesDiffer`, and so on in the order of the variants to 17 for
    /// `HasInnerNames`. Want of memory is no refusal and has none.
    pub fn number(&self) -> Option<u8>
        ensures { result ≡ fault_number self.now }
    {
        match self {
            AlgebraFault::FacesDiffer => Some(11),
            AlgebraFault::SupportMeets => Some(12),
            AlgebraFault::NamesMeet => Some(13),
            AlgebraFault::InnerNamesMeet => Some(14),
            AlgebraFault::WidthsDiffer => Some(15),
            AlgebraFault::NoSuchName => Some(16),
            AlgebraFault::HasInnerNames => Some(17),
            AlgebraFault::OutOfMemory => None,
        }
    }
}

impl From<OutOfMemory> for AlgebraFault {
    ghost use Rattle.std.specs.Prelude.{◌≡◌};
    ghost use Rattle.bg_algebra.specs.declared.fault.AlgebraFault.TheVariants.{OutOfMemory};

    ghost from_gives = { λ _ fault. fault ≡ OutOfMemory };

    fn from(_fault: OutOfMemory) -> AlgebraFault {
        AlgebraFault::OutOfMemory
    }
}
