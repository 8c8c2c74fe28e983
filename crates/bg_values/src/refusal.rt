//! Why a model is refused while its values are found.
ghost use Rattle.std.specs.Prelude.{◌≡◌};

use bg_lists::OutOfMemory;
use std::alloc::{AllocError, AllocFailed};
use thiserror::Error;

/// The limits of the profile.
#[derive(Clone, Copy, Debug, PartialEq, Eq)]
pub enum LimitWord {
    Arity,
    Controls,
    Values,
    Nodes,
    Edges,
    Places,
    Terms,
    Depth,
    Rules,
    Preds,
}

/// Why a model is refused.
#[derive(Clone, Copy, Debug, PartialEq, Eq)]
pub enum Cause {
    /// A composition of bigraphs whose faces differ.
    FacesDiffer,
    /// A tensor product of bigraphs with a name in common.
    NamesMeet,
    /// A product of bigraphs with an inner name in common.
    InnerNamesMeet,
    /// A nesting of bigraphs whose widths differ.
    WidthsDiffer,
    /// A nesting in a bigraph with inner names.
    HasInnerNames,
    /// A token that cannot stand there.
    Unexpected,
    /// No visible definition.
    UnknownName,
    /// A name defined twice in one space, or a formal twice.
    DuplicateName,
    /// The number of names is not the arity.
    WrongPorts,
    /// An atom written on the left of a dot.
    AtomicHasChild,
    /// The number of arguments is not the number of formals.
    WrongArguments,
    /// A site or an inner name in the bigraph of `init`.
    NotGround,
    /// Sides of a rule that differ.
    SidesDiffer,
    /// A map of a rule that does not fit.
    BadMap,
    /// A pattern of which that clause fails.
    NotSolid(u8),
    /// A number out of range.
    NumberOverflow,
    /// A division by zero.
    ZeroDivisor,
    /// More than that limit allows.
    TooLarge(LimitWord),
    /// No block.
    NoBlock,
    /// A range whose step is below 1, or that begins behind its end.
    EmptyRange,
    /// A text where a number is needed.
    WrongKind,
}

impl Cause {
    ghost use Rattle.std.specs.Prelude.{◌≡◌};
    ghost use Rattle.bg_values.specs.Codes as codes;

    /// The number of the cause, as commands write it.
    pub fn code(self) -> u8
        ensures { result ≡ codes.code self }
    {
        match self {
            Cause::FacesDiffer => 11,
            Cause::NamesMeet => 13,
            Cause::InnerNamesMeet => 14,
            Cause::WidthsDiffer => 15,
            Cause::HasInnerNames => 17,
            Cause::Unexpected => 31,
            Cause::UnknownName => 41,
            Cause::DuplicateName => 42,
            Cause::WrongPorts => 43,
            Cause::AtomicHasChild => 44,
            Cause::WrongArguments => 45,
            Cause::NotGround => 46,
            Cause::SidesDiffer => 47,
            Cause::BadMap => 48,
            Cause::NotSolid(_) => 49,
            Cause::NumberOverflow => 50,
            Cause::ZeroDivisor => 51,
            Cause::TooLarge(_) => 52,
            Cause::NoBlock => 53,
            Cause::EmptyRange => 54,
            Cause::WrongKind => 55,
        }
    }
}

/// A refusal: why, and at which token, counted from 0; the number of tokens stands for the end of input.
#[derive(Clone, Copy, Debug, PartialEq, Eq)]
pub struct Refusal {
    pub cause: Cause,
    pub token: u32,
}

impl Refusal {
    /// The refusal for that cause, at that token.
    pub fn new(cause: Cause, token: u32) -> Refusal
        ensures { result ≡ record { cause = cause; token = token } }
    {
        Refusal { cause, token }
    }
}

/// Why a call gives no value.
#[derive(Clone, Copy, Debug, PartialEq, Eq, Error)]
pub enum Stop {
    /// The model is refused.
    #[error("the model is refused")]
    Refused(Refusal),
    /// There was no memory.
    #[error("out of memory")]
    OutOfMemory,
}

impl Stop {
    /// The refusal with that cause, at that token.
    pub fn refuse(cause: Cause, token: u32) -> Stop
        ensures { result ≡ Stop.Refused (record { cause = cause; token = token }) }
    {
        Stop::Refused(Refusal { cause, token })
    }
}

impl From<Refusal> for Stop {
    ghost use Rattle.bg_values.specs.declared.refusal.Stop.TheVariants.{Refused};

    ghost from_gives = { λ refusal stop. stop ≡ Refused refusal };

    fn from(refusal: Refusal) -> Stop {
        Stop::Refused(refusal)
    }
}

impl From<OutOfMemory> for Stop {
    ghost use Rattle.bg_values.specs.declared.refusal.Stop.TheVariants.{OutOfMemory};

    ghost from_gives = { λ _ stop. stop ≡ OutOfMemory };

    fn from(_: OutOfMemory) -> Stop {
        Stop::OutOfMemory
    }
}

impl From<AllocError> for Stop {
    ghost use Rattle.bg_values.specs.declared.refusal.Stop.TheVariants.{OutOfMemory};

    ghost from_gives = { λ _ stop. stop ≡ OutOfMemory };

    fn from(_: AllocError) -> Stop {
        Stop::OutOfMemory
    }
}

impl<T: Drop> From<AllocFailed<T>> for Stop {
    ghost use Rattle.bg_values.specs.declared.refusal.Stop.TheVariants.{OutOfMemory};

    ghost from_gives = { λ _ stop. stop ≡ OutOfMemory };

    fn from(_: AllocFailed<T>) -> Stop {
        Stop::OutOfMemory
    }
}
