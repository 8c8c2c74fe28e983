//! Why a call of this crate, or of one above it, gives no result.
use bg_lists::OutOfMemory;
use thiserror::Error;

/// Why the parts make no rule.
#[derive(Clone, Copy, Debug, PartialEq, Eq, Error)]
pub enum RuleFault {
    /// The regions or the outer names of redex and reactum differ, or the reactum has an inner name.
    #[error("the sides of the rule have other regions or names")]
    SidesDiffer,
    /// The map has not an entry for each site of the reactum, or an entry is no site of the redex.
    #[error("the map does not lead from the sites of the reactum to those of the redex")]
    BadMap,
}

impl RuleFault {
    ghost use Rattle.std.specs.Prelude.{◌≡◌};
    ghost use Rattle.bg_rules.specs.Faults.{fault_number};

    /// The number of the refusal: 47 for `SidesDiffer`, 48 for `BadMap`.
    pub fn number(&self) -> u8
        ensures { result ≡ fault_number self.now }
    {
        match self {
            RuleFault::SidesDiffer => 47,
            RuleFault::BadMap => 48,
        }
    }
}

/// Why a reaction does not take place.
#[derive(Clone, Copy, Debug, PartialEq, Eq, Error)]
pub enum ReactFault {
    /// The host would have more than 65,536 nodes or edges, or a counter above 2,147,483,648.
    #[error("the host would be too large")]
    Full,
    /// There was no memory for the result.
    #[error("out of memory")]
    OutOfMemory,
}

/// Why there is no list of occurrences.
#[derive(Clone, Copy, Debug, PartialEq, Eq, Error)]
pub enum ListFault {
    /// There are more occurrences than were asked for.
    #[error("there are too many occurrences")]
    TooMany,
    /// There was no memory for the list.
    #[error("out of memory")]
    OutOfMemory,
}

impl From<OutOfMemory> for ReactFault {
    ghost use Rattle.std.specs.Prelude.{◌≡◌};
    ghost use Rattle.bg_rules.specs.declared.fault.ReactFault.TheVariants.{OutOfMemory};

    ghost from_gives = { λ _ fault. fault ≡ OutOfMemory };

    fn from(_fault: OutOfMemory) -> ReactFault {
        ReactFault::OutOfMemory
    }
}

impl From<OutOfMemory> for ListFault {
    ghost use Rattle.std.specs.Prelude.{◌≡◌};
    ghost use Rattle.bg_rules.specs.declared.fault.ListFault.TheVariants.{OutOfMemory};

    ghost from_gives = { λ _ fault. fault ≡ OutOfMemory };

    fn from(_fault: OutOfMemory) -> ListFault {
        ListFault::OutOfMemory
    }
}
