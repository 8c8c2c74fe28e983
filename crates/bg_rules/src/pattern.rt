//! Patterns: what a redex, a condition or a predicate may be.
ghost use Rattle.std.specs.Prelude.{◌≡◌, IsTrue, None, Some, IfOk, IfErr};
ghost use Rattle.std.specs.List.{All};
ghost use Rattle.bg_base.specs.declared.names.Link.TheVariants.{Edge};
ghost use Rattle.bg_base.specs.Bigraph.{IsValid};
ghost use Rattle.bg_base.specs.Products.{has_point};
ghost use Rattle.bg_rules.specs.Solid.{IsPattern, unsolid_clause};

use crate::first_unsolid;
use bg_base::Big;
use bg_lists::{Duplicate, Mem};
use std::alloc::Global;
use std::marker::Model;

/// A pattern: a bigraph that is valid and solid and has no idle edge. A contract sees the bigraph.
#[derive(Debug, Drop)]
pub struct Pattern {
    big: Big,
}

impl Model for Pattern {
    ghost use Rattle.bg_base.specs.declared.big.Big.{Big};
    ghost use Rattle.bg_rules.specs.Solid.{IsPattern};

    ghost Value = { Big };

    ghost view = { λ pattern. pattern.big };

    ghost invariant = { λ pattern. IsPattern pattern.big };
}

/// A bigraph that is no pattern, and the least clause of a solid bigraph that fails: see [`first_unsolid`].
#[derive(Debug, Drop)]
pub struct NotSolid {
    pub clause: u8,
    pub big: Big,
}

impl Pattern {
    /// The pattern that the bigraph is, where it is solid; else the bigraph comes back. Takes no memory, and the time
    /// of [`first_unsolid`].
    pub fn new(big: Big) -> Result<Pattern, NotSolid>
        requires valid { IsValid big }
        requires edges_used { All (λ edge. IsTrue (has_point big (Edge edge))) big.edges }
        ensures solid { IfOk result (λ pattern. unsolid_clause big ≡ None) }
        ensures pattern { IfOk result (λ pattern. pattern ≡ big) }
        ensures clause { IfErr result (λ fault. unsolid_clause big ≡ Some fault.clause) }
        ensures given_back { IfErr result (λ fault. fault.big ≡ big) }
    {
        match first_unsolid(&big) {
            None => Ok(Pattern { big }),
            Some(clause) => Err(NotSolid { clause, big }),
        }
    }

    /// The pattern that a solid bigraph is, which is not tested again: see [`unsolid_clause`](crate::unsolid_clause).
    /// Takes no memory and constant time.
    pub fn from_solid(big: Big) -> Pattern
        requires { IsPattern big }
        ensures { result ≡ big }
    {
        Pattern { big }
    }

    /// The bigraph.
    pub fn big(&self) -> &Big
        ensures same { result.now ≡ self.now }
        ensures kept { IsPattern self.now }
    {
        &self.big
    }
}

impl Duplicate for Pattern {
    fn copy(&self, alloc: Global) -> Mem<Pattern> {
        Ok(Pattern {
            big: self.big.copy(alloc)?,
        })
    }
}
