//! Conditions of rules.
use crate::Pattern;

/// Where a condition looks for its pattern.
#[derive(Clone, Copy, Debug, PartialEq, Eq)]
pub enum Side {
    /// In the context of the occurrence.
    Ctx,
    /// In its parameter.
    Param,
}

/// A condition of a rule: the pattern occurs on that side of an occurrence of the redex, or, where the condition is not
/// positive, it does not.
#[derive(Debug, Drop)]
pub struct Condition {
    pub positive: bool,
    pub side: Side,
    pub pattern: Pattern,
}
