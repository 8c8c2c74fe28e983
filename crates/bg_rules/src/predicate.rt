//! Predicates: patterns that are watched for.
use crate::Pattern;
use bg_base::Label;

/// A pattern with a name, which holds of a host in which the pattern occurs.
#[derive(Debug, Drop)]
pub struct Predicate {
    pub label: Label,
    pub pattern: Pattern,
}
