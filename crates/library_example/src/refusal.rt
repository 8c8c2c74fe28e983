//! Why the example comes to nothing.
use bg_algebra::AlgebraFault;
use bg_base::{CheckFault, SignatureFault};
use bg_lists::OutOfMemory;
use bg_rules::{ListFault, ReactFault, RuleFault};
use thiserror::Error;

/// Each refusal of a call, as the crate of the call tells it; `?` turns it into one of these. With the bigraphs of this
/// example it can come for want of memory alone; with others each may.
#[derive(Clone, Copy, Debug, PartialEq, Eq, Error)]
pub enum Refusal {
    #[error("a label is no word")]
    NotAWord,
    #[error("signature: {0}")]
    Signature(#[from] SignatureFault),
    #[error("algebra: {0}")]
    Algebra(#[from] AlgebraFault),
    #[error("redex: clause {0} of a solid bigraph fails")]
    NotSolid(u8),
    #[error("rule: {0}")]
    Rule(#[from] RuleFault),
    #[error("occurrences: {0}")]
    List(#[from] ListFault),
    #[error("the redex does not occur")]
    NoOccurrence,
    #[error("reaction: {0}")]
    React(#[from] ReactFault),
    #[error("listing: {0}")]
    Check(#[from] CheckFault),
    #[error(transparent)]
    Memory(#[from] OutOfMemory),
}
