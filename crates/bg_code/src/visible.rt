//! What an expression is read in.
ghost use Rattle.std.specs.Prelude.{◌≡◌};
ghost use Rattle.bg_terms.specs.Trees as definition;
ghost use Rattle.bg_code.specs.Lowering as lowering;

use bg_base::Kind;
use bg_terms::ControlEntry;
use bg_values::{Cause, FoundName, NameTable, Refusal, Scope};
use std::marker::Model;

/// What is visible in an expression: the text with its tokens and the formals, the controls, and the bigraphs with how
/// many formals each has.
#[derive(Drop)]
pub struct Visible<'a> {
    pub scope: Scope<'a>,
    pub controls: &'a NameTable<ControlEntry>,
    pub bigraphs: &'a NameTable<u32>,
}

impl<'a> Model for Visible<'a> {
    ghost use Rattle.bg_terms.specs.Trees.{Visible as VisibleParts};

    ghost Value = { VisibleParts };

    ghost view = { λ visible. record { scope = visible.scope; controls = visible.controls.now; bigraphs = visible.bigraphs.now } };
}

/// The control that the token names, or `UnknownName` (41).
pub(crate) fn control_at<'a>(
    visible: &'a Visible,
    token: u32,
) -> Result<FoundName<'a, ControlEntry>, Refusal>
    ensures { result ≡ lowering.control_at visible.now token }
{
    match visible.controls.look_up(visible.scope.spelling(token)) {
        Some(found) => Ok(found),
        None => Err(Refusal::new(Cause::UnknownName, token)),
    }
}

/// The bigraph that the token names, or `UnknownName` (41).
pub(crate) fn bigraph_at<'a>(
    visible: &'a Visible,
    token: u32,
) -> Result<FoundName<'a, u32>, Refusal>
    ensures { result ≡ lowering.bigraph_at visible.now token }
{
    match visible.bigraphs.look_up(visible.scope.spelling(token)) {
        Some(found) => Ok(found),
        None => Err(Refusal::new(Cause::UnknownName, token)),
    }
}

/// Whether the token names a visible control that is atomic.
pub(crate) fn names_atom(visible: &Visible, token: u32) -> bool
    ensures { result ≡ definition.names_atom token visible.now }
{
    match visible.controls.look_up(visible.scope.spelling(token)) {
        Some(found) => found.value.shape.kind == Kind::Atomic,
        None => false,
    }
}
