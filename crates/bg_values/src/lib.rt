//! Values of the model language: what the arguments of controls and references, and the values of parameters, come to.
//!
//! - [`Scope`]: the text of a model, its tokens, and the names that are visible; [`NameTable`]: names in the order of
//!   their definitions.
//! - [`formula_of`]: the formula that a tree of arithmetic is, its names numbered; [`Formula::evaluate`]: what it comes
//!   to. [`operands_of`] and [`values_of`]: the same for several in a row, each an [`Operand`].
//! - [`parameter_values`], [`parameter_name`]: the values of a parameter, and the token of its name;
//!   [`ParameterValues`]: these values, as they are kept.
//! - [`number_at`]: the number that a token spells; [`number_token`]: the token of a number.
//! - [`Stack`]: a stack, whose top contracts see first.
//! - [`Stop`]: why there is no value: a [`Refusal`] with its [`Cause`] and its token, or want of memory.
#![tactic(auto)]

mod arithmetic;
mod formula;
mod names;
mod number;
mod operands;
mod parameter;
mod reading;
mod refusal;
mod scope;
mod stack;
mod values;

pub use formula::{Formula, FormulaStep, Operator};
pub use names::{FoundName, NameTable};
pub use operands::{Operand, operands_of, values_of};
pub use parameter::{parameter_name, parameter_values};
pub use reading::{formula_of, number_at, number_token};
pub use refusal::{Cause, LimitWord, Refusal, Stop};
pub use scope::Scope;
pub use stack::Stack;
pub use values::ParameterValues;
