//! Labels of controls, rules and predicates.
ghost use Rattle.std.specs.Prelude.{◌≡◌, Some, refl};
ghost use Rattle.std.specs.Cmp.{partial_order_from_agreeing_total};
ghost use Rattle.bg_base.specs.Order.{value_cmp, label_cmp};
ghost use Rattle.bg_base.specs.LabelLaws.{value_cmp_total, value_ties, label_cmp_total, label_ties};

use crate::{Ident, Text};
use bg_lists::{Duplicate, Mem, Rows};
use std::alloc::Global;
use std::cmp::Ordering;

/// An argument of a label: a whole number, or a text. Whole numbers ascend by size, texts by their bytes, and whole
/// numbers come before texts.
#[derive(Debug, Drop, PartialEq, Eq)]
pub enum Value {
    Int(i64),
    Words(Text),
}

impl PartialOrd for Value {
    ghost partial_cmp = { λ x y. Some (value_cmp x y) };

    ghost laws = { partial_order_from_agreeing_total value_cmp value_cmp_total (λ x y. refl) value_ties };

    fn partial_cmp(&self, other: &Self) -> Option<Ordering> {
        Some(self.cmp(other))
    }
}

impl Ord for Value {
    ghost cmp = { value_cmp };

    ghost total = { value_cmp_total };

    ghost matches_partial_cmp = { λ x y. refl };

    ghost matches_eq = { value_ties };

    fn cmp(&self, other: &Self) -> Ordering {
        match (self, other) {
            (Value::Int(x), Value::Int(y)) => x.cmp(y),
            (Value::Int(_), Value::Words(_)) => Ordering::Less,
            (Value::Words(_), Value::Int(_)) => Ordering::Greater,
            (Value::Words(s), Value::Words(t)) => s.cmp(t),
        }
    }
}

impl Duplicate for Value {
    fn copy(&self, alloc: Global) -> Mem<Value> {
        match self {
            Value::Int(number) => Ok(Value::Int(*number)),
            Value::Words(text) => Ok(Value::Words(text.copy(alloc)?)),
        }
    }
}

/// What a control, a rule or a predicate is called, as `K`, `K(3)` or `K(3,"a")`.
/// Labels ascend by their identifiers, and then by their arguments in dictionary order.
#[derive(Debug, Drop, PartialEq, Eq)]
pub struct Label {
    pub name: Ident,
    pub args: Rows<Value>,
}

impl PartialOrd for Label {
    ghost partial_cmp = { λ x y. Some (label_cmp x y) };

    ghost laws = { partial_order_from_agreeing_total label_cmp label_cmp_total (λ x y. refl) label_ties };

    fn partial_cmp(&self, other: &Self) -> Option<Ordering> {
        Some(self.cmp(other))
    }
}

impl Ord for Label {
    ghost cmp = { label_cmp };

    ghost total = { label_cmp_total };

    ghost matches_partial_cmp = { λ x y. refl };

    ghost matches_eq = { label_ties };

    fn cmp(&self, other: &Self) -> Ordering {
        self.name.cmp(&other.name).then(self.args.cmp(&other.args))
    }
}

impl Duplicate for Label {
    fn copy(&self, alloc: Global) -> Mem<Label> {
        Ok(Label {
            name: self.name.copy(alloc)?,
            args: self.args.copy(alloc)?,
        })
    }
}
