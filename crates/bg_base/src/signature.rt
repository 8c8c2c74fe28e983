//! Signatures: the controls that the nodes of a bigraph may have.
ghost use Rattle.std.specs.Prelude.{◌≡◌, ◌≢◌, ◌+◌, ◌<◌, ◌≤◌, ◌↔◌, [], ◌∷◌, ◌++◌, length, IfOk, OnErr, IsErrOf, IfSome, Some, None, IsSome, IsNone, slice_get, option_map};
ghost use Rattle.bg_base.specs.Limits.{most_controls};
ghost use Rattle.bg_base.specs.Signatures.{IsNumbering};

use crate::Label;
use crate::limits::{MOST_CONTROLS, MOST_PORTS};
use bg_lists::{Duplicate, Mem, OutOfMemory, copies};
use std::alloc::{AllocError, AllocFailed, Global};
use std::collections::BTreeMap;
use std::marker::Model;
use thiserror::Error;

/// Whether nodes of a control may have children.
#[derive(Clone, Copy, Debug, PartialEq, Eq)]
pub enum Kind {
    /// They may.
    Normal,
    /// They have no child node and no child site.
    Atomic,
}

/// A control: its label, its arity (the number of ports of its nodes, from 0 to 16) and its kind.
#[derive(Debug, Drop, PartialEq, Eq)]
pub struct Control {
    pub label: Label,
    pub arity: u32,
    pub kind: Kind,
}

/// A basic signature (Milner, chapter 1): a list of controls. A control's number is its position, counted from 0. No
/// label stands twice. The limits are this project's: no arity is above 16, and there are at most 4,096 controls. A
/// contract sees the list of the controls.
#[derive(Debug, Drop)]
pub struct Signature {
    controls: Vec<Control>,
    numbers: BTreeMap<Label, u32>,
}

impl Model for Signature {
    ghost use Rattle.std.specs.Prelude.{List};
    ghost use Rattle.bg_base.specs.declared.signature.Control.{Control};
    ghost use Rattle.bg_base.specs.Signatures.{IsIndexedSignature};

    ghost Value = { List Control };

    ghost view = { λ signature. signature.controls.items };

    ghost invariant = { λ signature. IsIndexedSignature signature.controls.items signature.numbers };
}

/// Why a control was not added.
#[derive(Clone, Copy, Debug, PartialEq, Eq, Error)]
pub enum SignatureFault {
    /// The label is there.
    #[error("a control has that label")]
    DuplicateControl,
    /// The arity is above 16.
    #[error("the arity is above 16")]
    ArityTooLarge,
    /// There are 4,096 controls.
    #[error("there are 4,096 controls")]
    TooManyControls,
    /// There was no memory for the control.
    #[error("out of memory")]
    OutOfMemory,
}

impl<T: Drop> From<AllocFailed<T>> for SignatureFault {
    ghost use Rattle.std.specs.Prelude.{◌≡◌};
    ghost use Rattle.bg_base.specs.declared.signature.SignatureFault.TheVariants.{OutOfMemory};

    ghost from_gives = { λ _ fault. fault ≡ OutOfMemory };

    fn from(_failed: AllocFailed<T>) -> SignatureFault {
        SignatureFault::OutOfMemory
    }
}

impl From<AllocError> for SignatureFault {
    ghost use Rattle.std.specs.Prelude.{◌≡◌};
    ghost use Rattle.bg_base.specs.declared.signature.SignatureFault.TheVariants.{OutOfMemory};

    ghost from_gives = { λ _ fault. fault ≡ OutOfMemory };

    fn from(_error: AllocError) -> SignatureFault {
        SignatureFault::OutOfMemory
    }
}

impl From<OutOfMemory> for SignatureFault {
    ghost use Rattle.std.specs.Prelude.{◌≡◌};
    ghost use Rattle.bg_base.specs.declared.signature.SignatureFault.TheVariants.{OutOfMemory};

    ghost from_gives = { λ _ fault. fault ≡ OutOfMemory };

    fn from(_error: OutOfMemory) -> SignatureFault {
        SignatureFault::OutOfMemory
    }
}

impl Signature {
    ghost use Rattle.std.specs.Prelude.{◌≡◌, ◌≢◌, ◌+◌, ◌<◌, ◌≤◌, ◌↔◌, [], ◌∷◌, ◌++◌, length, IfOk, OnErr, IsErrOf, IfSome, Some, None, IsSome, IsNone, slice_get, option_map};
    ghost use Rattle.bg_base.specs.Limits.{most_controls, most_ports};
    ghost use Rattle.bg_base.specs.Signatures.{control_number, IsSignature};

    /// The empty signature. Takes no memory.
    pub fn new(alloc: Global) -> Signature
        ensures { result ≡ [] }
    {
        Signature {
            controls: Vec::new(alloc),
            numbers: BTreeMap::new(alloc),
        }
    }

    /// Appends a control and answers its number. It refuses, in this order: `DuplicateControl` where the label is
    /// there, `ArityTooLarge` where the arity is above 16, `TooManyControls` where there are 4,096 controls.
    /// The signature then stays as it was. Logarithmic in the number of controls, and linear in the label.
    pub fn add(
        &mut self,
        alloc: Global,
        label: Label,
        arity: u32,
        kind: Kind,
    ) -> Result<u32, SignatureFault>
        ensures number { IfOk result (λ number. number ≡ length self.old) }
        ensures added { IfOk result (λ _. self.new ≡ self.old ++ (record { label = label; arity = arity; kind = kind }) ∷ []) }
        ensures unchanged { OnErr result (self.new ≡ self.old) }

        ensures duplicate { IsErrOf result SignatureFault.DuplicateControl ↔ IsSome (control_number self.old label) }
        ensures arity_too_large { IsErrOf result SignatureFault.ArityTooLarge ↔ (IsNone (control_number self.old label) × (most_ports < arity)) }
        ensures too_many { IsErrOf result SignatureFault.TooManyControls
            ↔ (IsNone (control_number self.old label) × (arity ≤ most_ports) × (length self.old ≡ most_controls)) }
    {
        if self.find(&label).is_some() {
            return Err(SignatureFault::DuplicateControl);
        }
        if arity > MOST_PORTS {
            return Err(SignatureFault::ArityTooLarge);
        }
        let number = self.controls.len();
        if number >= MOST_CONTROLS as usize {
            return Err(SignatureFault::TooManyControls);
        }
        let key = label.copy(alloc)?;
        self.controls.reserve(1)?;
        self.numbers.insert(key, number as u32)?;
        self.controls.push(Control { label, arity, kind }).unwrap();
        Ok(number as u32)
    }

    /// The number of the control with the label. Takes no memory; logarithmic in the number of controls.
    pub fn find(&self, label: &Label) -> Option<u32>
        ensures { result ≡ control_number self.now label.now }
    {
        self.numbers.get(label).copied()
    }

    /// The number of controls.
    pub fn len(&self) -> u32
        ensures count { result ≡ length self.now }
        ensures kept { IsSignature self.now }
    {
        self.controls.len() as u32
    }

    /// The controls in order.
    pub fn controls(&self) -> &[Control]
        ensures same { result.now ≡ self.now }
        ensures kept { IsSignature self.now }
    {
        self.controls.as_slice()
    }

    /// The label of the control of this number, which is there. Constant time, as the calls that follow.
    pub fn label(&self, control: u32) -> &Label
        requires { control < length self.now }
        ensures { option_map (λ found. found.label) (slice_get self.now control) ≡ Some result.now }
    {
        &self.controls[control as usize].label
    }

    /// The arity of the control of this number, which is there.
    pub fn arity(&self, control: u32) -> u32
        requires { control < length self.now }
        ensures value { option_map (λ found. found.arity) (slice_get self.now control) ≡ Some result }
        ensures small { result ≤ most_ports }
    {
        self.controls[control as usize].arity
    }

    /// The kind of the control of this number, which is there.
    pub fn kind(&self, control: u32) -> Kind
        requires { control < length self.now }
        ensures { option_map (λ found. found.kind) (slice_get self.now control) ≡ Some result }
    {
        self.controls[control as usize].kind
    }
}

/// The map from each label to the number of the first control that has it.
fn numbers_of(alloc: Global, controls: &[Control]) -> Mem<BTreeMap<Label, u32>>
    requires { length controls.now ≤ most_controls }
    ensures { IfOk result (λ numbers. IsNumbering numbers controls.now) }
{
    let mut numbers = BTreeMap::new(alloc);
    let mut at = controls.len();
    while at > 0 {
        at -= 1;
        numbers.insert(controls[at].label.copy(alloc)?, at as u32)?;
    }
    Ok(numbers)
}

impl Duplicate for Signature {
    fn copy(&self, alloc: Global) -> Mem<Signature> {
        let controls = copies(alloc, self.controls.as_slice())?;
        let numbers = numbers_of(alloc, self.controls.as_slice())?;
        Ok(Signature { controls, numbers })
    }
}

impl PartialEq for Signature {
    ghost use Rattle.std.specs.Cmp.Lexicographic.{pointwise, lists_per};
    ghost use Rattle.bg_base.specs.contracts.signature.ControlPartialEq.TheImpl as of_control;
    ghost use Rattle.bg_base.specs.contracts.signature.ControlPartialEq.TheImpl.Laws.{laws-law};

    ghost eq = { pointwise of_control.ghosts.eq };

    ghost laws = { lists_per laws-law };

    fn eq(&self, other: &Self) -> bool {
        self.controls.as_slice() == other.controls.as_slice()
    }
}

impl Eq for Signature {
    ghost use Rattle.std.specs.Cmp.Lexicographic.{lists_equiv};
    ghost use Rattle.bg_base.specs.contracts.signature.ControlEq.TheImpl.Laws.{laws-law};

    ghost laws = { lists_equiv laws-law };
}

impl Duplicate for Control {
    fn copy(&self, alloc: Global) -> Mem<Control> {
        Ok(Control {
            label: self.label.copy(alloc)?,
            arity: self.arity,
            kind: self.kind,
        })
    }
}
