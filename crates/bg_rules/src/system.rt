//! Systems: what a model describes.
ghost use Rattle.std.specs.Prelude.{◌≡◌};
ghost use Rattle.bg_rules.specs.Systems.{IsSystem};

use crate::{Host, Predicate, Rule};
use bg_base::Signature;
use bg_lists::Rows;
use std::marker::Model;

/// A bigraphical reactive system (Milner, chapter 8): a signature, the host that a run begins with, the rules by
/// number, counted from 0, the number of their classes, and the predicates by number. The host, each side of a rule,
/// each condition and each predicate is valid under the signature, each rule's class is below the number of classes,
/// and there are at most 4,096 rules and at most 4,096 predicates. A contract sees the parts.
#[derive(Debug, Drop)]
pub struct System {
    signature: Signature,
    init: Host,
    rules: Rows<Rule>,
    classes: u32,
    preds: Rows<Predicate>,
}

impl Model for System {
    ghost use Rattle.bg_rules.specs.Systems.{SystemParts, IsSystem};

    ghost Value = { SystemParts };

    ghost view = { λ system. record {
      signature = system.signature;
      init = system.init;
      rules = system.rules;
      classes = system.classes;
      preds = system.preds;
    } };

    ghost invariant = { λ system. IsSystem (record {
      signature = system.signature;
      init = system.init;
      rules = system.rules;
      classes = system.classes;
      preds = system.preds;
    }) };
}

impl System {
    /// The system of these parts. Takes no memory.
    pub fn new(
        signature: Signature,
        init: Host,
        rules: Rows<Rule>,
        classes: u32,
        preds: Rows<Predicate>,
    ) -> System
        requires { IsSystem (record { signature = signature; init = init; rules = rules; classes = classes; preds = preds }) }
        ensures { result ≡ record { signature = signature; init = init; rules = rules; classes = classes; preds = preds } }
    {
        System {
            signature,
            init,
            rules,
            classes,
            preds,
        }
    }

    /// The controls that nodes may have.
    pub fn signature(&self) -> &Signature
        ensures same { result.now ≡ self.now.signature }
        ensures kept { IsSystem self.now }
    {
        &self.signature
    }

    /// The host that a run begins with.
    pub fn init(&self) -> &Host
        ensures same { result.now ≡ self.now.init }
        ensures kept { IsSystem self.now }
    {
        &self.init
    }

    /// The rules in order.
    pub fn rules(&self) -> &[Rule]
        ensures same { result.now ≡ self.now.rules }
        ensures kept { IsSystem self.now }
    {
        self.rules.as_slice()
    }

    /// The number of classes.
    pub fn classes(&self) -> u32
        ensures { result ≡ self.now.classes }
    {
        self.classes
    }

    /// The predicates in order.
    pub fn preds(&self) -> &[Predicate]
        ensures same { result.now ≡ self.now.preds }
        ensures kept { IsSystem self.now }
    {
        self.preds.as_slice()
    }
}
