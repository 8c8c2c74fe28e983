//! How much there is of everything in a model.
ghost use Rattle.std.specs.Prelude.{◌≡◌, ◌≤◌, length, Some};
ghost use Rattle.command_models.specs.Check.{counts_of};

use bg_base::Big;
use bg_rules::System;
use std::fmt;

/// How much there is of everything in a system; nodes and edges are those that a run begins with.
#[derive(Clone, Copy, Debug, PartialEq, Eq)]
pub(crate) struct Counts {
    pub controls: u32,
    pub rules: usize,
    pub classes: u32,
    pub preds: usize,
    pub nodes: u32,
    pub edges: u32,
}

/// Counts a system.
pub(crate) fn counts_of(system: &System) -> Counts
    ensures { result ≡ counts_of system.now }
{
    let big = system.init().big();
    Counts {
        controls: system.signature().len(),
        rules: system.rules().len(),
        classes: system.classes(),
        preds: system.preds().len(),
        nodes: big.nodes.len(),
        edges: big.edges.len(),
    }
}

impl fmt::Display for Counts {
    ghost use Rattle.command_models.specs.Check.{counts_text};

    ghost output = { λ counts. Some (counts_text counts) };

    fn fmt<W: fmt::Write>(&self, f: &mut fmt::Formatter<W>) -> fmt::Result {
        let Counts {
            controls,
            rules,
            classes,
            preds,
            nodes,
            edges,
        } = *self;
        write!(
            f,
            "ok controls {controls} rules {rules} classes {classes} preds {preds} nodes {nodes} edges {edges}"
        )
    }
}
