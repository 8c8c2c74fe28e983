//! What holds of a host that is rewritten in place. A call does nothing.
ghost use Rattle.std.specs.Prelude.{◌≡◌, ℕ, List};
ghost use Rattle.bg_base.specs.declared.big.NodeRow.{NodeRow};
ghost use Rattle.bg_index.specs.declared.entries.Index.{Index};
ghost use Rattle.bg_index.specs.Indexed.{host_of, IsIndexOf};
ghost use Rattle.bg_index.specs.Steps.{IsStep};
ghost use Rattle.bg_rewriting.specs.Boundaries.{Boundary, IsBoundary};
ghost use Rattle.bg_rules.specs.Hosts.{IsHost};
ghost use Rattle.bg_rules.specs.Reaction.{HostState, IsNumbered, Reacts};
ghost use Rattle.bg_rules.specs.Rules.{RuleParts, IsRule};

/// Lists that are each as a reaction leaves them are those of the host after.
pub fn steps_leave_an_index()
    ensures { (host : HostState) (rule : RuleParts) (nodes : List ℕ) (boundary : Boundary) (after : HostState) → IsNumbered host → IsRule rule
        → IsBoundary host.big rule nodes boundary → Reacts host rule nodes after → IsHost after
        → (gone : List ℕ) (move : NodeRow → NodeRow) (new : List NodeRow) (index : Index)
        → IsStep host rule nodes boundary after gone move new index → IsIndexOf after index }
{}
