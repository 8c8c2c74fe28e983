//! The laws of pieces, conditions, legal steps and runs. A call does nothing.
ghost use Rattle.std.specs.Prelude.{◌≡◌, ◌↔◌, ℕ, ◌≤◌, List, length, take, All};
ghost use Rattle.bg_lists.specs.Lists.{Mem};
ghost use Rattle.bg_base.specs.declared.big.NodeRow.{NodeRow};
ghost use Rattle.bg_base.specs.declared.big.Big.{Big};
ghost use Rattle.bg_base.specs.declared.history.Entry.{Entry};
ghost use Rattle.bg_base.specs.declared.history.Step.{Step};
ghost use Rattle.bg_base.specs.Bigraph.{IsGround, IsValidUnder};
ghost use Rattle.bg_base.specs.Translation.{node_numbers};
ghost use Rattle.bg_rules.specs.Decomposition.{Decomposes, Occurs};
ghost use Rattle.bg_rules.specs.Hosts.{IsHost};
ghost use Rattle.bg_rules.specs.Reaction.{HostState};
ghost use Rattle.bg_rules.specs.Rules.{RuleParts, IsRule};
ghost use Rattle.bg_rules.specs.Solid.{IsPattern};
ghost use Rattle.bg_rules.specs.Systems.{SystemParts, IsSystem};
ghost use Rattle.bg_cond.specs.Boards.{IsCommitted};
ghost use Rattle.bg_cond.specs.Conditions.{IsEnabled};
ghost use Rattle.bg_cond.specs.Drawn.{Draws, IsEndOf};
ghost use Rattle.bg_cond.specs.Pieces.{hole_control, parameter_piece, context_piece};
ghost use Rattle.bg_cond.specs.Sides.{HoldsInHost, LooksForNodes};
ghost use Rattle.bg_cond.specs.Steps.{AreFirstLegal, AreLegal, HasNoStep, NoneEnabled, IsRun};
ghost use Rattle.bg_cond.specs.Verdicts.{IsJudged};
ghost use Rattle.bg_cond.specs.declared.commits.Commit.{Commit as CommitOf};
ghost use Rattle.bg_cond.specs.declared.commits.Found.{Found as FoundStep};
ghost use Rattle.bg_cond.specs.declared.ending.End.{End as EndOf};
ghost use Rattle.bg_cond.specs.declared.verdict.Verdict.{Verdict as VerdictOf};
ghost use Rattle.rand_pcg.specs.Lcg.{Lcg};

/// Both pieces are ground bigraphs.
pub fn pieces_are_ground()
    ensures parameter { (host : HostState) (redex : Big) (nodes : List ℕ) (context : Big) (edges : List ℕ) (parameter : Big) → IsHost host → IsPattern redex
        → Decomposes host.big redex nodes context edges parameter → IsGround (parameter_piece host.big parameter) }
    ensures context { (host : HostState) (redex : Big) (nodes : List ℕ) (context : Big) (edges : List ℕ) (parameter : Big) → IsHost host → IsPattern redex
        → Decomposes host.big redex nodes context edges parameter → IsGround (context_piece host.big host.next_node context) }
{}

/// The law of pieces: a pattern without holes occurs in a piece exactly where it occurs in the host at nodes of the piece.
pub fn pieces_show_the_host()
    ensures parameter { (host : HostState) (redex : Big) (nodes : List ℕ) (context : Big) (edges : List ℕ) (parameter pattern : Big) (map : List ℕ)
        → IsHost host → IsPattern redex → Decomposes host.big redex nodes context edges parameter
        → IsPattern pattern → ((row : NodeRow) → Mem row pattern.nodes → row.control ≡ hole_control → ⊥)
        → (Occurs (parameter_piece host.big parameter) pattern map
        ↔ (Occurs host.big pattern map × ((node : ℕ) → Mem node map → Mem node (node_numbers parameter.nodes)))) }
    ensures context { (host : HostState) (redex : Big) (nodes : List ℕ) (context : Big) (edges : List ℕ) (parameter pattern : Big) (map : List ℕ)
        → IsHost host → IsPattern redex → Decomposes host.big redex nodes context edges parameter
        → IsPattern pattern → ((row : NodeRow) → Mem row pattern.nodes → row.control ≡ hole_control → ⊥)
        → (Occurs (context_piece host.big host.next_node context) pattern map
        ↔ (Occurs host.big pattern map × ((node : ℕ) → Mem node map → Mem node (node_numbers context.nodes)))) }
{}

/// Conditions may be asked of the whole host: a rule whose conditions have no holes is enabled exactly where its redex
/// occurs and each condition holds of the occurrences in the host that lie on its side.
pub fn conditions_look_at_the_host()
    ensures { (host : HostState) (rule : RuleParts) (nodes : List ℕ) → IsHost host → LooksForNodes rule
        → (IsEnabled host rule nodes ↔ (Occurs host.big rule.redex nodes × All (HoldsInHost host.big nodes) rule.conditions)) }
{}

/// The first legal steps are one list, and they are the beginning of the list of all legal steps, wherever that is given.
pub fn first_steps_are_one_list()
    ensures one { (most : ℕ) (host : HostState) (rules : List RuleParts) (steps others : List Step) → AreFirstLegal most host rules steps
        → AreFirstLegal most host rules others → steps ≡ others }
    ensures beginning { (most : ℕ) (host : HostState) (rules : List RuleParts) (all : List Step) → AreLegal host rules all
        → AreFirstLegal most host rules (take most all) }
{}

/// No two verdicts are right of one step at one host.
pub fn steps_have_one_verdict()
    ensures { (host : HostState) (rules : List RuleParts) (step : Step) (one other : VerdictOf) → IsHost host → All IsRule rules
        → IsJudged host rules step one → IsJudged host rules step other → one ≡ other }
{}

/// A run from a host has one end, which is a host again.
pub fn runs_have_one_end()
    ensures one { (rules : List RuleParts) (host after other : HostState) (entries : List Entry) → All IsRule rules → IsHost host
        → IsRun rules host entries after → IsRun rules host entries other → after ≡ other }
    ensures host { (rules : List RuleParts) (host after : HostState) (entries : List Entry) → All IsRule rules → IsHost host
        → IsRun rules host entries after → IsHost after }
{}

/// A run of a system leads to a host that is valid under the signature of the system.
pub fn runs_keep_the_signature()
    ensures { (system : SystemParts) (entries : List Entry) (after : HostState) → IsSystem system
        → IsRun system.rules system.init entries after → IsValidUnder system.signature after.big }
{}

/// No step is legal exactly where no rule is enabled anywhere.
pub fn quiet_hosts_have_no_step()
    ensures { (host : HostState) (rules : List RuleParts) → (NoneEnabled host rules ↔ HasNoStep host rules) }
{}

/// For each number of entries, host and state of the generator at most one run is drawn: one journal, one end, one last
/// host.
pub fn runs_are_drawn_once()
    ensures { (rules : List RuleParts) (worker room : ℕ) (host after other_after : HostState) (state : Lcg) (entries others : List Entry) (end other : EndOf)
        → All IsRule rules → IsHost host → Draws rules worker room host state entries end after
        → Draws rules worker room host state others other other_after → (entries ≡ others) × (end ≡ other) × (after ≡ other_after) }
{}

/// What is drawn is a run, of at most so many entries, each of that worker, and its end is right.
pub fn drawn_runs_are_runs()
    ensures run { (rules : List RuleParts) (worker room : ℕ) (host after : HostState) (state : Lcg) (entries : List Entry) (end : EndOf)
        → Draws rules worker room host state entries end after → IsRun rules host entries after }
    ensures few { (rules : List RuleParts) (worker room : ℕ) (host after : HostState) (state : Lcg) (entries : List Entry) (end : EndOf)
        → Draws rules worker room host state entries end after → length entries ≤ room }
    ensures own { (rules : List RuleParts) (worker room : ℕ) (host after : HostState) (state : Lcg) (entries : List Entry) (end : EndOf)
        → Draws rules worker room host state entries end after → All (λ (entry : Entry). entry.worker ≡ worker) entries }
    ensures end { (rules : List RuleParts) (worker room : ℕ) (host after : HostState) (state : Lcg) (entries : List Entry) (end : EndOf)
        → Draws rules worker room host state entries end after → IsEndOf rules room entries after end }
{}

/// No two answers to one commit are right.
pub fn commits_have_one_answer()
    ensures { (system : SystemParts) (limit worker : ℕ) (before after : List Entry) (found : FoundStep) (one other : CommitOf)
        → IsCommitted system limit worker before after found one → IsCommitted system limit worker before after found other → one ≡ other }
{}
