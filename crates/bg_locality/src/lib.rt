//! Where an occurrence stays an occurrence though the host is changed: what of a host a pattern looks at, and how the list of
//! all occurrences is brought up to date. A call does nothing.
#![tactic(auto)]

ghost use Rattle.std.specs.Prelude.{◌≡◌, ◌↔◌, ◌+◌, ℕ, Bool, List, length, map};
ghost use Rattle.bg_base.specs.declared.big.Big.{Big};
ghost use Rattle.bg_base.specs.Bigraph.{IsValid, IsGround};
ghost use Rattle.bg_rules.specs.Decomposition.{AreNew, Occurs};
ghost use Rattle.bg_rules.specs.LocalConditions.{MeetsLocally};
ghost use Rattle.bg_rules.specs.Reaction.{HostState, IsNumbered, Reacts};
ghost use Rattle.bg_rules.specs.Rules.{RuleParts, IsRule};
ghost use Rattle.bg_rules.specs.Solid.{IsPattern};
ghost use Rattle.bg_rewriting.specs.Touching.{IsTouched};
ghost use Rattle.bg_match.specs.Selections.{AreOccurrencesThat, begins_with};
ghost use Rattle.bg_locality.specs.Changes.{Changes, AreChanges, HasLowEdges, are_anew, Settles};
ghost use Rattle.bg_locality.specs.Locality.{MeetsNearby, IsClear, AreSeenAlike, AreSteady};
ghost use Rattle.bg_locality.specs.Touches.{AreToldBy};
ghost use Rattle.bg_locality.specs.Twins.{twin_of, put_back, AreRearranged, ComesFirst};
ghost use Rattle.bg_locality.specs.Updates.{AreAnchors, AreAllWith, AreGathered, AreAllThat, IsBroughtUp};

/// Where two hosts look the same to a pattern at the numbers of a map, the map meets all local conditions but one in the one
/// exactly where it does in the other. With one region it meets that one too; with several it does so alike where nothing
/// above its images has moved. So it is an occurrence in both or in neither.
pub fn occurrences_are_seen_nearby()
    ensures nearby { (before after pattern : Big) (nodes : List ℕ) → IsValid before → IsValid after → IsPattern pattern
        → AreSeenAlike before after pattern nodes → (MeetsNearby before pattern nodes ↔ MeetsNearby after pattern nodes) }
    ensures one_region { (host pattern : Big) (nodes : List ℕ) → IsValid host → IsPattern pattern → pattern.regions ≡ 1
        → MeetsNearby host pattern nodes → IsClear host pattern nodes }
    ensures local { (before after pattern : Big) (nodes : List ℕ) → IsValid before → IsValid after → IsPattern pattern
        → AreSeenAlike before after pattern nodes → AreSteady before after pattern nodes
        → (MeetsLocally before pattern nodes ↔ MeetsLocally after pattern nodes) }
    ensures occurs { (before after pattern : Big) (nodes : List ℕ) → IsGround before → IsGround after → IsPattern pattern
        → AreSeenAlike before after pattern nodes → AreSteady before after pattern nodes
        → (Occurs before pattern nodes ↔ Occurs after pattern nodes) }
{}

/// A map of which no image is seen anew is an occurrence before and after, or neither.
pub fn changes_settle()
    ensures { (before after pattern : Big) (changes : Changes) → IsGround before → IsGround after → IsPattern pattern
        → AreChanges before after changes → HasLowEdges pattern changes.high
        → Settles (are_anew after pattern changes) before after pattern }
{}

/// What a reaction touches, together with where the nodes lay before, tells all changes.
pub fn touched_nodes_tell()
    ensures { (before after : HostState) (rule : RuleParts) (nodes gone changed : List ℕ) (changes : Changes) → IsNumbered before
        → IsRule rule → Occurs before.big rule.redex nodes → Reacts before rule nodes after
        → IsTouched before.big after.big gone changed → changes.next_node ≡ before.next_node
        → AreToldBy before.big after.big gone changed changes → AreChanges before.big after.big changes }
{}

/// What is gathered from all that is seen anew is all that may have come; and the list from which stale maps are left out,
/// and into which these are put, is that of the host after.
pub fn lists_are_brought_up()
    ensures gathered { (after pattern : Big) (changes : Changes) (anchors : List ℕ) (maps : List (List ℕ)) → IsGround after
        → IsPattern pattern → AreAnchors after pattern changes anchors → AreGathered after pattern changes anchors maps
        → AreAllThat (are_anew after pattern changes) after pattern maps }
    ensures brought_up { (stale within : List ℕ → Bool) (before after pattern : Big) (old found new : List (List ℕ))
        → Settles stale before after pattern → AreOccurrencesThat within before pattern old → AreAllThat stale after pattern found
        → IsBroughtUp stale within old found new → AreOccurrencesThat within after pattern new }
{}

/// A pattern whose nodes are numbered anew is a pattern, and occurs where it did, its maps rearranged. So the occurrences with
/// a node at a place are those of a twin in which that place comes first, put back.
pub fn twins_occur_alike()
    ensures pattern { (pattern : Big) (numbers : List ℕ) → IsPattern pattern → AreNew numbers (length pattern.nodes)
        → IsPattern (twin_of pattern numbers) }
    ensures occurs { (host pattern : Big) (numbers nodes others : List ℕ) → IsPattern pattern → AreNew numbers (length pattern.nodes)
        → AreNew nodes (length pattern.nodes) → AreNew others (length pattern.nodes) → AreRearranged pattern numbers nodes others
        → (Occurs host pattern nodes ↔ Occurs host (twin_of pattern numbers) others) }
    ensures anchored { (host pattern : Big) (numbers : List ℕ) (place node : ℕ) (maps : List (List ℕ)) → IsGround host → IsPattern pattern
        → AreNew numbers (length pattern.nodes) → ComesFirst place numbers
        → AreOccurrencesThat (begins_with node) host (twin_of pattern numbers) maps
        → AreAllWith place node host pattern (map (put_back pattern numbers) maps) }
{}
