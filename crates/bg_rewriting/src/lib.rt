//! What a reaction does to the rows of a host, said of the host's own rows, the rule and what the rule finds round its images.
//! A call does nothing.
#![tactic(auto)]

ghost use Rattle.std.specs.Prelude.{◌≡◌, ◌↔◌, ◌+◌, ◌++◌, ◌≤◌, ℕ, Bool, true, not, List, [], length, map, filter, take, slice_index_or};
ghost use Rattle.std.specs.List.Sorted.{IsStrictlySortedBy};
ghost use Rattle.std.specs.Ordering.{nat_cmp};
ghost use Rattle.bg_lists.specs.Lists.{Mem, At};
ghost use Rattle.bg_base.specs.declared.names.Place.TheVariants.{Node, Region};
ghost use Rattle.bg_base.specs.declared.names.Link.{Link};
ghost use Rattle.bg_base.specs.declared.names.Link.TheVariants.{Edge};
ghost use Rattle.bg_base.specs.declared.big.NodeRow.{NodeRow};
ghost use Rattle.bg_base.specs.declared.big.Big.{Big};
ghost use Rattle.bg_base.specs.Bigraph.{IsGround};
ghost use Rattle.bg_base.specs.Elementary.{counted};
ghost use Rattle.bg_base.specs.Products.{has_point};
ghost use Rattle.bg_base.specs.Translation.{node_numbers};
ghost use Rattle.bg_place.specs.Places.{places_of, children_of};
ghost use Rattle.bg_link.specs.Links.{links_of, points_of};
ghost use Rattle.bg_rules.specs.Decomposition.{Occurs};
ghost use Rattle.bg_rules.specs.Instantiation.{is_among};
ghost use Rattle.bg_rules.specs.LocalConditions.{image_of, MeetsLocally};
ghost use Rattle.bg_rules.specs.Reaction.{HostState, IsNumbered, Reacts};
ghost use Rattle.bg_rules.specs.Rules.{RuleParts, IsRule};
ghost use Rattle.bg_rules.specs.Solid.{IsPattern};
ghost use Rattle.bg_rewriting.specs.Boundaries.{Boundary, IsBoundary, IsBelow};
ghost use Rattle.bg_rewriting.specs.Keeping.{ports_on, stays_at};
ghost use Rattle.bg_rules.specs.Lookups.{nodes_with};
ghost use Rattle.bg_rewriting.specs.Making.{AreDropped, AreIdle, numbers_made, edges_made, IsMade};
ghost use Rattle.bg_rewriting.specs.Rewriting.{place_made, IsRowAfter, IsRewritten, late_count};
ghost use Rattle.bg_rewriting.specs.Touching.{IsGone, IsChangedRow, IsUntouched, IsTouched, IsDropped, IsMarked, AreMarked, IsEdgeKept, IsListed, IsIdle};

/// At each occurrence there are places, links and parts round the images.
pub fn occurrences_have_boundaries()
    ensures { (host : Big) (rule : RuleParts) (nodes : List ℕ) → IsRule rule → IsGround host → Occurs host rule.redex nodes
        → (boundary : Boundary) × IsBoundary host rule nodes boundary }
{}

/// A numbered host reacts at an occurrence to exactly the host with the rows that are said of its own: those outside the
/// images, those of the reactum, and the copies of those below the sites.
pub fn reactions_rewrite_rows()
    ensures { (host : HostState) (rule : RuleParts) (nodes : List ℕ) (boundary : Boundary) (after : HostState) → IsNumbered host
        → IsRule rule → Occurs host.big rule.redex nodes → IsBoundary host.big rule nodes boundary
        → (Reacts host rule nodes after ↔ IsRewritten host rule nodes boundary after) }
{}

/// The nodes that are gone are those that are dropped; the rows that are changed are those that are marked, and a row that is
/// not marked is untouched. So two ascending lists of these are what the reaction touches.
pub fn reactions_touch()
    ensures gone { (host : HostState) (rule : RuleParts) (nodes : List ℕ) (boundary : Boundary) (after : HostState) → IsNumbered host
        → IsRule rule → IsBoundary host.big rule nodes boundary → Reacts host rule nodes after
        → (node : ℕ) → (IsGone host.big after.big node ↔ IsDropped host.big rule nodes node) }
    ensures changed { (host : HostState) (rule : RuleParts) (nodes : List ℕ) (boundary : Boundary) (after : HostState) → IsNumbered host
        → IsRule rule → IsBoundary host.big rule nodes boundary → Reacts host rule nodes after
        → (row : NodeRow) → Mem row after.big.nodes
        → (IsChangedRow host.big after.big row ↔ IsMarked host rule nodes boundary after.big row) }
    ensures untouched { (host : HostState) (rule : RuleParts) (nodes : List ℕ) (boundary : Boundary) (after : HostState) → IsNumbered host
        → IsRule rule → IsBoundary host.big rule nodes boundary → Reacts host rule nodes after
        → (row : NodeRow) → Mem row after.big.nodes → (IsMarked host rule nodes boundary after.big row → ⊥)
        → IsUntouched host.big after.big row.id }
    ensures touched { (host : HostState) (rule : RuleParts) (nodes : List ℕ) (boundary : Boundary) (after : HostState) → IsNumbered host
        → IsRule rule → IsBoundary host.big rule nodes boundary → Reacts host rule nodes after
        → (gone changed : List ℕ) → IsStrictlySortedBy nat_cmp gone → AreDropped host.big rule nodes gone
        → IsStrictlySortedBy nat_cmp changed → AreMarked host rule nodes boundary after.big changed
        → IsTouched host.big after.big gone changed }
{}

/// The numbers after are those before without those that are dropped, then the new ones in a row; so they are counted.
pub fn reactions_number_nodes()
    ensures numbers { (host : HostState) (rule : RuleParts) (nodes : List ℕ) (boundary : Boundary) (after : HostState) → IsNumbered host
        → IsRule rule → IsBoundary host.big rule nodes boundary → Reacts host rule nodes after
        → (gone : List ℕ) → AreDropped host.big rule nodes gone
        → node_numbers after.big.nodes ≡ numbers_made host rule boundary gone }
    ensures count { (host : HostState) (rule : RuleParts) (nodes : List ℕ) (boundary : Boundary) (after : HostState) → IsNumbered host
        → IsRule rule → IsBoundary host.big rule nodes boundary → Reacts host rule nodes after
        → (gone : List ℕ) → AreDropped host.big rule nodes gone → IsStrictlySortedBy nat_cmp gone
        → length after.big.nodes + length gone
        ≡ length host.big.nodes + (length rule.reactum.nodes + late_count boundary.parts [] rule.map) }
{}

/// The edges after are those before without those that become idle, then those of the reactum that are used; so they are
/// counted.
pub fn reactions_number_edges()
    ensures edges { (host : HostState) (rule : RuleParts) (nodes : List ℕ) (boundary : Boundary) (after : HostState) → IsNumbered host
        → IsRule rule → IsBoundary host.big rule nodes boundary → Reacts host rule nodes after
        → (idle : List ℕ) → AreIdle host.big rule nodes boundary idle → after.big.edges ≡ edges_made host rule idle }
    ensures count { (host : HostState) (rule : RuleParts) (nodes : List ℕ) (boundary : Boundary) (after : HostState) → IsNumbered host
        → IsRule rule → IsBoundary host.big rule nodes boundary → Reacts host rule nodes after
        → (idle : List ℕ) → AreIdle host.big rule nodes boundary idle → IsStrictlySortedBy nat_cmp idle
        → length after.big.edges + length idle
        ≡ length host.big.edges + length (filter (λ own. has_point rule.reactum (Edge own)) rule.reactum.edges) }
{}

/// What stays: the children of a node that is there before and after, and of a region, where no image lies in them; the
/// points of a link on which no node that is dropped and no new node has a port.
pub fn reactions_keep_the_rest()
    ensures children { (host : HostState) (rule : RuleParts) (nodes : List ℕ) (boundary : Boundary) (after : HostState) → IsNumbered host
        → IsRule rule → IsBoundary host.big rule nodes boundary → Reacts host rule nodes after
        → (was row : NodeRow) → Mem was host.big.nodes → Mem row after.big.nodes → was.id ≡ row.id
        → (Mem (Node row.id) boundary.places → ⊥)
        → children_of (places_of host.big) (Node row.id) ≡ children_of (places_of after.big) (Node row.id) }
    ensures roots { (host : HostState) (rule : RuleParts) (nodes : List ℕ) (boundary : Boundary) (after : HostState) → IsNumbered host
        → IsRule rule → IsBoundary host.big rule nodes boundary → Reacts host rule nodes after
        → (region : ℕ) → (Mem (Region region) boundary.places → ⊥)
        → children_of (places_of host.big) (Region region) ≡ children_of (places_of after.big) (Region region) }
    ensures points { (host : HostState) (rule : RuleParts) (nodes : List ℕ) (boundary : Boundary) (after : HostState) → IsNumbered host
        → IsRule rule → IsBoundary host.big rule nodes boundary → Reacts host rule nodes after
        → (link : Link)
        → ((row : NodeRow) → Mem row host.big.nodes → IsDropped host.big rule nodes row.id → Mem link row.links → ⊥)
        → ((row : NodeRow) → Mem row after.big.nodes → host.next_node ≤ row.id → Mem link row.links → ⊥)
        → points_of (links_of host.big) link ≡ points_of (links_of after.big) link }
{}

/// What a call has to make: a host with the numbers and the edges that are due, each of whose rows is one that is due, is
/// the one to which the host reacts.
pub fn hosts_are_made()
    ensures { (host : HostState) (rule : RuleParts) (nodes : List ℕ) (boundary : Boundary) → IsNumbered host
        → IsRule rule → Occurs host.big rule.redex nodes → IsBoundary host.big rule nodes boundary
        → (gone idle : List ℕ) → AreDropped host.big rule nodes gone → AreIdle host.big rule nodes boundary idle
        → (after : HostState) → IsMade host rule nodes boundary gone idle after → Reacts host rule nodes after }
{}

/// In the words of what is read off: which nodes are dropped, which edges become idle, where what lay in an image goes, and
/// that each other row which is not dropped stays as it is.
pub fn what_is_read_decides()
    ensures dropped { (host : HostState) (rule : RuleParts) (nodes : List ℕ) (boundary : Boundary) → IsNumbered host
        → IsRule rule → Occurs host.big rule.redex nodes → IsBoundary host.big rule nodes boundary
        → (node : ℕ) → (IsDropped host.big rule nodes node ↔ IsListed rule nodes boundary node) }
    ensures idle { (host : HostState) (rule : RuleParts) (nodes : List ℕ) (boundary : Boundary) → IsNumbered host
        → IsRule rule → Occurs host.big rule.redex nodes → IsBoundary host.big rule nodes boundary
        → (edge : ℕ) → ((IsEdgeKept host.big rule nodes boundary edge → ⊥) ↔ IsIdle host.big rule nodes boundary edge) }
    ensures moves { (host : HostState) (rule : RuleParts) (nodes : List ℕ) (boundary : Boundary) → IsNumbered host
        → IsRule rule → Occurs host.big rule.redex nodes → IsBoundary host.big rule nodes boundary
        → (site at node : ℕ) (row : NodeRow) → At (Node node) site rule.redex.sites → At site at rule.map
        → (Mem site (take at rule.map) → ⊥) → Mem row host.big.nodes → (Mem row.id nodes → ⊥)
        → row.parent ≡ Node (image_of rule.redex nodes node)
        → IsRowAfter host rule nodes boundary
        (record row { parent = place_made host.next_node boundary.places (slice_index_or rule.reactum.sites at (Region at)) }) }
    ensures stays { (host : HostState) (rule : RuleParts) (nodes : List ℕ) (boundary : Boundary) → IsNumbered host
        → IsRule rule → Occurs host.big rule.redex nodes → IsBoundary host.big rule nodes boundary
        → (row : NodeRow) → Mem row host.big.nodes → (IsDropped host.big rule nodes row.id → ⊥)
        → ((site node : ℕ) → At (Node node) site rule.redex.sites → Mem site rule.map
        → row.parent ≡ Node (image_of rule.redex nodes node) → ⊥)
        → IsRowAfter host rule nodes boundary row }
{}

/// The part of a site by a walk downwards: the children of the image that are no images, and with each node its children, are
/// below the image, and a list that has these has the part.
pub fn parts_are_walked()
    ensures tops { (host pattern : Big) (nodes : List ℕ) → IsPattern pattern → IsGround host → MeetsLocally host pattern nodes
        → (node : ℕ) (child : NodeRow) → Mem node nodes → Mem child host.nodes → (Mem child.id nodes → ⊥) → child.parent ≡ Node node
        → IsBelow host.nodes nodes node child }
    ensures children { (host pattern : Big) (nodes : List ℕ) → IsPattern pattern → IsGround host → MeetsLocally host pattern nodes
        → (node : ℕ) (upper child : NodeRow) → IsBelow host.nodes nodes node upper → Mem child host.nodes → child.parent ≡ Node upper.id
        → IsBelow host.nodes nodes node child }
    ensures all { (host pattern : Big) (nodes : List ℕ) → IsPattern pattern → IsGround host → MeetsLocally host pattern nodes
        → (node : ℕ) (numbers : List ℕ)
        → ((child : NodeRow) → Mem child host.nodes → (Mem child.id nodes → ⊥) → child.parent ≡ Node node → Mem child.id numbers)
        → ((child : NodeRow) (upper : ℕ) → Mem child host.nodes → child.parent ≡ Node upper → Mem upper numbers → Mem child.id numbers)
        → (row : NodeRow) → IsBelow host.nodes nodes node row → Mem row.id numbers }
{}

/// Where rows are taken out, moved and put behind, the nodes of a control and the ports on a link are those before that
/// stay, then those of the new rows.
pub fn lists_stay_beside_rows()
    ensures nodes { (rows new : List NodeRow) (stay : ℕ → Bool) (move : NodeRow → NodeRow) → ((row : NodeRow) → (move row).id ≡ row.id)
        → ((row : NodeRow) → (move row).control ≡ row.control) → ((row : NodeRow) → (move row).links ≡ row.links) → (control : ℕ)
        → nodes_with control (map move (filter (λ (row : NodeRow). stay row.id) rows) ++ new)
        ≡ filter stay (nodes_with control rows) ++ nodes_with control new }
    ensures ports { (rows new : List NodeRow) (stay : ℕ → Bool) (move : NodeRow → NodeRow) → ((row : NodeRow) → (move row).id ≡ row.id)
        → ((row : NodeRow) → (move row).control ≡ row.control) → ((row : NodeRow) → (move row).links ≡ row.links) → (link : Link)
        → ports_on link (map move (filter (λ (row : NodeRow). stay row.id) rows) ++ new)
        ≡ filter (stays_at stay) (ports_on link rows) ++ ports_on link new }
    ensures points { (big : Big) (link : Link) → big.inner ≡ [] → points_of (links_of big) link ≡ ports_on link big.nodes }
{}

/// Where rows are taken out, moved and put behind, the numbers are those that are due, and the rows are where each one is.
pub fn stores_leave_what_is_due()
    ensures numbers { (host : HostState) (rule : RuleParts) (boundary : Boundary) (gone : List ℕ) (move : NodeRow → NodeRow)
        (new rows : List NodeRow) → ((row : NodeRow) → (move row).id ≡ row.id)
        → node_numbers new ≡ counted host.next_node (length rule.reactum.nodes + late_count boundary.parts [] rule.map)
        → rows ≡ map move (filter (λ (row : NodeRow). not (is_among row.id gone)) host.big.nodes) ++ new
        → node_numbers rows ≡ numbers_made host rule boundary gone }
    ensures rows { (host : HostState) (rule : RuleParts) (nodes : List ℕ) (boundary : Boundary) (gone : List ℕ)
        (move : NodeRow → NodeRow) (new rows : List NodeRow)
        → rows ≡ map move (filter (λ (row : NodeRow). not (is_among row.id gone)) host.big.nodes) ++ new
        → ((row : NodeRow) → Mem row host.big.nodes → not (is_among row.id gone) ≡ true
        → IsRowAfter host rule nodes boundary (move row))
        → ((row : NodeRow) → Mem row new → IsRowAfter host rule nodes boundary row)
        → (row : NodeRow) → Mem row rows → IsRowAfter host rule nodes boundary row }
{}
