//! Reactions in place: the redex of a rule replaced by its reactum, at the cost of what that touches.
ghost use Rattle.std.specs.Prelude.{◌≡◌, IfOk, OnOk, OnErr, IsErrOf};
ghost use Rattle.bg_rewriting.specs.Touching.{IsTouched};
ghost use Rattle.bg_rules.specs.Decomposition.{Occurs};
ghost use Rattle.bg_rules.specs.Limits.{IsWithinLimits, PassesALimit};
ghost use Rattle.bg_rules.specs.Reaction.{Reacts};
ghost use Rattle.bg_index.specs.Causes.{AreCauses};
ghost use Rattle.bg_index.specs.Plans.{host_planned};
ghost use Rattle.bg_index.specs.Telling.{IsPlanned};

use crate::IndexedHost;
use crate::causes::{Causes, causes_of};
use crate::commit::carry_out;
use crate::planning::plan_of;
use crate::plans::Plan;
use crate::room::make_room;
use crate::touched::{Touched, touched_by};
use bg_lists::Mem;
use bg_rules::{ReactFault, Rule};
use std::alloc::Global;

impl IndexedHost {
    /// The reaction of the host by the rule, whose redex occurs at the nodes of the map (Milner, chapter 8): the same host
    /// as `react` of bg_react leaves, and what it touches. The conditions of the rule are not looked at.
    ///
    /// It refuses with `Full` where the host would pass one of its limits: more than 65,536 nodes or edges, or a counter
    /// above 2,147,483,648. All that may fail is done before anything is changed, so at a refusal the host stays as it was.
    /// Costs time n log n in the size of the rule, the copies that are made or dropped, the nodes that move, and the points of
    /// the links that lose or get one, whose nodes it tells; besides, the numbers of the children of the places in which an image
    /// lies are copied, and nodes, edges and points that go are taken out of lists whose other items move up. A part for which
    /// one entry asks is not walked. Memory in proportion to the first, and to those children.
    pub fn react_in_place(
        &mut self,
        alloc: Global,
        rule: &Rule,
        map: &[u32],
    ) -> Result<Touched, ReactFault>
        requires occurs { Occurs self.old.big rule.now.redex map.now }
        ensures reacts { OnOk result (Reacts self.old rule.now map.now self.new) }
        ensures within { OnOk result (IsWithinLimits self.new) }
        ensures touched { IfOk result (λ touched. IsTouched self.old.big self.new.big touched.gone.items touched.changed.items) }
        ensures full { IsErrOf result ReactFault.Full → PassesALimit self.old rule.now map.now }
        ensures kept { OnErr result (self.new ≡ self.old) }
    {
        let _ = &self.index;
        let _pattern = rule.redex();
        let plan = plan_of(alloc, self, rule, map)?;
        let touched = touched_by(alloc, self, &plan)?;
        self.follow(alloc, plan)?;
        Ok(touched)
    }

    /// The reaction of `react_in_place`, with its refusals, that tells why nodes are touched in place of which. The nodes that have
    /// a port on a link whose points are others are not listed, and the points that stay are not looked at: of a link that loses
    /// or gets points those that go are searched and taken out, what stands behind moves up, and those that come are put behind.
    /// For the rest it costs as `react_in_place`.
    pub fn react_telling_causes(
        &mut self,
        alloc: Global,
        rule: &Rule,
        map: &[u32],
    ) -> Result<Causes, ReactFault>
        requires occurs { Occurs self.old.big rule.now.redex map.now }
        ensures reacts { OnOk result (Reacts self.old rule.now map.now self.new) }
        ensures within { OnOk result (IsWithinLimits self.new) }
        ensures causes { IfOk result (AreCauses self.old.big self.new.big) }
        ensures full { IsErrOf result ReactFault.Full → PassesALimit self.old rule.now map.now }
        ensures kept { OnErr result (self.new ≡ self.old) }
    {
        let _ = &self.index;
        let _pattern = rule.redex();
        let plan = plan_of(alloc, self, rule, map)?;
        let causes = causes_of(alloc, self, &plan)?;
        self.follow(alloc, plan)?;
        Ok(causes)
    }

    /// Leaves the host that is planned; where there is no room for it, the host as it was. Costs as `make_room` and
    /// `carry_out`.
    fn follow(&mut self, alloc: Global, plan: Plan) -> Mem<()>
        requires planned { IsPlanned self.old plan }
        ensures done { OnOk result (self.new ≡ host_planned self.old plan) }
        ensures kept { OnErr result (self.new ≡ self.old) }
    {
        make_room(alloc, &mut self.index, &plan)?;
        carry_out(&mut self.index, plan);
        Ok(())
    }
}
