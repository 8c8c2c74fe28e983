//! A stack of bigraphs in the making.
use crate::closing::put_closed;
use crate::composing::{put_composed, put_nested};
use crate::finishing::taken_off;
use crate::frames::{Frame, or_none, take_one, top_two};
use crate::lists::Lists;
use crate::numbering::{top_behind, two_follow};
use crate::products::{put_merged, put_parallel, put_tensor};
use crate::pushing::{put_atom, put_big, put_ion};
use crate::tables::{has_no_inner, has_outer, inner_apart, names_agree, outer_apart};
use bg_algebra::AlgebraFault;
use bg_base::{Big, Name};
use bg_lists::{Mem, Rows};
use std::alloc::Global;
use std::marker::Model;

/// A stack of valid bigraphs, of which the two topmost ones are put together in place. A contract sees the list of them,
/// the topmost first. The rows of all stand in common lists, those of each behind those of the one below it, so that two
/// that follow each other are one by taking away the line between them.
#[derive(Drop)]
pub struct BigStack {
    lists: Lists,
    frames: Vec<Frame>,
}

impl Model for BigStack {
    ghost use Rattle.std.specs.Prelude.{List, reverse};
    ghost use Rattle.bg_base.specs.declared.big.Big.{Big as BigValue};
    ghost use Rattle.bg_builder.specs.Frames.{laid_rows, AreKept, stack_of};

    ghost Value = { List BigValue };

    ghost view = { λ stack. stack_of stack.lists stack.frames.items };

    ghost invariant = { λ stack. AreKept (laid_rows stack.lists) (reverse stack.frames.items) };
}

impl BigStack {
    ghost use Rattle.std.specs.Prelude.{◌≡◌, ◌↔◌, true, List, [], ◌∷◌, length, is_some, IsTrue, IsSome, IsNone, IfSome, IfOk, IfErr, OnOk, OnErr, IsErrOf, Contains};
    ghost use Rattle.bg_base.specs.Bigraph.{IsValid, outer_of};
    ghost use Rattle.bg_base.specs.Composition as composition;
    ghost use Rattle.bg_base.specs.Elementary as elementary;
    ghost use Rattle.bg_base.specs.Products as product;
    ghost use Rattle.bg_builder.specs.Stack as stack;
    ghost use Rattle.bg_builder.specs.Stack.{topmost, top, under, second, others};

    /// A stack of none. Takes no memory.
    pub fn new(alloc: Global) -> BigStack
        ensures { result ≡ [] }
    {
        BigStack {
            lists: Lists::new(alloc),
            frames: Vec::new(alloc),
        }
    }

    /// Puts the bigraph on top. Moves its rows; costs time n log n in its names. Where memory is wanting no bigraph is
    /// left on the stack.
    pub fn push(&mut self, alloc: Global, big: Big) -> Mem<()>
        requires valid { IsValid big }
        ensures pushed { OnOk result (self.new ≡ big ∷ self.old) }
        ensures emptied { OnErr result (self.new ≡ []) }
    {
        let done = put_big(alloc, &mut self.lists, &mut self.frames, big);
        or_none(&mut self.frames, done)
    }

    /// Puts a node with a site in it on top (Milner, chapter 3: ion), as [`bg_algebra::ion`] makes it. Moves the names;
    /// costs time n log n in them. Where memory is wanting no bigraph is left on the stack.
    pub fn push_ion(&mut self, alloc: Global, control: u32, node: u32, names: Rows<Name>) -> Mem<()>
        ensures pushed { OnOk result (self.new ≡ elementary.ion control node names ∷ self.old) }
        ensures emptied { OnErr result (self.new ≡ []) }
    {
        let done = put_ion(
            alloc,
            &mut self.lists,
            &mut self.frames,
            control,
            node,
            names,
        );
        or_none(&mut self.frames, done)
    }

    /// Puts a node with nothing in it on top (Milner, chapter 3: atom), as [`bg_algebra::atom`] makes it. Moves the names;
    /// costs time n log n in them. Where memory is wanting no bigraph is left on the stack.
    pub fn push_atom(
        &mut self,
        alloc: Global,
        control: u32,
        node: u32,
        names: Rows<Name>,
    ) -> Mem<()>
        ensures pushed { OnOk result (self.new ≡ elementary.atom control node names ∷ self.old) }
        ensures emptied { OnErr result (self.new ≡ []) }
    {
        let done = put_atom(
            alloc,
            &mut self.lists,
            &mut self.frames,
            control,
            node,
            names,
        );
        or_none(&mut self.frames, done)
    }

    /// The topmost bigraph as lists of rows, or `None` where there is none. Moves its rows, if it is the only one; costs
    /// time in proportion to its names.
    pub fn finish(self, alloc: Global) -> Mem<Option<Big>>
        ensures value { IfOk result (λ found. found ≡ topmost self) }
        ensures valid { IfOk result (λ found. IfSome found IsValid) }
    {
        let BigStack { lists, mut frames } = self;
        match take_one(&mut frames) {
            Some(frame) => Ok(Some(taken_off(alloc, lists, frame)?)),
            None => Ok(None),
        }
    }

    /// How many nodes the topmost bigraph has; 0 where there is none. Takes constant time.
    pub fn nodes(&self) -> usize
        ensures { result ≡ length (top self.now).nodes }
    {
        match self.frames.last() {
            Some(frame) => self.lists.nodes.len() - frame.nodes,
            None => 0,
        }
    }

    /// How many edges the topmost bigraph has; 0 where there is none. Takes constant time.
    pub fn edges(&self) -> usize
        ensures { result ≡ length (top self.now).edges }
    {
        match self.frames.last() {
            Some(frame) => self.lists.edges.len() - frame.edges,
            None => 0,
        }
    }

    /// How many sites the topmost bigraph has; 0 where there is none. Takes constant time.
    pub fn sites(&self) -> usize
        ensures { result ≡ length (top self.now).sites }
    {
        match self.frames.last() {
            Some(frame) => self.lists.sites.len() - frame.sites,
            None => 0,
        }
    }

    /// How many regions the topmost bigraph has; 0 where there is none. Takes constant time.
    pub fn regions(&self) -> u32
        ensures { result ≡ (top self.now).regions }
    {
        match self.frames.last() {
            Some(frame) => frame.regions,
            None => 0,
        }
    }

    /// Whether the topmost bigraph has that outer name. Takes time in proportion to the logarithm of the number of its
    /// outer names.
    pub fn has_outer(&self, name: &Name) -> bool
        ensures { result ≡ is_some (outer_of (top self.now).outer name.now) }
    {
        match self.frames.last() {
            Some(frame) => has_outer(&frame.outer, name),
            None => false,
        }
    }

    /// Whether there are two bigraphs, and the numbers of the nodes and edges of the topmost one lie behind those of the
    /// second, so that no node and no edge is in both. Takes constant time.
    pub fn two_follow(&self) -> bool
        ensures { result ≡ stack.two_follow self.now }
    {
        two_follow(&self.lists, &self.frames)
    }

    /// Whether there is a bigraph, and the numbers of the edges of the topmost one lie behind that one. Takes constant
    /// time.
    pub fn lies_behind(&self, edge: u32) -> bool
        ensures { result ≡ stack.top_behind edge self.now }
    {
        top_behind(&self.lists, &self.frames, edge)
    }

    /// The tensor product of the two topmost bigraphs in their place (Milner, chapter 2): the topmost one beside the
    /// second one, its regions and sites after those of the second one; no name is in both. The numbers of the topmost one
    /// follow those of the second one. It refuses by `NamesMeet`, number 13, where an inner name is in both or an outer
    /// name is in both, and leaves the stack as it is. Costs time in proportion to the topmost one, and for each of its
    /// names the logarithm of the number of names of the second one. Memory is wanting too where 32 bits would not number
    /// the regions; then no bigraph is left on the stack.
    pub fn tensor(&mut self) -> Result<(), AlgebraFault>
        requires follow { stack.two_follow self.old ≡ true }
        ensures product { OnOk result (self.new ≡ product.tensor (second self.old) (top self.old) ∷ others self.old) }
        ensures defined { OnOk result (product.InnerApart (second self.old) (top self.old) × product.OuterApart (second self.old) (top self.old)) }
        ensures names { IsErrOf result AlgebraFault.NamesMeet ↔ ¬ (product.InnerApart (second self.old) (top self.old) × product.OuterApart (second self.old) (top self.old)) }
        ensures no_other { IfErr result (λ fault. Contains (AlgebraFault.NamesMeet ∷ AlgebraFault.OutOfMemory ∷ []) fault) }
        ensures stays { IsErrOf result AlgebraFault.NamesMeet → self.new ≡ self.old }
        ensures emptied { IsErrOf result AlgebraFault.OutOfMemory → self.new ≡ [] }
    {
        if !self.inner_is_apart() || !self.outer_is_apart() {
            return Err(AlgebraFault::NamesMeet);
        }
        let done = put_tensor(&mut self.lists, &mut self.frames);
        or_none(&mut self.frames, done)?;
        Ok(())
    }

    /// The parallel product of the two topmost bigraphs in their place (Milner, chapter 3): the topmost one beside the
    /// second one as in the tensor product, where an outer name that both have is one name. It refuses by
    /// `InnerNamesMeet`, number 14, where an inner name is in both, and leaves the stack as it is. It asks as much of
    /// their numbers and of memory, and costs as much, as [`BigStack::tensor`] does.
    pub fn parallel(&mut self) -> Result<(), AlgebraFault>
        requires follow { stack.two_follow self.old ≡ true }
        ensures product { OnOk result (self.new ≡ product.parallel (second self.old) (top self.old) ∷ others self.old) }
        ensures defined { OnOk result (product.InnerApart (second self.old) (top self.old)) }
        ensures names { IsErrOf result AlgebraFault.InnerNamesMeet ↔ ¬ product.InnerApart (second self.old) (top self.old) }
        ensures no_other { IfErr result (λ fault. Contains (AlgebraFault.InnerNamesMeet ∷ AlgebraFault.OutOfMemory ∷ []) fault) }
        ensures stays { IsErrOf result AlgebraFault.InnerNamesMeet → self.new ≡ self.old }
        ensures emptied { IsErrOf result AlgebraFault.OutOfMemory → self.new ≡ [] }
    {
        if !self.inner_is_apart() {
            return Err(AlgebraFault::InnerNamesMeet);
        }
        let done = put_parallel(&mut self.lists, &mut self.frames);
        or_none(&mut self.frames, done)?;
        Ok(())
    }

    /// The merge product of the two topmost bigraphs in their place (Milner, chapter 3): the parallel product with one
    /// region in place of all, also where there was none. It refuses as [`BigStack::parallel`] does. Costs time in
    /// proportion to the topmost one where that has not one region, for each of its names the logarithm of the number of
    /// names of the second one; and where the second one has not one region, in proportion to the nodes and sites of both.
    /// Where memory is wanting no bigraph is left on the stack.
    pub fn merge(&mut self) -> Result<(), AlgebraFault>
        requires follow { stack.two_follow self.old ≡ true }
        ensures product { OnOk result (self.new ≡ product.merge (second self.old) (top self.old) ∷ others self.old) }
        ensures defined { OnOk result (product.InnerApart (second self.old) (top self.old)) }
        ensures names { IsErrOf result AlgebraFault.InnerNamesMeet ↔ ¬ product.InnerApart (second self.old) (top self.old) }
        ensures no_other { IfErr result (λ fault. Contains (AlgebraFault.InnerNamesMeet ∷ AlgebraFault.OutOfMemory ∷ []) fault) }
        ensures stays { IsErrOf result AlgebraFault.InnerNamesMeet → self.new ≡ self.old }
        ensures emptied { IsErrOf result AlgebraFault.OutOfMemory → self.new ≡ [] }
    {
        if !self.inner_is_apart() {
            return Err(AlgebraFault::InnerNamesMeet);
        }
        let done = put_merged(&mut self.lists, &mut self.frames);
        or_none(&mut self.frames, done)?;
        Ok(())
    }

    /// The composition of the two topmost bigraphs in their place, with the topmost one below (Milner, chapter 2): what
    /// lies in region `j` of the topmost one comes to lie where site `j` of the second one lies, and what is tied to its
    /// outer name `y` is tied to the link of inner name `y` of the second one. The numbers of the topmost one follow those
    /// of the second one. It refuses by `FacesDiffer`, number 11, where the topmost one has not as many regions as the
    /// second one has sites or its outer names are not the inner names of the second one, and leaves the stack as it is.
    /// Costs time in proportion to the topmost one, and for each of its links the logarithm of the number of its outer
    /// names; each of its ports gets a copy of the name that its link becomes. Where memory is wanting no bigraph is left
    /// on the stack.
    pub fn compose(&mut self, alloc: Global) -> Result<(), AlgebraFault>
        requires follow { stack.two_follow self.old ≡ true }
        ensures composed { OnOk result (self.new ≡ composition.compose (second self.old) (top self.old) ∷ others self.old) }
        ensures defined { OnOk result (composition.FacesAgree (second self.old) (top self.old)) }
        ensures faces { IsErrOf result AlgebraFault.FacesDiffer ↔ ¬ composition.FacesAgree (second self.old) (top self.old) }
        ensures no_other { IfErr result (λ fault. Contains (AlgebraFault.FacesDiffer ∷ AlgebraFault.OutOfMemory ∷ []) fault) }
        ensures stays { IsErrOf result AlgebraFault.FacesDiffer → self.new ≡ self.old }
        ensures emptied { IsErrOf result AlgebraFault.OutOfMemory → self.new ≡ [] }
    {
        if !self.faces_agree() {
            return Err(AlgebraFault::FacesDiffer);
        }
        let done = put_composed(alloc, &mut self.lists, &mut self.frames);
        or_none(&mut self.frames, done)?;
        Ok(())
    }

    /// The nesting of the topmost bigraph in the second one, in their place (Milner, chapter 3): it lies in the sites of
    /// the second one, which has no inner names, and an outer name that both have is one name. The numbers of the topmost
    /// one follow those of the second one. It refuses, in this order: `HasInnerNames`, number 17, where the second one has
    /// an inner name; `WidthsDiffer`, number 15, where the topmost one has not as many regions as the second one has
    /// sites. Then the stack stays as it is. Costs time in proportion to the topmost one, and for each of its outer names
    /// the logarithm of the number of names of the second one. Where memory is wanting no bigraph is left on the stack.
    pub fn nest(&mut self) -> Result<(), AlgebraFault>
        requires follow { stack.two_follow self.old ≡ true }
        ensures product { OnOk result (self.new ≡ product.nest (second self.old) (top self.old) ∷ others self.old) }
        ensures defined { OnOk result (((second self.old).inner ≡ []) × ((top self.old).regions ≡ length (second self.old).sites)) }
        ensures inner_names { IsErrOf result AlgebraFault.HasInnerNames ↔ ¬ ((second self.old).inner ≡ []) }
        ensures widths { IsErrOf result AlgebraFault.WidthsDiffer ↔ (((second self.old).inner ≡ []) × ¬ ((top self.old).regions ≡ length (second self.old).sites)) }
        ensures no_other { IfErr result (λ fault. Contains (AlgebraFault.HasInnerNames ∷ AlgebraFault.WidthsDiffer ∷ AlgebraFault.OutOfMemory ∷ []) fault) }
        ensures stays { IsErrOf result AlgebraFault.HasInnerNames → self.new ≡ self.old }
        ensures stays_too { IsErrOf result AlgebraFault.WidthsDiffer → self.new ≡ self.old }
        ensures emptied { IsErrOf result AlgebraFault.OutOfMemory → self.new ≡ [] }
    {
        if !self.has_no_inner() {
            return Err(AlgebraFault::HasInnerNames);
        }
        if !self.widths_agree() {
            return Err(AlgebraFault::WidthsDiffer);
        }
        let done = put_nested(&mut self.lists, &mut self.frames);
        or_none(&mut self.frames, done)?;
        Ok(())
    }

    /// Makes the outer name of the topmost bigraph the edge `edge` (Milner, chapter 3: closure). What was tied to the name
    /// is tied to the edge, which is there also where nothing was. The edges of this bigraph lie behind that one. It
    /// refuses by `NoSuchName`, number 16, where the name is no outer name, and leaves the stack as it is. Costs time in
    /// proportion to the bigraph; rows that the name is not tied to stay as they are. Where memory is wanting no bigraph
    /// is left on the stack.
    pub fn close(&mut self, alloc: Global, name: &Name, edge: u32) -> Result<(), AlgebraFault>
        requires new { stack.top_behind edge self.old ≡ true }
        ensures closed { OnOk result (self.new ≡ product.close (top self.old) name.now edge ∷ under self.old) }
        ensures defined { OnOk result (IsSome (outer_of (top self.old).outer name.now)) }
        ensures name_there { IsErrOf result AlgebraFault.NoSuchName ↔ IsNone (outer_of (top self.old).outer name.now) }
        ensures no_other { IfErr result (λ fault. Contains (AlgebraFault.NoSuchName ∷ AlgebraFault.OutOfMemory ∷ []) fault) }
        ensures stays { IsErrOf result AlgebraFault.NoSuchName → self.new ≡ self.old }
        ensures emptied { IsErrOf result AlgebraFault.OutOfMemory → self.new ≡ [] }
    {
        if !self.has_outer(name) {
            return Err(AlgebraFault::NoSuchName);
        }
        let done = put_closed(alloc, &mut self.lists, &mut self.frames, name, edge);
        or_none(&mut self.frames, done)?;
        Ok(())
    }

    /// Whether no inner name is in both of the two topmost bigraphs.
    #[tactic(auto, using(crate::proofs::Stacked::two_there))]
    fn inner_is_apart(&self) -> bool
        requires follow { stack.two_follow self.now ≡ true }
        ensures { IsTrue result ↔ product.InnerApart (second self.now) (top self.now) }
    {
        let (f, g) = top_two(&self.frames);
        inner_apart(&f.inner, &g.inner)
    }

    /// Whether no outer name is in both of the two topmost bigraphs.
    #[tactic(auto, using(crate::proofs::Stacked::two_there))]
    fn outer_is_apart(&self) -> bool
        requires follow { stack.two_follow self.now ≡ true }
        ensures { IsTrue result ↔ product.OuterApart (second self.now) (top self.now) }
    {
        let (f, g) = top_two(&self.frames);
        outer_apart(&f.outer, &g.outer)
    }

    /// Whether the outer face of the topmost bigraph is the inner face of the second one.
    #[tactic(auto, using(crate::proofs::Stacked::two_there))]
    fn faces_agree(&self) -> bool
        requires follow { stack.two_follow self.now ≡ true }
        ensures { IsTrue result ↔ composition.FacesAgree (second self.now) (top self.now) }
    {
        let (g, f) = top_two(&self.frames);
        self.widths_agree() && names_agree(&f.outer, &g.inner)
    }

    /// Whether the topmost bigraph has as many regions as the second one has sites.
    #[tactic(auto, using(crate::proofs::Stacked::two_there))]
    fn widths_agree(&self) -> bool
        requires follow { stack.two_follow self.now ≡ true }
        ensures { IsTrue result ↔ ((top self.now).regions ≡ length (second self.now).sites) }
    {
        let (f, g) = top_two(&self.frames);
        g.regions as usize == g.sites - f.sites
    }

    /// Whether the second bigraph has no inner name.
    #[tactic(auto, using(crate::proofs::Stacked::two_there))]
    fn has_no_inner(&self) -> bool
        requires follow { stack.two_follow self.now ≡ true }
        ensures { IsTrue result ↔ ((second self.now).inner ≡ []) }
    {
        let (f, _) = top_two(&self.frames);
        has_no_inner(&f.inner)
    }
}
