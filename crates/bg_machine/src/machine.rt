//! The state of the machine, and what each operation does with it.
use crate::entering::enter;
use crate::forms::{close_name, idle_names, push_single, test_limits, wide_identity, wide_merger};
use crate::met::Met;
use crate::operators::{combine, nest};
use bg_algebra::{barren, empty};
use bg_base::limits::{MOST_DEPTH, MOST_TERMS};
use bg_base::{Big, Ident, Kind, Signature, Value};
use bg_builder::BigStack;
use bg_code::Arguments;
use bg_lists::Rows;
use bg_terms::{BinaryOperation, Shape};
use bg_values::{Cause, LimitWord, Refusal, Stack, Stop};
use std::alloc::Global;
use std::marker::Model;

/// The state of the machine: the bigraphs that wait for their operator, the numbers of the edges of the closures that
/// are open, how many `K` are open, and how far the evaluation has come: the signature of the controls met, and how
/// many nodes, closures and terms. Each node counts as a term, so there are at most as many.
#[derive(Drop)]
pub(crate) struct Machine {
    stack: BigStack,
    edges_open: Stack<u32>,
    depth: u32,
    signature: Signature,
    nodes: u32,
    edges: u32,
    terms: u32,
}

impl Model for Machine {
    ghost use Rattle.std.specs.Prelude.{◌≤◌};
    ghost use Rattle.bg_machine.specs.States.{State};

    ghost Value = { State };

    ghost view = { λ machine. record {
      stack = machine.stack;
      edges_open = machine.edges_open;
      depth = machine.depth;
      reached = record { signature = machine.signature; nodes = machine.nodes; edges = machine.edges; terms = machine.terms };
    } };

    ghost invariant = { λ machine. machine.nodes ≤ machine.terms };
}

impl Machine {
    ghost use Rattle.std.specs.Prelude.{◌≡◌, ◌<◌, ◌≤◌, ◌∷◌, [], true, false, IfOk, IfErr, MatchResult, Ok, Err, Some, slice_get, option_copied};
    ghost use Rattle.bg_terms.specs.declared.shape.Shape.{Shape as ShapeValue};
    ghost use Rattle.bg_base.specs.Limits.{most_ports};
    ghost use Rattle.bg_base.specs.Bigraph.{IsValid};
    ghost use Rattle.bg_machine.specs.Machine as definition;
    ghost use Rattle.bg_machine.specs.Calls as calls;
    ghost use Rattle.bg_builder.specs.Stack.{two_follow};
    ghost use Rattle.bg_machine.specs.States.{pushed, gone_on};
    ghost use Rattle.bg_terms.specs.Expansion.{control_of_shape, with_values, node_term};
    ghost use Rattle.bg_terms.specs.Terms as terms;
    ghost use Rattle.bg_terms.specs.Values as values;
    ghost use Rattle.bg_values.specs.Operands.{outcomes};
    ghost use Rattle.bg_values.specs.Outcome.{Gives, Goes, there_or};
    ghost use Rattle.bg_values.specs.Stacks.{first, rest};
    ghost use Rattle.bg_values.specs.declared.refusal.Cause.TheVariants as causes;

    /// The machine before a whole expression, where these controls and so many terms were met. Takes no memory.
    pub(crate) fn new(alloc: Global, met: Met) -> Machine
        ensures { result ≡ record { stack = []; edges_open = []; depth = 0; reached = record { signature = met.signature; nodes = 0; edges = 0; terms = met.terms } } }
    {
        Machine {
            stack: BigStack::new(alloc),
            edges_open: Stack::new(alloc),
            depth: 0,
            signature: met.signature,
            nodes: 0,
            edges: 0,
            terms: met.terms,
        }
    }

    /// The bigraph on top, and what was met; `Unexpected` (31) where there is none, as in the code of no expression.
    pub(crate) fn finish(self, alloc: Global) -> Result<(Big, Met), Stop>
        ensures value { Gives result (calls.finished self) }
        ensures valid { IfOk result (λ found. IsValid found.0) }
    {
        let Machine {
            stack,
            signature,
            terms,
            ..
        } = self;
        match stack.finish(alloc)? {
            Some(big) => Ok((big, Met { signature, terms })),
            None => Err(Stop::refuse(Cause::Unexpected, 0)),
        }
    }

    /// One more term.
    pub(crate) fn count(&mut self, at: u32) -> Result<(), Refusal>
        ensures counted { let wanted = gone_on self.old (values.tallied at self.old.reached) in MatchResult result (λ _. wanted ≡ Ok self.new) (λ refusal. wanted ≡ Err refusal) }
        ensures room { IfOk result (λ _. self.new.reached.nodes < self.new.reached.terms) }
    {
        if self.terms >= MOST_TERMS {
            return Err(Refusal::new(Cause::TooLarge(LimitWord::Terms), at));
        }
        self.terms += 1;
        Ok(())
    }

    /// One deeper.
    pub(crate) fn go_deeper(&mut self, at: u32) -> Result<(), Refusal>
        ensures { let wanted = definition.deeper_by_one at self.old in MatchResult result (λ _. wanted ≡ Ok self.new) (λ refusal. wanted ≡ Err refusal) }
    {
        if self.depth >= MOST_DEPTH {
            return Err(Refusal::new(Cause::TooLarge(LimitWord::Depth), at));
        }
        self.depth += 1;
        Ok(())
    }

    /// One `K` ends.
    pub(crate) fn come_back(&mut self)
        ensures { self.new ≡ definition.back_by_one self.old }
    {
        self.depth = self.depth.saturating_sub(1);
    }

    /// Takes the number of the edge of a closure.
    pub(crate) fn open(&mut self) -> Result<(), Stop>
        ensures { Goes result self.new (Ok (definition.opened self.old)) }
    {
        let Some(next) = self.edges.checked_add(1) else {
            return Err(Stop::OutOfMemory);
        };
        self.edges_open.push(self.edges)?;
        self.edges = next;
        Ok(())
    }

    /// Puts the bigraph on top, where it is within the limits.
    pub(crate) fn put(&mut self, alloc: Global, at: u32, big: Big) -> Result<(), Stop>
        requires valid { IsValid big }
        ensures { Goes result self.new (pushed self.old (values.within at big self.old.reached)) }
    {
        self.stack.push(alloc, big)?;
        test_limits(at, &self.stack)?;
        Ok(())
    }

    /// `{x,y}`
    #[tactic(auto, using(crate::proofs::Counting::counted_goes, crate::proofs::Counting::counted_stops))]
    pub(crate) fn put_names(
        &mut self,
        alloc: Global,
        at: u32,
        words: &Rows<Ident>,
    ) -> Result<(), Stop>
        ensures { Goes result self.new (definition.comes_to self.old (terms.names at words.now)) }
    {
        self.count(at)?;
        let big = idle_names(alloc, words.as_slice())?;
        self.put(alloc, at, big)
    }

    /// `id(n,{x})`
    #[tactic(auto, using(crate::proofs::Counting::counted_goes, crate::proofs::Counting::counted_stops))]
    pub(crate) fn put_identity(
        &mut self,
        alloc: Global,
        at: u32,
        width: u64,
        words: &Rows<Ident>,
    ) -> Result<(), Stop>
        ensures { Goes result self.new (definition.comes_to self.old (terms.identity_of at width words.now)) }
    {
        self.count(at)?;
        let big = wide_identity(alloc, at, width, words.as_slice())?;
        self.put(alloc, at, big)
    }

    /// `merge(n)`
    #[tactic(auto, using(crate::proofs::Counting::counted_goes, crate::proofs::Counting::counted_stops))]
    pub(crate) fn put_merger(&mut self, alloc: Global, at: u32, width: u64) -> Result<(), Stop>
        ensures { Goes result self.new (definition.comes_to self.old (terms.merger_of at width)) }
    {
        self.count(at)?;
        let big = wide_merger(alloc, at, width)?;
        self.put(alloc, at, big)
    }

    /// `1`
    #[tactic(auto, using(crate::proofs::Counting::counted_goes, crate::proofs::Counting::counted_stops))]
    pub(crate) fn put_barren(&mut self, alloc: Global, at: u32) -> Result<(), Stop>
        ensures { Goes result self.new (definition.comes_to self.old (terms.barren at)) }
    {
        self.count(at)?;
        self.put(alloc, at, barren(alloc))
    }

    /// `0`
    #[tactic(auto, using(crate::proofs::Counting::counted_goes, crate::proofs::Counting::counted_stops))]
    pub(crate) fn put_empty(&mut self, alloc: Global, at: u32) -> Result<(), Stop>
        ensures { Goes result self.new (definition.comes_to self.old (terms.empty at)) }
    {
        self.count(at)?;
        self.put(alloc, at, empty(alloc))
    }

    /// `K(..){a,b}`
    #[tactic(auto, using(crate::proofs::Counting::counted_goes, crate::proofs::Counting::counted_stops))]
    pub(crate) fn put_node(
        &mut self,
        alloc: Global,
        shape: Option<&Shape>,
        env: &[Value],
        at: u32,
        arguments: &Arguments,
        ports: &Rows<Ident>,
    ) -> Result<(), Stop>
        requires small { (found : ShapeValue) → option_copied shape ≡ Some found → found.arity ≤ most_ports }
        ensures { Goes result self.new (pushed self.old (definition.counted_node at (outcomes env.now arguments.now) (option_copied shape.entry) ports.now self.old.reached)) }
    {
        self.count(at)?;
        self.put_evaluated(alloc, shape, env, at, arguments, ports)
    }

    /// The node `K(..){a,b}` on top, once its term is counted: its arguments are evaluated first.
    fn put_evaluated(
        &mut self,
        alloc: Global,
        shape: Option<&Shape>,
        env: &[Value],
        at: u32,
        arguments: &Arguments,
        ports: &Rows<Ident>,
    ) -> Result<(), Stop>
        requires room { self.old.reached.nodes < self.old.reached.terms }
        requires small { (found : ShapeValue) → option_copied shape ≡ Some found → found.arity ≤ most_ports }
        ensures { Goes result self.new (pushed self.old (definition.evaluated_node at (outcomes env.now arguments.now) (option_copied shape.entry) ports.now self.old.reached)) }
    {
        let args = arguments.values(alloc, env)?;
        match shape {
            Some(shape) => self.put_shape(alloc, at, shape, args, ports),
            None => Err(Stop::refuse(Cause::UnknownName, at)),
        }
    }

    /// A node of this shape with these arguments, once it is counted.
    fn put_shape(
        &mut self,
        alloc: Global,
        at: u32,
        shape: &Shape,
        args: Vec<Value>,
        ports: &Rows<Ident>,
    ) -> Result<(), Stop>
        requires room { self.old.reached.nodes < self.old.reached.terms }
        requires small { shape.now.arity ≤ most_ports }
        ensures { Goes result self.new (pushed self.old (definition.node_made at (control_of_shape shape.now args.items) ports.now self.old.reached)) }
    {
        prove!(self.nodes < self.terms);
        let node = self.nodes;
        let number = enter(alloc, at, shape, args, &mut self.signature)?;
        self.nodes = node + 1;
        self.put_single(alloc, at, shape.kind, number, node, ports)
    }

    /// A node of the control on top, where it is within the limits.
    fn put_single(
        &mut self,
        alloc: Global,
        at: u32,
        kind: Kind,
        control: u32,
        node: u32,
        ports: &Rows<Ident>,
    ) -> Result<(), Stop>
        ensures { Goes result self.new (pushed self.old (values.within at (values.single kind control node (values.plain_names ports.now)) self.old.reached)) }
    {
        push_single(alloc, &mut self.stack, kind, control, node, ports)?;
        test_limits(at, &self.stack)?;
        Ok(())
    }

    /// Takes the number of the edge of the innermost closure that is open.
    pub(crate) fn take_edge(&mut self, at: u32) -> Result<u32, Refusal>
        ensures top { result ≡ there_or causes.Unexpected at (first self.old.edges_open) }
        ensures left { self.new ≡ record self.old { edges_open = rest self.old.edges_open } }
    {
        match self.edges_open.pop() {
            Some(edge) => Ok(edge),
            None => Err(Refusal::new(Cause::Unexpected, at)),
        }
    }

    /// The refusal where the numbers of the bigraph on top do not lie behind those of the one below it, or there are not
    /// two: code of no expression.
    fn test_two(&self, at: u32) -> Result<(), Refusal>
        ensures follow { IfOk result (λ _. two_follow self.now.stack ≡ true) }
        ensures refused { IfErr result (λ refusal. (two_follow self.now.stack ≡ false) × (refusal ≡ definition.unexpected at)) }
    {
        if self.stack.two_follow() {
            Ok(())
        } else {
            Err(Refusal::new(Cause::Unexpected, at))
        }
    }

    /// What the operation makes of the two on top, in their place.
    pub(crate) fn join(
        &mut self,
        alloc: Global,
        operation: BinaryOperation,
        at: u32,
    ) -> Result<(), Stop>
        ensures { Goes result self.new (definition.joined at (values.combined operation at) self.old) }
    {
        self.test_two(at)?;
        combine(alloc, operation, at, &mut self.stack)?;
        test_limits(at, &self.stack)?;
        Ok(())
    }

    /// The bigraph on top, nested in the one below it, in their place.
    pub(crate) fn nest(&mut self, at: u32, is_atom: bool) -> Result<(), Stop>
        ensures { Goes result self.new (definition.joined at (values.nested at is_atom) self.old) }
    {
        self.test_two(at)?;
        nest(at, is_atom, &mut self.stack)?;
        test_limits(at, &self.stack)?;
        Ok(())
    }

    /// Closes the name in the bigraph on top, by the edge of the innermost closure that is open.
    pub(crate) fn close(&mut self, alloc: Global, at: u32, word: &Ident) -> Result<(), Stop>
        ensures { Goes result self.new (definition.closing at word.now self.old) }
    {
        let edge = self.take_edge(at)?;
        self.close_by(alloc, at, word, edge)
    }

    /// Closes the name in the bigraph on top by that edge.
    fn close_by(&mut self, alloc: Global, at: u32, word: &Ident, edge: u32) -> Result<(), Stop>
        ensures { Goes result self.new (definition.closing_by at word.now edge self.old) }
    {
        if !self.stack.lies_behind(edge) {
            return Err(Stop::refuse(Cause::Unexpected, at));
        }
        close_name(alloc, &mut self.stack, word, edge)?;
        test_limits(at, &self.stack)?;
        Ok(())
    }
}
