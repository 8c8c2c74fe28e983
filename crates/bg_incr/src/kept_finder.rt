//! Who lists the legal steps at a host that it keeps, from the occurrences that it keeps.
ghost use Rattle.std.specs.Prelude.{◌≡◌, ◌⊎◌, ◌+◌, ◌<◌, ◌^◌, ⊤, None, [], ◌∷◌, IfOk, OnOk, OnErr, IsErrOf, MatchOption};
ghost use Rattle.bg_cond.specs.Followers.{GoOn, HasFollowed, HasFollowedSome};
ghost use Rattle.bg_cond.specs.Drawn.{IsPick};
ghost use Rattle.bg_cond.specs.Picks.{next_state};
ghost use Rattle.bg_cond.specs.Steps.{AreFirstLegal, HasNoStep, IsLegal, IsTooLarge, LeadsTo};
ghost use Rattle.bg_cond.specs.Verdicts.{IsEnabledThere, IsJudged};
ghost use Rattle.bg_incr.specs.Finders.{AreKeptFor, HasTaken, StandsFor, Stays, WereKeptFor};

use crate::keeping::{are_keepable, picks_followed, picks_of};
use crate::listing::steps_from;
use crate::picking::pick_from;
use crate::replica::Replica;
use bg_base::{Entry, Step};
use bg_cond::{
    Finder, Follower, MOST_CANDIDATES, Picker, Verdict, View, judge_alone, judge_beside, steps_in,
};
use bg_index::{Causes, IndexedHost};
use bg_kept::KeptList;
use bg_lists::Mem;
use bg_match::NumberedHost;
use bg_rules::{Host, ReactFault, Rule, System};
use std::alloc::Global;
use std::marker::Model;

/// Who keeps a replica, and the first occurrences of the redex of each rule at its host, and lists the legal steps there. Of
/// a system with conditions no occurrences are kept. A contract sees the version and the host of the replica, and the lists.
#[derive(Drop)]
pub struct KeptFinder {
    replica: Replica,
    lists: Option<Vec<KeptList>>,
}

impl Model for KeptFinder {
    ghost use Rattle.std.specs.Prelude.{option_map};
    ghost use Rattle.bg_incr.specs.Finders.{FinderState};

    ghost Value = { FinderState };

    ghost view = { λ finder. record { version = finder.replica.version; host = finder.replica.host; lists = option_map (λ lists. lists.items) finder.lists } };
}

impl KeptFinder {
    /// Stands for the view's host at its version, under the system. Costs what [`Replica::start`] costs; lists are made when
    /// steps are asked for.
    pub fn start(alloc: Global, view: &View, _system: &System) -> Mem<KeptFinder>
        ensures { IfOk result (λ finder. finder ≡ record { version = view.now.version; host = view.now.host; lists = None }) }
    {
        let finder = KeptFinder::at(alloc, view.version, &view.host)?;
        Ok(finder)
    }

    /// Stands for the host at that version. Costs what [`Replica::start`] costs.
    pub fn at(alloc: Global, version: u32, host: &Host) -> Mem<KeptFinder>
        ensures { IfOk result (λ finder. finder ≡ record { version = version; host = host.now; lists = None }) }
    {
        let replica = Replica::at(alloc, version, host)?;
        Ok(KeptFinder {
            replica,
            lists: None,
        })
    }

    /// Stands for the view's host at its version from now on. Costs what [`Replica::start`] costs. Where there is no memory, it stands
    /// where it stood.
    pub fn look_at(&mut self, alloc: Global, view: &View) -> Mem<()>
        ensures at { OnOk result (self.new ≡ record { version = view.now.version; host = view.now.host; lists = None }) }
        ensures no_memory { OnErr result (Stays self.old self.new) }
    {
        self.lists = None;
        self.replica = Replica::at(alloc, view.version, &view.host)?;
        Ok(())
    }

    /// The host.
    pub fn host(&self) -> &IndexedHost
        ensures { result.now ≡ self.now.host }
    {
        self.replica.host()
    }

    /// Whether the step is legal at the host, or the first reason why it is not, as [`judge`](bg_cond::judge) tells. Costs what
    /// [`judge_alone`] costs; and where that does not tell, what [`Follower::steps`] costs for one step. It refuses for want of
    /// memory alone; host and version stay.
    pub fn judge(&mut self, alloc: Global, system: &System, step: &Step) -> Mem<Verdict>
        requires stands { StandsFor self.old system.now }
        ensures stands { StandsFor self.new system.now }
        ensures same { Stays self.old self.new }
        ensures judged { IfOk result (λ verdict. IsJudged self.old.host system.now.rules step.now verdict) }
    {
        if let Some(verdict) = judge_alone(alloc, self.replica.host(), system, step)? {
            return Ok(verdict);
        }
        self.judge_beside_others(alloc, system, step)
    }

    /// The verdict on a step that is enabled.
    fn judge_beside_others(&mut self, alloc: Global, system: &System, step: &Step) -> Mem<Verdict>
        requires stands { StandsFor self.old system.now }
        requires enabled { IsEnabledThere self.old.host system.now.rules step.now }
        ensures stands { StandsFor self.new system.now }
        ensures same { Stays self.old self.new }
        ensures judged { IfOk result (λ verdict. IsJudged self.old.host system.now.rules step.now verdict) }
    {
        self.keep_lists(alloc, system)?;
        let first = self.first_steps(alloc, system, 1)?;
        Ok(judge_beside(self.replica.host(), system, step, first))
    }

    /// Takes a legal step: the host becomes what it leads to. It refuses with `Full` where that passes a limit of a host; host and
    /// version are then as they were. Where there is no memory the step is taken or not, as the version tells. Costs what the reaction touches, and for each rule whose occurrences are kept, what
    /// [`KeptList::renewal`] and [`KeptList::renew`] cost.
    pub fn take(&mut self, alloc: Global, system: &System, step: &Step) -> Result<(), ReactFault>
        requires stands { StandsFor self.old system.now }
        requires legal { IsLegal self.old.host system.now.rules step.now }
        requires few { self.old.version + 1 < 2 ^ 32 }
        ensures stands { StandsFor self.new system.now }
        ensures version { OnOk result (self.new.version ≡ self.old.version + 1) }
        ensures leads { OnOk result (LeadsTo self.old.host system.now.rules step.now self.new.host) }
        ensures full { IsErrOf result ReactFault.Full → IsTooLarge self.old.host system.now.rules step.now }
        ensures kept { IsErrOf result ReactFault.Full → Stays self.old self.new }
        ensures no_memory { IsErrOf result ReactFault.OutOfMemory → Stays self.old self.new ⊎ HasTaken system.now.rules step.now self.old self.new }
    {
        self.replica.host().keeps();
        let lists = self.lists.take();
        let causes = self.replica.take_step(alloc, system, step)?;
        self.lists = followed_lists(alloc, self.replica.host(), system.rules(), causes, lists)?;
        Ok(())
    }

    /// Brings the host to what the entry leads to, and the lists to that. Where there is no memory the lists are lost; and
    /// then the host is as it was, or the one that the entry leads to, as the version tells.
    fn follow_entry(&mut self, alloc: Global, system: &System, entry: &Entry) -> Mem<()>
        requires stands { StandsFor self.old system.now }
        requires entry { GoOn system.now.rules self.old.host (entry.now ∷ []) }
        requires few { self.old.version + 1 < 2 ^ 32 }
        ensures stands { StandsFor self.new system.now }
        ensures followed { OnOk result (HasFollowed system.now.rules self.old.version self.old.host (entry.now ∷ []) self.new.version self.new.host) }
        ensures no_memory { OnErr result (HasFollowedSome system.now.rules self.old.version self.old.host (entry.now ∷ []) self.new.version self.new.host) }
    {
        self.replica.host().keeps();
        let lists = self.lists.take();
        let causes = self.replica.take(alloc, system, entry)?;
        self.lists = followed_lists(alloc, self.replica.host(), system.rules(), causes, lists)?;
        Ok(())
    }

    /// The step that the picker picks of the first legal ones, from the lists, where they are kept.
    fn pick_first(&self, alloc: Global, system: &System, picker: &mut Picker) -> Mem<Option<Step>>
        requires stands { StandsFor self.now system.now }
        ensures picked { IfOk result (λ found. MatchOption found (HasNoStep self.now.host system.now.rules × (picker.new ≡ picker.old))
            (λ step. IsPick self.now.host system.now.rules picker.old step × (picker.new ≡ next_state picker.old))) }
        ensures no_memory { OnErr result (picker.new ≡ picker.old) }
    {
        match &self.lists {
            Some(lists) => pick_from(alloc, self.replica.host(), system, lists, picker),
            None => pick_anew(alloc, self.replica.host(), system, picker),
        }
    }

    /// The first legal steps, from the lists, where they are kept.
    fn first_steps(&self, alloc: Global, system: &System, most: u32) -> Mem<Vec<Step>>
        requires stands { StandsFor self.now system.now }
        ensures steps { IfOk result (λ found. AreFirstLegal most self.now.host system.now.rules found.items) }
    {
        let _signature = system.signature();
        match &self.lists {
            Some(lists) => steps_from(alloc, self.replica.host(), system, lists, most),
            None => steps_in(alloc, self.replica.host(), system, most),
        }
    }

    /// Makes the lists where there are none, unless a rule has a condition or a redex of too many ports.
    fn keep_lists(&mut self, alloc: Global, system: &System) -> Mem<()>
        requires stands { StandsFor self.old system.now }
        ensures stands { StandsFor self.new system.now }
        ensures same { Stays self.old self.new }
    {
        if self.lists.is_none() && are_keepable(system.rules()) {
            let lists = picks_of(alloc, self.replica.host(), system.rules())?;
            self.lists = Some(lists);
        }
        Ok(())
    }
}

impl Follower for KeptFinder {
    ghost version = { λ finder. finder.version };

    ghost host = { λ finder. finder.host };

    ghost stands = { λ finder system. StandsFor finder system };

    /// After how many entries it stands. Takes constant time.
    fn version(&self) -> u32 {
        self.replica.version()
    }

    /// Costs for each entry what its reaction touches; and for each rule whose occurrences are kept, what
    /// [`KeptList::renewal`] and [`KeptList::renew`] cost.
    fn follow(&mut self, alloc: Global, system: &System, entries: &[Entry]) -> Mem<()> {
        let _system = system.signature();
        self.replica.host().keeps();
        for entry in entries {
            self.follow_entry(alloc, system, entry)?;
        }
        Ok(())
    }

    /// At the host of the replica. Costs a copy of each step, where the occurrences are kept; what they cost is paid as they
    /// come. Else as [`steps_in`].
    fn steps(&mut self, alloc: Global, system: &System, most: u32) -> Mem<Vec<Step>> {
        self.keep_lists(alloc, system)?;
        self.first_steps(alloc, system, most)
    }

    /// At the host of the replica. Costs a look at the list of each rule and a copy of the step, where the occurrences are kept.
    /// Else as [`steps_in`].
    fn pick(&mut self, alloc: Global, system: &System, picker: &mut Picker) -> Mem<Option<Step>> {
        self.keep_lists(alloc, system)?;
        self.pick_first(alloc, system, picker)
    }
}

/// The lists, where they are kept, brought to the host by what the causes tell of it.
fn followed_lists(
    alloc: Global,
    host: &IndexedHost,
    rules: &[Rule],
    causes: Causes,
    lists: Option<Vec<KeptList>>,
) -> Mem<Option<Vec<KeptList>>>
    requires were { MatchOption lists ⊤ (λ lists. WereKeptFor host.now.big causes rules.now lists.items) }
    ensures { IfOk result (λ new. MatchOption new ⊤ (λ lists. AreKeptFor host.now.big rules.now lists.items)) }
{
    match lists {
        Some(lists) => {
            let lists = picks_followed(alloc, host, rules, causes, lists)?;
            Ok(Some(lists))
        }
        None => Ok(None),
    }
}

/// The step that the picker picks of the first legal ones, which are listed anew.
fn pick_anew(
    alloc: Global,
    host: &IndexedHost,
    system: &System,
    picker: &mut Picker,
) -> Mem<Option<Step>>
    ensures picked { IfOk result (λ found. MatchOption found (HasNoStep host.now system.now.rules × (picker.new ≡ picker.old))
        (λ step. IsPick host.now system.now.rules picker.old step × (picker.new ≡ next_state picker.old))) }
    ensures no_memory { OnErr result (picker.new ≡ picker.old) }
{
    let candidates = steps_in(alloc, host, system, MOST_CANDIDATES)?;
    let chosen = picker.choose(candidates);
    Ok(chosen)
}

impl Finder for KeptFinder {
    /// As [`steps_in`], where it then stands, at the view ([`KeptFinder::look_at`]).
    fn steps(&mut self, alloc: Global, system: &System, view: &View, most: u32) -> Mem<Vec<Step>> {
        self.look_at(alloc, view)?;
        steps_in(alloc, self.replica.host(), system, most)
    }
}
