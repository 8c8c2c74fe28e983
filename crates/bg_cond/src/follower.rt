//! Who keeps a host of its own, and finds legal steps there.
ghost use Rattle.std.specs.Prelude.{◌≡◌, ℕ, ◌+◌, ◌<◌, ◌^◌, length, IfOk, OnOk, OnErr, MatchOption};
ghost use Rattle.bg_cond.specs.Followers.{GoOn, HasFollowed, HasFollowedSome};
ghost use Rattle.bg_cond.specs.Drawn.{IsPick};
ghost use Rattle.bg_cond.specs.Picks.{next_state};
ghost use Rattle.bg_cond.specs.Steps.{AreFirstLegal, HasNoStep};
ghost use Rattle.bg_rules.specs.Reaction.{HostState};
ghost use Rattle.bg_rules.specs.Systems.{SystemParts};

use crate::finder::MOST_CANDIDATES;
use crate::picker::Picker;
use bg_base::{Entry, Step};
use bg_lists::Mem;
use bg_rules::System;
use std::alloc::Global;

/// Who keeps a host of its own, brings it to what others have committed, and lists the legal steps there. At its version,
/// which counts entries, it stands for the host after so many; under the system whose steps they are.
pub trait Follower {
    ghost version: { Self → ℕ };

    ghost host: { Self → HostState };

    // it stands for its host at its version under the system
    ghost stands: { Self → SystemParts → Type 0 };

    /// After how many entries it stands.
    fn version(&self) -> u32
        ensures { result ≡ version self.now };

    /// Brings the host to what the entries lead to, which go on from it. It refuses for want of memory alone, and then
    /// stands behind the first of them, some, all or none, as its version tells.
    fn follow(&mut self, alloc: Global, system: &System, entries: &[Entry]) -> Mem<()>
        requires stands { stands self.old system.now }
        requires entries { GoOn system.now.rules (host self.old) entries.now }
        requires few { version self.old + length entries.now < 2 ^ 32 }
        ensures stands { stands self.new system.now }
        ensures followed { OnOk result (HasFollowed system.now.rules (version self.old) (host self.old) entries.now (version self.new) (host self.new)) }
        ensures no_memory { OnErr result (HasFollowedSome system.now.rules (version self.old) (host self.old) entries.now (version self.new) (host self.new)) };

    /// The first `most` legal steps at its host, by rule and then by map. It refuses for want of memory alone; host and
    /// version stay.
    fn steps(&mut self, alloc: Global, system: &System, most: u32) -> Mem<Vec<Step>>
        requires stands { stands self.old system.now }
        ensures stands { stands self.new system.now }
        ensures version { version self.new ≡ version self.old }
        ensures host { host self.new ≡ host self.old }
        ensures steps { IfOk result (λ found. AreFirstLegal most (host self.old) system.now.rules found.items) };

    /// The step that the picker picks of the first 4,096 legal ones at its host: the next word, modulo their number, is its
    /// place; none where no step is legal, and then no word is taken. It refuses for want of memory alone, and then no word is
    /// taken; host and version stay.
    fn pick(&mut self, alloc: Global, system: &System, picker: &mut Picker) -> Mem<Option<Step>>
        requires stands { stands self.old system.now }
        ensures stands { stands self.new system.now }
        ensures version { version self.new ≡ version self.old }
        ensures host { host self.new ≡ host self.old }
        ensures picked { IfOk result (λ found. MatchOption found (HasNoStep (host self.old) system.now.rules × (picker.new ≡ picker.old))
            (λ step. IsPick (host self.old) system.now.rules picker.old step × (picker.new ≡ next_state picker.old))) }
        ensures no_memory { OnErr result (picker.new ≡ picker.old) }
    {
        let candidates = self.steps(alloc, system, MOST_CANDIDATES)?;
        let chosen = picker.choose(candidates);
        Ok(chosen)
    }
}
