//! The generator of a worker's picks.
ghost use Rattle.std.specs.Prelude.{◌≡◌, ◌<◌, ◌≤◌, ◌%◌, [], length, IfOk, MatchOption};
ghost use Rattle.bg_cond.specs.Drawn.{most_candidates};
ghost use Rattle.bg_cond.specs.Picks.{seeded, picked, next_state};
ghost use Rattle.bg_lists.specs.Lists.{At};

use bg_base::Step;
use bg_lists::Mem;
use rand_core::SeedableRng;
use rand_core::utils::NextWord;
use rand_pcg::Pcg32;
use std::marker::Model;

/// Where a worker takes its words from. A contract sees the state of the generator.
#[derive(Drop)]
pub struct Picker {
    generator: Pcg32,
}

impl Model for Picker {
    ghost use Rattle.rand_pcg.specs.Lcg.{Lcg};

    ghost Value = { Lcg };

    ghost view = { λ picker. picker.generator };
}

impl Picker {
    /// The picker of that worker: its generator is made by the sum of the seed and the worker's number, which wraps at
    /// 64 bits. Takes no memory.
    #[tactic(auto, unfolding(crate::specs::Picks::seeded))]
    pub fn new(seed: u64, worker: u32) -> Picker
        ensures { result ≡ seeded seed worker }
    {
        Picker {
            generator: Pcg32::seed_from_u64(seed.wrapping_add(u64::from(worker))),
        }
    }

    /// A place below the count: the next word modulo the count. It takes one word, also where the count is 1. Takes no
    /// memory.
    #[tactic(auto, unfolding(crate::specs::Picks::word_of, crate::specs::Picks::next_state))]
    pub fn pick(&mut self, count: u32) -> u32
        requires { 0 < count }
        ensures place { result ≡ picked self.old count }
        ensures there { result < count }
        ensures state { self.new ≡ next_state self.old }
    {
        self.generator.next_word() % count
    }

    /// The place that [`pick`](Picker::pick) gives next; the word is not taken. It refuses for want of memory alone.
    #[tactic(auto, unfolding(crate::specs::Picks::word_of))]
    pub fn ahead(&self, count: u32) -> Mem<u32>
        requires { 0 < count }
        ensures place { IfOk result (λ place. place ≡ picked self.now count) }
        ensures there { IfOk result (λ place. place < count) }
    {
        let mut generator = self.generator.clone()?;
        Ok(generator.next_word() % count)
    }

    /// The candidate at the place that the next word gives; none where there is no candidate, and then no word is taken. Takes no
    /// memory.
    pub fn choose(&mut self, mut candidates: Vec<Step>) -> Option<Step>
        requires { length candidates.items ≤ most_candidates }
        ensures { MatchOption result ((candidates.items ≡ []) × (self.new ≡ self.old))
            (λ step. At step (picked self.old (length candidates.items)) candidates.items × (self.new ≡ next_state self.old)) }
    {
        if candidates.is_empty() {
            return None;
        }
        let place = self.pick(candidates.len() as u32);
        Some(candidates.swap_remove(place as usize))
    }
}
