//! The number of entries.
ghost use Rattle.std.specs.Prelude.{◌≡◌};
ghost use Rattle.bg_watch.specs.Kinds.{tally_state};
ghost use Rattle.bg_watch.specs.Watching.{tally};

use crate::lines::put_number_line;
use crate::watcher::{Answer, Watcher};
use bg_base::Entry;

/// Counts the entries that it is told of. Its line is `watch tally N`. The count stays at 18,446,744,073,709,551,615.
#[derive(Debug, Drop)]
pub struct Tally {
    count: u64,
}

impl Tally {
    /// A watcher that was told of nothing.
    pub fn new() -> Tally
        ensures { tally_state result ≡ tally 0 }
    {
        Tally { count: 0 }
    }
}

impl Watcher for Tally {
    ghost use Rattle.bg_watch.specs.Kinds.{tally_state};

    ghost state = { tally_state };

    fn note(&mut self, _entry: &Entry, _nodes: u32) -> Answer {
        self.count = self.count.saturating_add(1);
        Answer::More
    }

    fn line(&self, out: &mut Vec<u8>) {
        put_number_line(b"watch tally ", self.count, out);
    }
}
