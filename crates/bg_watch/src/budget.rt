//! A number of entries that is enough.
ghost use Rattle.std.specs.Prelude.{◌≡◌, ◌≤◌};
ghost use Rattle.bg_watch.specs.Kinds.{budget_state};
ghost use Rattle.bg_watch.specs.Watching.{budget};

use crate::lines::put_number_line;
use crate::watcher::{Answer, Watcher};
use bg_base::Entry;

/// Counts the entries that it is told of, and has enough where there are `most`. Its line is `watch budget N`. The count stays
/// at 18,446,744,073,709,551,615.
#[derive(Debug, Drop)]
pub struct Budget {
    most: u32,
    count: u64,
}

impl Budget {
    /// A watcher that was told of nothing, to which so many entries are enough.
    pub fn new(most: u32) -> Budget
        requires { 1 ≤ most }
        ensures { budget_state result ≡ budget most 0 }
    {
        Budget { most, count: 0 }
    }
}

impl Watcher for Budget {
    ghost use Rattle.bg_watch.specs.Kinds.{budget_state};

    ghost state = { budget_state };

    fn note(&mut self, _entry: &Entry, _nodes: u32) -> Answer {
        self.count = self.count.saturating_add(1);
        if u64::from(self.most) <= self.count {
            Answer::Enough
        } else {
            Answer::More
        }
    }

    fn line(&self, out: &mut Vec<u8>) {
        put_number_line(b"watch budget ", self.count, out);
    }
}
