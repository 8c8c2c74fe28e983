//! The most nodes.
ghost use Rattle.std.specs.Prelude.{◌≡◌};
ghost use Rattle.bg_watch.specs.Kinds.{peak_state};
ghost use Rattle.bg_watch.specs.Watching.{peak};

use crate::lines::put_number_line;
use crate::watcher::{Answer, Watcher};
use bg_base::Entry;

/// Knows the most nodes of a host after an entry that it was told of, 0 before. Its line is `watch peak N`.
#[derive(Debug, Drop)]
pub struct Peak {
    nodes: u32,
}

impl Peak {
    /// A watcher that was told of nothing.
    pub fn new() -> Peak
        ensures { peak_state result ≡ peak 0 }
    {
        Peak { nodes: 0 }
    }
}

impl Watcher for Peak {
    ghost use Rattle.bg_watch.specs.Kinds.{peak_state};

    ghost state = { peak_state };

    fn note(&mut self, _entry: &Entry, nodes: u32) -> Answer {
        self.nodes = self.nodes.max(nodes);
        Answer::More
    }

    fn line(&self, out: &mut Vec<u8>) {
        put_number_line(b"watch peak ", u64::from(self.nodes), out);
    }
}
