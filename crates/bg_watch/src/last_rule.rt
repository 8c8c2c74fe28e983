//! The rule of the last entry.
ghost use Rattle.std.specs.Prelude.{◌≡◌, None};
ghost use Rattle.bg_watch.specs.Kinds.{last_rule_state};
ghost use Rattle.bg_watch.specs.Watching.{last_rule};

use crate::lines::put_number_line;
use crate::watcher::{Answer, Watcher};
use bg_base::Entry;

/// Knows the rule of the last entry that it was told of. Its line is `watch last R`, or `watch last none` before.
#[derive(Debug, Drop)]
pub struct LastRule {
    rule: Option<u32>,
}

impl LastRule {
    /// A watcher that was told of nothing.
    pub fn new() -> LastRule
        ensures { last_rule_state result ≡ last_rule None }
    {
        LastRule { rule: None }
    }
}

impl Watcher for LastRule {
    ghost use Rattle.bg_watch.specs.Kinds.{last_rule_state};

    ghost state = { last_rule_state };

    fn note(&mut self, entry: &Entry, _nodes: u32) -> Answer {
        self.rule = Some(entry.rule);
        Answer::More
    }

    fn line(&self, out: &mut Vec<u8>) {
        match self.rule {
            Some(rule) => put_number_line(b"watch last ", u64::from(rule), out),
            None => out.extend_from_slice(b"watch last none\n").unwrap(),
        }
    }
}
