//! Who is told of the entries of a run.
ghost use Rattle.std.specs.Prelude.{◌≡◌, ◌+◌, ◌≤◌, ◌++◌, vec_len, vec_capacity};
ghost use Rattle.bg_watch.specs.Watching.{Watched, after_entry, has_enough, is_enough, line_of};

use bg_base::Entry;

/// What a watcher answers that was told of an entry.
#[derive(Clone, Copy, Debug, PartialEq, Eq)]
pub enum Answer {
    /// It goes on watching.
    More,
    /// It has enough, and is told of nothing more.
    Enough,
}

/// Who is told of the entries of a run, one after the other, and writes a line. In clauses a watcher has `state`: its kind and
/// its numbers. Neither call takes memory.
pub trait Watcher: Drop {
    ghost state: { Self → Watched };

    /// Is told of an entry and of the number of nodes of the host after it.
    fn note(&mut self, entry: &Entry, nodes: u32) -> Answer
        ensures told { state self.new ≡ after_entry (state self.old) entry.now nodes }
        ensures enough { is_enough result ≡ has_enough (state self.new) };

    /// Appends its line, of at most 64 bytes, for which there has to be room.
    fn line(&self, out: &mut Vec<u8>)
        requires { vec_len out.old + 64 ≤ vec_capacity out.old }
        ensures text { out.new.items ≡ out.old.items ++ line_of (state self.now) }
        ensures short { vec_len out.new ≤ vec_len out.old + 64 }
        ensures room { vec_capacity out.old ≤ vec_capacity out.new };
}
