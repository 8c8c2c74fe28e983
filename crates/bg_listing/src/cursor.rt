//! Where a reader stands.
ghost use Rattle.std.specs.Prelude.{◌≡◌, ◌+◌, ◌-◌, ◌<◌, ◌≤◌, ◌^◌, ◌==◌, count_by, length, take};
ghost use Rattle.bg_listing.specs.Verdict.{IsAt, line_feeds, line_number};

/// A place in the input: the offset, in bytes from its beginning, and the line, counted from 1.
#[derive(Clone, Copy, Debug, PartialEq, Eq)]
pub struct Cursor {
    pub offset: u32,
    pub line: u32,
}

/// The cursor in front of the last bytes, as many as there are in `rest`.
pub(crate) fn cursor_before(bytes: &[u8], rest: &[u8]) -> Cursor
    requires { length bytes.now < 2 ^ 32 - 1 }
    ensures offset { result.offset ≡ length bytes.now - length rest.now }
    ensures placed { IsAt bytes.now result }
{
    Cursor {
        offset: bytes.len().saturating_sub(rest.len()) as u32,
        line: line_before(bytes, rest.len()),
    }
}

/// The line at the beginning of which so many bytes are left.
pub(crate) fn line_before(bytes: &[u8], left: usize) -> u32
    requires { length bytes.now < 2 ^ 32 - 1 }
    ensures { result ≡ line_number bytes.now left }
{
    let (front, _) = bytes.split_at(bytes.len().saturating_sub(left));
    line_feed_count(front) as u32 + 1
}

fn line_feed_count(bytes: &[u8]) -> usize
    ensures count { result ≡ line_feeds bytes.now }
    ensures few { result ≤ length bytes.now }
{
    bytes.iter().filter(|byte| **byte == b'\n').count()
}
