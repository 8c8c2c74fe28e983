//! Lines and columns.
ghost use Rattle.std.specs.Prelude.{◌≡◌, ◌≤◌, ◌<◌, ◌^◌, ◌-◌, ◌==◌, not, length, count_by, reverse};
ghost use Rattle.std.specs.List.{prefix_len};
ghost use Rattle.bg_text.specs.Places.{line_at, column_at};

/// A place in a text: its line and, in bytes, its column, both counted from 1.
#[derive(Clone, Copy, Debug, PartialEq, Eq)]
pub struct Position {
    pub line: u32,
    pub column: u32,
}

/// The place of the byte at the offset; of the end of the text where that is the offset. A line feed is the last
/// byte of its line. Takes no memory; linear in the offset.
pub fn place_of(bytes: &[u8], offset: u32) -> Position
    requires small { length bytes.now < 2 ^ 32 - 1 }
    requires inside { offset ≤ length bytes.now }
    ensures line { result.line ≡ line_at bytes.now offset }
    ensures column { result.column ≡ column_at bytes.now offset }
{
    let (front, _) = bytes.split_at(offset as usize);
    Position {
        line: line_feeds(front) as u32 + 1,
        column: after_line_feed(front) as u32 + 1,
    }
}

/// How many line feeds there are.
fn line_feeds(bytes: &[u8]) -> usize
    ensures value { result ≡ count_by (λ b. b == 10) bytes.now }
    ensures few { result ≤ length bytes.now }
{
    bytes.iter().filter(|byte| **byte == b'\n').count()
}

/// How many bytes stand behind the last line feed; all of them where there is none.
fn after_line_feed(bytes: &[u8]) -> usize
    ensures value { result ≡ prefix_len (λ b. not (b == 10)) (reverse bytes.now) }
    ensures few { result ≤ length bytes.now }
{
    bytes
        .iter()
        .rev()
        .take_while(|byte| **byte != b'\n')
        .count()
}
