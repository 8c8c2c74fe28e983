//! The lines of watchers.
ghost use Rattle.std.specs.Prelude.{◌≡◌, ◌+◌, ◌≤◌, ◌++◌, length, codes, vec_len, vec_capacity};
ghost use Rattle.std.specs.Fmt.{decimal};

use itoa::Buffer;

/// Appends a line: the words, which end in a space, and a number. Takes no memory.
pub(crate) fn put_number_line(words: &[u8], number: u64, out: &mut Vec<u8>)
    requires few { length words.now ≤ 40 }
    requires room { vec_len out.old + 64 ≤ vec_capacity out.old }
    ensures text { out.new.items ≡ out.old.items ++ (words.now ++ (decimal number ++ codes "\n")) }
    ensures short { vec_len out.new ≤ vec_len out.old + 64 }
    ensures room { vec_capacity out.old ≤ vec_capacity out.new }
{
    let mut buffer = Buffer::new();
    let digits = buffer.format(number);
    out.extend_from_slice(words).unwrap();
    out.extend_from_slice(digits.as_bytes()).unwrap();
    out.push(b'\n').unwrap();
}
