//! What is known of the rows of a list, kept in a list of marks beside it.
ghost use Rattle.std.specs.Prelude.{◌≡◌, Some, None, unwrap_or, slice_get, slice_set};

/// What is known of the row at that position; nothing where there is no such row. Takes constant time.
pub fn mark_at<T: Copy>(marks: &[Option<T>], at: usize) -> Option<T>
    ensures { result ≡ unwrap_or (slice_get marks.now at) None }
{
    match marks.get(at) {
        Some(mark) => *mark,
        None => None,
    }
}

/// Notes what is known of the row at that position; nothing changes where there is no such row. Takes constant time.
pub fn set_mark<T: Copy>(marks: &mut [Option<T>], at: usize, mark: T)
    ensures { marks.new ≡ slice_set marks.old at (Some mark) }
{
    if at < marks.len() {
        marks[at] = Some(mark);
    }
}
