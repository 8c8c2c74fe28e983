use bg_listing::{read_label, read_number, write_label, write_number};
use bg_lists::Mem;
use std::alloc::Global;

/// Texts, and the labels that they begin with.
const LABELS: [(&str, &str); 12] = [
    ("K", "K"),
    ("Room'_2 16", "Room'_2"),
    ("K(3)(4)", "K(3)"),
    ("K(3,\"a, b) \")x", "K(3,\"a, b) \")"),
    ("K(-9223372036854775808)", "K(-9223372036854775808)"),
    ("K(9223372036854775808)", "K"),
    ("K(\"\")", "K(\"\")"),
    ("K()", "K"),
    ("K(-0)", "K"),
    ("K(03)", "K"),
    ("K(3,x", "K"),
    ("K(3 )", "K"),
];

/// The label that the text begins with, as it is written, and how many bytes of the text were read.
fn label_in(alloc: Global, text: &str) -> Mem<Option<(Vec<u8>, u32)>> {
    if text.len() > 1_000 {
        return Ok(None);
    }
    let Some((label, end)) = read_label(alloc, text.as_bytes(), 0)? else {
        return Ok(None);
    };
    let mut written = Vec::new(alloc);
    write_label(alloc, &label, &mut written)?;
    Ok(Some((written, end)))
}

/// Whether the text begins with that label, and as many bytes were read as it has.
fn begins_with(alloc: Global, text: &str, label: &str) -> Mem<bool> {
    match label_in(alloc, text)? {
        Some((written, end)) => {
            Ok(written.as_slice() == label.as_bytes() && end as usize == label.len())
        }
        None => Ok(false),
    }
}

#[test]
fn reads_the_longest_label(rt: HostRuntime) -> Mem<()> {
    for &(text, label) in LABELS.iter() {
        assert!(rt; begins_with(rt.alloc(), text, label)?, "{text}");
    }
    Ok(())
}

#[test]
fn reads_no_label(rt: HostRuntime) -> Mem<()> {
    for &text in ["", "k", "3", "'K", "(3)"].iter() {
        assert!(rt; label_in(rt.alloc(), text)?.is_none(), "{text}");
    }
    Ok(())
}

/// Texts, the most that a number may be, and the number that the text begins with and its end.
const NUMBERS: [(&str, u32, Option<(u32, u32)>); 11] = [
    ("0", 9, Some((0, 1))),
    ("12x", 12, Some((12, 2))),
    ("13", 12, None),
    ("00", 9, None),
    ("07", 9, None),
    ("", 9, None),
    ("x", 9, None),
    ("-1", 9, None),
    ("4294967295", 4294967295, Some((4294967295, 10))),
    ("4294967296", 4294967295, None),
    ("99999999999999999999999999", 4294967295, None),
];

#[test]
fn reads_numbers(rt: HostRuntime) {
    for &(text, most, found) in NUMBERS.iter() {
        assert!(rt; read_number(text.as_bytes(), 0, most) == found, "{text}");
    }
}

#[test]
fn writes_the_largest_number(rt: HostRuntime) -> Mem<()> {
    let mut written = Vec::new(rt.alloc());
    write_number(rt.alloc(), 4294967295, &mut written)?;
    assert!(rt; written.as_slice() == b"4294967295".as_slice());
    Ok(())
}
