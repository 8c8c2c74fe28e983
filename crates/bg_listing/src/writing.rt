//! Writing of the parts of a line, behind what is there. After an error the bytes behind are of no use.
ghost use Rattle.std.specs.Prelude.{◌≡◌, ◌++◌, List, ℕ, OnOk};
ghost use Rattle.std.specs.Fmt.{decimal};
ghost use Rattle.std.specs.List.{flat_map};
ghost use Rattle.bg_listing.specs.Spelling as spelling;

use bg_base::{Control, InnerRow, Kind, Label, Link, Name, Place, Value};
use bg_lists::{Mem, Rows};
use std::alloc::Global;

/// What is spelled.
pub(crate) trait Spelled {
    /// Its spelling.
    ghost text_of: { Self → List ℕ };

    fn put(&self, alloc: Global, out: &mut Vec<u8>) -> Mem<()>
        ensures { OnOk result (out.new.items ≡ out.old.items ++ text_of self.now) };
}

pub(crate) fn put_number(alloc: Global, number: u32, out: &mut Vec<u8>) -> Mem<()>
    ensures { OnOk result (out.new.items ≡ out.old.items ++ decimal number) }
{
    let digits = number.to_string(alloc)?;
    out.extend_from_slice(digits.as_bytes())?;
    Ok(())
}

/// A number of items, or the position of one.
pub(crate) fn put_size(alloc: Global, size: usize, out: &mut Vec<u8>) -> Mem<()>
    ensures { OnOk result (out.new.items ≡ out.old.items ++ decimal size) }
{
    let digits = size.to_string(alloc)?;
    out.extend_from_slice(digits.as_bytes())?;
    Ok(())
}

pub(crate) fn put_place(alloc: Global, place: Place, out: &mut Vec<u8>) -> Mem<()>
    ensures { OnOk result (out.new.items ≡ out.old.items ++ spelling.place_text place) }
{
    match place {
        Place::Node(node) => {
            out.push(b'n')?;
            put_number(alloc, node, out)
        }
        Place::Region(region) => {
            out.push(b'r')?;
            put_number(alloc, region, out)
        }
    }
}

pub(crate) fn put_name(alloc: Global, name: &Name, out: &mut Vec<u8>) -> Mem<()>
    ensures { OnOk result (out.new.items ≡ out.old.items ++ spelling.name_text name.now) }
{
    match name {
        Name::Plain(word) => {
            out.extend_from_slice(word.as_bytes())?;
            Ok(())
        }
        Name::Port(node, index) => {
            out.push(b'@')?;
            put_number(alloc, *node, out)?;
            out.push(b'.')?;
            put_number(alloc, *index, out)
        }
        Name::Opened(edge) => {
            out.push(b'~')?;
            put_number(alloc, *edge, out)
        }
    }
}

pub(crate) fn put_link(alloc: Global, link: &Link, out: &mut Vec<u8>) -> Mem<()>
    ensures { OnOk result (out.new.items ≡ out.old.items ++ spelling.link_text link.now) }
{
    match link {
        Link::Edge(edge) => {
            out.push(b'#')?;
            put_number(alloc, *edge, out)
        }
        Link::Outer(name) => {
            out.push(b'=')?;
            put_name(alloc, name, out)
        }
    }
}

pub(crate) fn put_label(alloc: Global, label: &Label, out: &mut Vec<u8>) -> Mem<()>
    ensures { OnOk result (out.new.items ≡ out.old.items ++ spelling.label_text label.now) }
{
    out.extend_from_slice(label.name.as_bytes())?;
    put_args(alloc, label.args.as_slice(), out)
}

fn put_args(alloc: Global, args: &[Value], out: &mut Vec<u8>) -> Mem<()>
    ensures { OnOk result (out.new.items ≡ out.old.items ++ spelling.args_text args.now) }
{
    match args.split_first() {
        None => Ok(()),
        Some((first, rest)) => {
            out.push(b'(')?;
            put_value(alloc, first, out)?;
            put_chain(alloc, b')', b',', rest, out)
        }
    }
}

fn put_value(alloc: Global, value: &Value, out: &mut Vec<u8>) -> Mem<()>
    ensures { OnOk result (out.new.items ≡ out.old.items ++ spelling.value_text value.now) }
{
    match value {
        Value::Int(number) => {
            let digits = number.to_string(alloc)?;
            out.extend_from_slice(digits.as_bytes())?;
            Ok(())
        }
        Value::Words(text) => {
            out.push(b'"')?;
            out.extend_from_slice(text.as_str().as_bytes())?;
            out.push(b'"')?;
            Ok(())
        }
    }
}

impl Spelled for Value {
    ghost use Rattle.bg_listing.specs.Spelling.{value_text};

    ghost text_of = { value_text };

    fn put(&self, alloc: Global, out: &mut Vec<u8>) -> Mem<()> {
        put_value(alloc, self, out)
    }
}

impl Spelled for Link {
    ghost use Rattle.bg_listing.specs.Spelling.{link_text};

    ghost text_of = { link_text };

    fn put(&self, alloc: Global, out: &mut Vec<u8>) -> Mem<()> {
        put_link(alloc, self, out)
    }
}

/// Each item behind the separator, and then the closing byte.
pub(crate) fn put_chain<P: Spelled>(
    alloc: Global,
    closing_byte: u8,
    separator: u8,
    items: &[P],
    out: &mut Vec<u8>,
) -> Mem<()>
    ensures { OnOk result (out.new.items ≡ out.old.items ++ spelling.chain_text closing_byte separator P.text_of items.now) }
{
    for item in items {
        out.push(separator)?;
        item.put(alloc, out)?;
    }
    out.push(closing_byte)?;
    Ok(())
}

/// One item after the other.
pub(crate) fn put_lines<P: Spelled>(alloc: Global, items: &[P], out: &mut Vec<u8>) -> Mem<()>
    ensures { OnOk result (out.new.items ≡ out.old.items ++ flat_map P.text_of items.now) }
{
    for item in items {
        item.put(alloc, out)?;
    }
    Ok(())
}

/// A word, a number and the line feed.
pub(crate) fn put_count(alloc: Global, word: &[u8], count: usize, out: &mut Vec<u8>) -> Mem<()>
    ensures { OnOk result (out.new.items ≡ out.old.items ++ spelling.count_line word.now count) }
{
    out.extend_from_slice(word)?;
    put_size(alloc, count, out)?;
    out.push(b'\n')?;
    Ok(())
}

/// Each number behind a space, and then the line feed.
pub(crate) fn put_numbers(alloc: Global, numbers: &[u32], out: &mut Vec<u8>) -> Mem<()>
    ensures { OnOk result (out.new.items ≡ out.old.items ++ spelling.numbers_line numbers.now) }
{
    for number in numbers {
        out.push(b' ')?;
        put_number(alloc, *number, out)?;
    }
    out.push(b'\n')?;
    Ok(())
}

/// The line of a number and the items' lines behind it.
pub(crate) fn put_section<P: Spelled>(
    alloc: Global,
    word: &[u8],
    items: &Rows<P>,
    out: &mut Vec<u8>,
) -> Mem<()>
    ensures { OnOk result (out.new.items ≡ out.old.items ++ spelling.section_text word.now P.text_of items.now) }
{
    put_count(alloc, word, items.len() as usize, out)?;
    put_lines(alloc, items.as_slice(), out)
}

impl Spelled for u32 {
    ghost use Rattle.bg_listing.specs.Spelling.{edge_line};

    ghost text_of = { edge_line };

    fn put(&self, alloc: Global, out: &mut Vec<u8>) -> Mem<()> {
        put_number(alloc, *self, out)?;
        out.push(b'\n')?;
        Ok(())
    }
}

impl Spelled for Place {
    ghost use Rattle.bg_listing.specs.Spelling.{place_line};

    ghost text_of = { place_line };

    fn put(&self, alloc: Global, out: &mut Vec<u8>) -> Mem<()> {
        put_place(alloc, *self, out)?;
        out.push(b'\n')?;
        Ok(())
    }
}

impl Spelled for Name {
    ghost use Rattle.bg_listing.specs.Spelling.{name_line};

    ghost text_of = { name_line };

    fn put(&self, alloc: Global, out: &mut Vec<u8>) -> Mem<()> {
        put_name(alloc, self, out)?;
        out.push(b'\n')?;
        Ok(())
    }
}

impl Spelled for InnerRow {
    ghost use Rattle.bg_listing.specs.Spelling.{inner_line};

    ghost text_of = { inner_line };

    fn put(&self, alloc: Global, out: &mut Vec<u8>) -> Mem<()> {
        put_name(alloc, &self.name, out)?;
        out.push(b' ')?;
        put_link(alloc, &self.link, out)?;
        out.push(b'\n')?;
        Ok(())
    }
}

impl Spelled for Control {
    ghost use Rattle.bg_listing.specs.Spelling.{control_line};

    ghost text_of = { control_line };

    fn put(&self, alloc: Global, out: &mut Vec<u8>) -> Mem<()> {
        put_label(alloc, &self.label, out)?;
        out.push(b' ')?;
        put_number(alloc, self.arity, out)?;
        out.push(b' ')?;
        put_kind(self.kind, out)?;
        out.push(b'\n')?;
        Ok(())
    }
}

fn put_kind(kind: Kind, out: &mut Vec<u8>) -> Mem<()>
    ensures { OnOk result (out.new.items ≡ out.old.items ++ spelling.kind_text kind) }
{
    match kind {
        Kind::Normal => out.extend_from_slice(b"normal")?,
        Kind::Atomic => out.extend_from_slice(b"atomic")?,
    }
    Ok(())
}
