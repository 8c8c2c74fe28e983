//! The writers of listings, labels and numbers.
ghost use Rattle.std.specs.Prelude.{◌≡◌, ◌<◌, ◌++◌, length, codes, All, OnOk, OnErr};
ghost use Rattle.std.specs.Fmt.{decimal};
ghost use Rattle.std.specs.List.{flat_map};
ghost use Rattle.bg_base.specs.Bigraph.{IsValidUnder};
ghost use Rattle.bg_base.specs.declared.big.NodeRow.{NodeRow as NodeRowValue};
ghost use Rattle.bg_listing.specs.Spelling.{count_line, label_text, node_line, numbers_line, section_text, signature_text, big_text};

use crate::writing::{
    put_chain, put_count, put_label, put_lines, put_number, put_numbers, put_place, put_section,
    put_size,
};
use bg_base::{Big, Control, InnerRow, Label, Link, Name, NodeRow, Place, Signature};
use bg_lists::{Mem, Rows};
use std::alloc::Global;

/// Appends the spelling of a number: its decimal digits, without leading zeros. Every `u32` is a number here.
/// After an error `out` is unchanged. Costs time in proportion to the digits.
pub fn write_number(alloc: Global, number: u32, out: &mut Vec<u8>) -> Mem<()>
    ensures ok { OnOk result (out.new.items ≡ out.old.items ++ decimal number) }
    ensures err { OnErr result (out.new.items ≡ out.old.items) }
{
    let mut text = Vec::new(alloc);
    put_number(alloc, number, &mut text)?;
    out.extend_from_slice(text.as_slice())?;
    Ok(())
}

/// Appends a number of items, or the position of one, as [`write_number`] does a number of 32 bits. After an error `out`
/// is unchanged. Costs time in proportion to the digits.
pub fn write_size(alloc: Global, size: usize, out: &mut Vec<u8>) -> Mem<()>
    ensures ok { OnOk result (out.new.items ≡ out.old.items ++ decimal size) }
    ensures err { OnErr result (out.new.items ≡ out.old.items) }
{
    let mut text = Vec::new(alloc);
    put_size(alloc, size, &mut text)?;
    out.extend_from_slice(text.as_slice())?;
    Ok(())
}

/// Appends a line that counts: the word, which ends in a space, the number of items and the line feed. After an error
/// `out` is unchanged. Linear in the line.
pub fn write_count(alloc: Global, word: &[u8], count: usize, out: &mut Vec<u8>) -> Mem<()>
    ensures ok { OnOk result (out.new.items ≡ out.old.items ++ count_line word.now count) }
    ensures err { OnErr result (out.new.items ≡ out.old.items) }
{
    let mut text = Vec::new(alloc);
    put_count(alloc, word, count, &mut text)?;
    out.extend_from_slice(text.as_slice())?;
    Ok(())
}

/// Appends what ends a line of numbers: each behind a space, and then the line feed. After an error `out` is unchanged.
/// Linear in what is written.
pub fn write_numbers(alloc: Global, numbers: &[u32], out: &mut Vec<u8>) -> Mem<()>
    ensures ok { OnOk result (out.new.items ≡ out.old.items ++ numbers_line numbers.now) }
    ensures err { OnErr result (out.new.items ≡ out.old.items) }
{
    let mut text = Vec::new(alloc);
    put_numbers(alloc, numbers, &mut text)?;
    out.extend_from_slice(text.as_slice())?;
    Ok(())
}

/// Appends the spelling of a label, which may be that of a control, a rule or a predicate.
/// After an error `out` is unchanged. Linear in the spelling.
pub fn write_label(alloc: Global, label: &Label, out: &mut Vec<u8>) -> Mem<()>
    ensures ok { OnOk result (out.new.items ≡ out.old.items ++ label_text label.now) }
    ensures err { OnErr result (out.new.items ≡ out.old.items) }
{
    let mut text = Vec::new(alloc);
    put_label(alloc, label, &mut text)?;
    out.extend_from_slice(text.as_slice())?;
    Ok(())
}

/// Appends the listing of a signature. After an error `out` is unchanged. Linear in the listing.
pub fn write_signature(alloc: Global, signature: &Signature, out: &mut Vec<u8>) -> Mem<()>
    ensures ok { OnOk result (out.new.items ≡ out.old.items ++ signature_text signature.now) }
    ensures err { OnErr result (out.new.items ≡ out.old.items) }
{
    let mut text = Vec::new(alloc);
    put_signature(alloc, signature, &mut text)?;
    out.extend_from_slice(text.as_slice())?;
    Ok(())
}

/// Appends the listing of a bigraph that is valid under the signature. After an error `out` is unchanged.
/// Linear in the listing, and holds it twice while it writes.
pub fn write_big(alloc: Global, signature: &Signature, big: &Big, out: &mut Vec<u8>) -> Mem<()>
    requires { IsValidUnder signature.now big.now }
    ensures ok { OnOk result (out.new.items ≡ out.old.items ++ big_text signature.now big.now) }
    ensures err { OnErr result (out.new.items ≡ out.old.items) }
{
    let mut text = Vec::new(alloc);
    put_big(alloc, signature, big, &mut text)?;
    out.extend_from_slice(text.as_slice())?;
    Ok(())
}

#[tactic(auto, unfolding(crate::specs::Spelling::signature_text))]
fn put_signature(alloc: Global, signature: &Signature, out: &mut Vec<u8>) -> Mem<()>
    ensures { OnOk result (out.new.items ≡ out.old.items ++ signature_text signature.now) }
{
    put_count(alloc, b"signature ", signature.len() as usize, out)?;
    put_lines::<Control>(alloc, signature.controls(), out)
}

#[tactic(auto, unfolding(crate::specs::Spelling::big_text))]
fn put_big(alloc: Global, signature: &Signature, big: &Big, out: &mut Vec<u8>) -> Mem<()>
    requires { All (λ (row : NodeRowValue). row.control < length signature.now) big.now.nodes }
    ensures { OnOk result (out.new.items ≡ out.old.items ++ big_text signature.now big.now) }
{
    put_count(alloc, b"bigraph ", big.regions as usize, out)?;
    put_section::<Place>(alloc, b"sites ", &big.sites, out)?;
    put_section::<InnerRow>(alloc, b"inner ", &big.inner, out)?;
    put_section::<Name>(alloc, b"outer ", &big.outer, out)?;
    put_section::<u32>(alloc, b"edges ", &big.edges, out)?;
    put_node_section(alloc, signature, &big.nodes, out)?;
    Ok(())
}

fn put_node_section(
    alloc: Global,
    signature: &Signature,
    rows: &Rows<NodeRow>,
    out: &mut Vec<u8>,
) -> Mem<()>
    requires { All (λ (row : NodeRowValue). row.control < length signature.now) rows.now }
    ensures { OnOk result (out.new.items ≡ out.old.items ++ section_text (codes "nodes ") (node_line signature.now) rows.now) }
{
    put_count(alloc, b"nodes ", rows.len() as usize, out)?;
    put_nodes(alloc, signature, rows.as_slice(), out)
}

fn put_nodes(alloc: Global, signature: &Signature, rows: &[NodeRow], out: &mut Vec<u8>) -> Mem<()>
    requires { All (λ (row : NodeRowValue). row.control < length signature.now) rows.now }
    ensures { OnOk result (out.new.items ≡ out.old.items ++ flat_map (node_line signature.now) rows.now) }
{
    for row in rows {
        put_node(alloc, signature, row, out)?;
    }
    Ok(())
}

fn put_node(alloc: Global, signature: &Signature, row: &NodeRow, out: &mut Vec<u8>) -> Mem<()>
    requires { row.now.control < length signature.now }
    ensures { OnOk result (out.new.items ≡ out.old.items ++ node_line signature.now row.now) }
{
    put_number(alloc, row.id, out)?;
    out.push(b' ')?;
    put_label(alloc, signature.label(row.control), out)?;
    out.push(b' ')?;
    put_place(alloc, row.parent, out)?;
    put_chain::<Link>(alloc, b'\n', b' ', row.links.as_slice(), out)
}
