//! The lines of a signature and of a bigraph.
ghost use Rattle.std.specs.Prelude.{◌≡◌, ◌<◌, length, MatchOption};
ghost use Rattle.bg_base.specs.declared.names.Link.{Link};
ghost use Rattle.bg_listing.specs.Combinators.{line};
ghost use Rattle.bg_listing.specs.Reading as reading;
ghost use Rattle.bg_listing.specs.Lines as lines;
ghost use Rattle.bg_listing.specs.Answers.{GivesPart, GivesLines, GivesOrFails};

use crate::bytes::skip;
use crate::chain::{Piece, read_chain};
use crate::fault::{BAD_LINE, LineFault, NotThere, PartFault, TOO_MANY};
use crate::label::label;
use crate::lines::{Row, number_line};
use crate::names::{inner, link, name, place};
use crate::number::number;
use bg_base::limits::MOST_PORTS;
use bg_base::{Control, InnerRow, Kind, Label, Link, Name, NodeRow, Place, PortLinks, Signature};
use smallvec::SmallVec;
use std::alloc::Global;

impl Row for u32 {
    type Context = ();

    ghost use Rattle.bg_listing.specs.Lines.{edge_row};

    ghost row_at = { λ _. edge_row };

    #[tactic(auto, unfolding(crate::specs::Lines::edge_row))]
    fn read_row<'a>(
        _alloc: Global,
        _context: &(),
        bytes: &'a [u8],
    ) -> Result<(u32, &'a [u8]), LineFault> {
        match number_line(bytes) {
            Ok(row) => Ok(row),
            Err(NotThere) => Err(LineFault::Bad {
                code: BAD_LINE,
                left: bytes.len(),
            }),
        }
    }
}

impl Row for Place {
    type Context = ();

    ghost use Rattle.bg_listing.specs.Lines.{place_row};

    ghost row_at = { λ _. place_row };

    #[tactic(auto, unfolding(crate::specs::Lines::place_row))]
    fn read_row<'a>(
        _alloc: Global,
        _context: &(),
        bytes: &'a [u8],
    ) -> Result<(Place, &'a [u8]), LineFault> {
        match place_line(bytes) {
            Ok(row) => Ok(row),
            Err(NotThere) => Err(LineFault::Bad {
                code: BAD_LINE,
                left: bytes.len(),
            }),
        }
    }
}

fn place_line(bytes: &[u8]) -> Result<(Place, &[u8]), NotThere>
    ensures { GivesOrFails (λ x. (x.0, x.1.now)) result (line reading.place_at bytes.now) }
{
    let (place, rest) = place(bytes)?;
    let rest = skip(rest, b"\n")?;
    Ok((place, rest))
}

impl Row for Name {
    type Context = ();

    ghost use Rattle.bg_listing.specs.Lines.{name_row};

    ghost row_at = { λ _. name_row };

    #[tactic(auto, unfolding(crate::specs::Lines::name_row))]
    fn read_row<'a>(
        alloc: Global,
        _context: &(),
        bytes: &'a [u8],
    ) -> Result<(Name, &'a [u8]), LineFault> {
        match name_line(alloc, bytes) {
            Ok(row) => Ok(row),
            Err(PartFault::NotThere) => Err(LineFault::Bad {
                code: BAD_LINE,
                left: bytes.len(),
            }),
            Err(PartFault::OutOfMemory) => Err(LineFault::OutOfMemory),
        }
    }
}

fn name_line(alloc: Global, bytes: &[u8]) -> Result<(Name, &[u8]), PartFault>
    ensures { GivesPart (λ x. (x.0, x.1.now)) result (line reading.name_at bytes.now) }
{
    let (name, rest) = name(alloc, bytes)?;
    let rest = skip(rest, b"\n")?;
    Ok((name, rest))
}

impl Row for InnerRow {
    type Context = ();

    ghost use Rattle.bg_listing.specs.Lines.{inner_row};

    ghost row_at = { λ _. inner_row };

    #[tactic(auto, unfolding(crate::specs::Lines::inner_row))]
    fn read_row<'a>(
        alloc: Global,
        _context: &(),
        bytes: &'a [u8],
    ) -> Result<(InnerRow, &'a [u8]), LineFault> {
        match inner_line(alloc, bytes) {
            Ok(row) => Ok(row),
            Err(PartFault::NotThere) => Err(LineFault::Bad {
                code: BAD_LINE,
                left: bytes.len(),
            }),
            Err(PartFault::OutOfMemory) => Err(LineFault::OutOfMemory),
        }
    }
}

fn inner_line(alloc: Global, bytes: &[u8]) -> Result<(InnerRow, &[u8]), PartFault>
    ensures { GivesPart (λ x. (x.0, x.1.now)) result (line reading.inner_at bytes.now) }
{
    let (row, rest) = inner(alloc, bytes)?;
    let rest = skip(rest, b"\n")?;
    Ok((row, rest))
}

impl Row for Control {
    type Context = ();

    ghost use Rattle.bg_listing.specs.Lines.{control_row};

    ghost row_at = { λ _. control_row };

    #[tactic(auto, unfolding(crate::specs::Lines::control_row))]
    fn read_row<'a>(
        alloc: Global,
        _context: &(),
        bytes: &'a [u8],
    ) -> Result<(Control, &'a [u8]), LineFault> {
        let left = bytes.len();
        match control_line(alloc, bytes) {
            Ok((control, rest)) => {
                if control.arity <= MOST_PORTS {
                    Ok((control, rest))
                } else {
                    Err(LineFault::Bad {
                        code: TOO_MANY,
                        left,
                    })
                }
            }
            Err(PartFault::NotThere) => Err(LineFault::Bad {
                code: BAD_LINE,
                left,
            }),
            Err(PartFault::OutOfMemory) => Err(LineFault::OutOfMemory),
        }
    }
}

fn control_line(alloc: Global, bytes: &[u8]) -> Result<(Control, &[u8]), PartFault>
    ensures { GivesPart (λ x. (x.0, x.1.now)) result (line reading.control_at bytes.now) }
{
    let (control, rest) = control(alloc, bytes)?;
    let rest = skip(rest, b"\n")?;
    Ok((control, rest))
}

#[tactic(auto, unfolding(crate::specs::Reading::control_at))]
fn control(alloc: Global, bytes: &[u8]) -> Result<(Control, &[u8]), PartFault>
    ensures { GivesPart (λ x. (x.0, x.1.now)) result (reading.control_at bytes.now) }
{
    let (label, rest) = label(alloc, bytes)?;
    let rest = skip(rest, b" ")?;
    let (arity, rest) = number(rest)?;
    let rest = skip(rest, b" ")?;
    let (kind, rest) = kind(rest)?;
    Ok((Control { label, arity, kind }, rest))
}

#[tactic(auto, unfolding(crate::specs::Reading::kind_at))]
fn kind(bytes: &[u8]) -> Result<(Kind, &[u8]), NotThere>
    ensures { GivesOrFails (λ x. (x.0, x.1.now)) result (reading.kind_at bytes.now) }
{
    match skip(bytes, b"normal") {
        Ok(rest) => Ok((Kind::Normal, rest)),
        Err(NotThere) => {
            let rest = skip(bytes, b"atomic")?;
            Ok((Kind::Atomic, rest))
        }
    }
}

impl Row for NodeRow {
    type Context = Signature;

    ghost use Rattle.bg_listing.specs.Lines.{node_row};

    ghost row_at = { node_row };

    #[tactic(auto, unfolding(crate::specs::Lines::node_row))]
    fn read_row<'a>(
        alloc: Global,
        signature: &Signature,
        bytes: &'a [u8],
    ) -> Result<(NodeRow, &'a [u8]), LineFault> {
        match node(alloc, signature, bytes) {
            Ok(row) => Ok(row),
            Err(PartFault::NotThere) => Err(LineFault::Bad {
                code: BAD_LINE,
                left: bytes.len(),
            }),
            Err(PartFault::OutOfMemory) => Err(LineFault::OutOfMemory),
        }
    }
}

/// The line of a node. A label that the signature does not have gets a number that it does not have.
#[tactic(auto, unfolding(crate::specs::Lines::node_at))]
fn node<'a>(
    alloc: Global,
    signature: &Signature,
    bytes: &'a [u8],
) -> Result<(NodeRow, &'a [u8]), PartFault>
    ensures { GivesPart (λ x. (x.0, x.1.now)) result (lines.node_at signature.now bytes.now) }
{
    let (id, rest) = number(bytes)?;
    let rest = skip(rest, b" ")?;
    let (label, rest) = label(alloc, rest)?;
    let rest = skip(rest, b" ")?;
    let (parent, rest) = place(rest)?;
    let (links, rest) = links(alloc, rest)?;
    let control = control_of(signature, &label);
    Ok((
        NodeRow {
            id,
            control,
            parent,
            links,
        },
        rest,
    ))
}

/// The number of the control with the label, or the number of controls where there is none.
fn control_of(signature: &Signature, label: &Label) -> u32
    ensures { result ≡ lines.control_of signature.now label.now }
{
    match signature.find(label) {
        Some(number) => number,
        None => signature.len(),
    }
}

impl Piece for Link {
    ghost use Rattle.bg_listing.specs.Reading.{link_at};

    ghost piece_at = { link_at };

    fn read(alloc: Global, bytes: &[u8]) -> Result<(Link, &[u8]), PartFault> {
        link(alloc, bytes)
    }
}

/// More links than this cannot be numbered.
const MOST_LINKS: usize = 4_294_967_294;

/// The links at the end of a node's line, each behind a space, and the line feed.
#[tactic(auto, unfolding(crate::specs::Lines::links_at))]
fn links(alloc: Global, bytes: &[u8]) -> Result<(PortLinks, &[u8]), PartFault>
    ensures { GivesPart (λ x. (x.0, x.1.now)) result (lines.links_at bytes.now) }
{
    let (links, rest) = read_chain::<Link>(alloc, b'\n', b' ', bytes)?;
    match port_links(links) {
        Some(links) => Ok((links, rest)),
        None => Err(PartFault::OutOfMemory),
    }
}

/// The links of a node, where they can be numbered. Takes no memory.
fn port_links(links: Vec<Link>) -> Option<PortLinks>
    ensures { MatchOption result (4294967294 < length links.items) (λ made. made ≡ links.items) }
{
    if links.len() <= MOST_LINKS {
        Some(PortLinks::from_small_vec(SmallVec::from_vec(links)))
    } else {
        None
    }
}
