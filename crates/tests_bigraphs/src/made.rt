//! What tests make bigraphs of: listings under one signature, names, labels.
ghost use Rattle.std.specs.Prelude.{IfOk};
ghost use Rattle.bg_base.specs.Bigraph.{IsValid};

use bg_base::{Big, Ident, Label, Name, Signature};
use bg_listing::{Cursor, read_big, read_signature};
use bg_lists::{Mem, OutOfMemory, Rows};
use std::alloc::Global;

/// A normal, B atomic; C normal with two ports, K normal with one.
const SIGNATURE: &str = "signature 4\nA 0 normal\nB 0 atomic\nC 2 normal\nK 1 normal\n";

const START: Cursor = Cursor { offset: 0, line: 1 };

/// The signature of these tests.
pub fn signature_of(alloc: Global) -> Mem<Signature> {
    match read_signature(alloc, SIGNATURE.as_bytes(), START) {
        Ok((signature, _end)) => Ok(signature),
        Err(_fault) => Err(OutOfMemory),
    }
}

/// The bigraph of a listing. A text that is none ends the test as want of memory does.
pub fn big_of(alloc: Global, text: &str) -> Mem<Big>
    ensures { IfOk result IsValid }
{
    if text.len() > 1_000 {
        return Err(OutOfMemory);
    }
    let signature = signature_of(alloc)?;
    match read_big(alloc, text.as_bytes(), START, &signature) {
        Ok((big, _end)) => Ok(big),
        Err(_fault) => Err(OutOfMemory),
    }
}

/// The identifier of that spelling.
fn ident(alloc: Global, text: &str) -> Mem<Ident> {
    match Ident::new(alloc, text)? {
        Some(word) => Ok(word),
        None => Err(OutOfMemory),
    }
}

/// The label of that spelling, without arguments.
pub fn label(alloc: Global, text: &str) -> Mem<Label> {
    Ok(Label {
        name: ident(alloc, text)?,
        args: Rows::from_vec(Vec::new(alloc)),
    })
}

/// The plain name of that spelling.
pub fn plain_name(alloc: Global, text: &str) -> Mem<Name> {
    Ok(Name::Plain(ident(alloc, text)?))
}
