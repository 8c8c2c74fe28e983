//! Words and texts of any spelling, the order of names that no model has, and what no command asks of a signature.
use crate::made::{label, signature_of};
use bg_base::{Ident, Kind, Name, SignatureFault, Step, Text};
use bg_lists::{Duplicate, Mem, OutOfMemory, Rows};
use std::alloc::Global;

/// Whether the text is a word, which is spelled alike.
fn is_word(alloc: Global, text: &str) -> Mem<bool> {
    match Ident::new(alloc, text)? {
        Some(word) => Ok(word.as_str() == text),
        None => Ok(false),
    }
}

/// Whether the text may stand in quotes, and is spelled alike.
fn is_text(alloc: Global, text: &str) -> Mem<bool> {
    match Text::new(alloc, text)? {
        Some(words) => Ok(words.as_str() == text),
        None => Ok(false),
    }
}

/// Texts, whether each is a word, and whether it may stand in quotes.
const SPELLED: [(&str, bool, bool); 9] = [
    ("K", true, true),
    ("x'_9", true, true),
    ("9x", false, true),
    ("_x", false, true),
    ("", false, true),
    ("x y", false, true),
    ("two words, (3)", false, true),
    ("a\"b", false, false),
    ("a\nb", false, false),
];

#[test]
fn words_and_texts_are_spelled(rt: HostRuntime) -> Mem<()> {
    for &(text, word, quoted) in SPELLED.iter() {
        assert!(rt; is_word(rt.alloc(), text)? == word, "{text}");
        assert!(rt; is_text(rt.alloc(), text)? == quoted, "{text}");
    }
    Ok(())
}

#[test]
fn names_ascend_by_number_and_not_by_spelling(rt: HostRuntime) {
    assert!(rt; Name::Port(2, 0) < Name::Port(10, 0));
    assert!(rt; Name::Port(9, 9) < Name::Opened(0));
    assert!(rt; Name::Opened(2) < Name::Opened(10));
}

#[test]
fn controls_have_their_ports_and_their_kind(rt: HostRuntime) -> Mem<()> {
    let signature = signature_of(rt.alloc())?;
    assert!(rt; signature.len() == 4);
    assert!(rt; signature.arity(2) == 2);
    assert!(rt; signature.kind(1) == Kind::Atomic);
    Ok(())
}

/// How a control with so many ports is refused; none where it is added.
fn refusal_of(alloc: Global, word: &str, arity: u32) -> Mem<Option<SignatureFault>> {
    let mut signature = signature_of(alloc)?;
    let label = label(alloc, word)?;
    match signature.add(alloc, label, arity, Kind::Normal) {
        Ok(_) => Ok(None),
        Err(SignatureFault::OutOfMemory) => Err(OutOfMemory),
        Err(fault) => Ok(Some(fault)),
    }
}

#[test]
fn signatures_refuse_in_order(rt: HostRuntime) -> Mem<()> {
    for &(word, arity, refusal) in [
        ("C", 17, Some(SignatureFault::DuplicateControl)),
        ("D", 17, Some(SignatureFault::ArityTooLarge)),
        ("D", 16, None),
    ]
    .iter()
    {
        assert!(rt; refusal_of(rt.alloc(), word, arity)? == refusal, "{word}");
    }
    Ok(())
}

#[test]
fn a_step_is_copied(rt: HostRuntime) -> Mem<()> {
    let map = Rows::try_from_vec(Vec::from_slice(rt.alloc(), &[4, 1])?)?;
    let step = Step { rule: 3, map };
    assert!(rt; step.copy(rt.alloc())? == step);
    Ok(())
}
