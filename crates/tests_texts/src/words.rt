use bg_words::{Command, Request, WordsFault, request};
use std::alloc::{AllocError, Global};

/// The words of the line, between which there is a space.
fn words_of(alloc: Global, line: &str) -> Result<Vec<String>, AllocError> {
    let mut words = Vec::new(alloc);
    for word in line.split(' ') {
        words.push(String::from_str(alloc, word)?)?;
    }
    Ok(words)
}

/// Whether the words of the line ask for that.
fn ask_for(alloc: Global, line: &str, wanted: &Request) -> Result<bool, WordsFault> {
    let words = words_of(alloc, line)?;
    let asked = request(alloc, words.as_slice())?;
    Ok(asked == *wanted)
}

#[test]
fn what_is_not_given_is_by_default(rt: HostRuntime) -> Result<(), WordsFault> {
    let wanted = Request {
        command: Command::Compose,
        most: 100_000,
        workers: 1,
        steps: 1_000,
        seed: 0,
        size: 10,
        explain: false,
    };
    assert!(rt; ask_for(rt.alloc(), "another compose", &wanted)?);
    Ok(())
}

/// An option that the command does not use is read all the same.
#[test]
fn each_option_is_asked_for(rt: HostRuntime) -> Result<(), WordsFault> {
    let wanted = Request {
        command: Command::Check,
        most: 2,
        workers: 3,
        steps: 4,
        seed: 5,
        size: 6,
        explain: true,
    };
    let line = "bigengine --size 006 --seed 5 check --steps=4 --workers 3 --most 2 --explain";
    assert!(rt; ask_for(rt.alloc(), line, &wanted)?);
    Ok(())
}

#[test]
fn no_words_are_refused(rt: HostRuntime) -> Result<(), WordsFault> {
    match request(rt.alloc(), &[]) {
        Err(WordsFault::OutOfMemory) => Err(WordsFault::OutOfMemory),
        answer => {
            assert!(rt; answer == Err(WordsFault::Refused));
            Ok(())
        }
    }
}
