//! Expressions: bigraphs built of references, ions, links and products. Written by tools/grammar.py.
use crate::arithmetic::{SynMoreXItem, SynX};
use crate::names::{SynNameList, SynNames, SynNumber};

/// `Ref = lower Args`
#[derive(Drop)]
pub struct SynRef {
    pub part1: u32,
    pub part2: SynArgs,
}

/// `Args = "(" X MoreX ")" | none`
#[derive(Drop)]
pub enum SynArgs {
    /// `"(" X MoreX ")"`
    Way1(u32, SynX, Vec<SynMoreXItem>, u32),
    /// `none`
    Way2,
}

/// `E = P E1`
#[cycle(expressions)]
#[derive(Drop)]
pub struct SynE {
    pub part1: Box<SynP>,
    pub part2: Vec<SynE1Item>,
}

/// An item of `E1 = "+" P E1 | none`
#[cycle(expressions)]
#[derive(Drop)]
pub struct SynE1Item {
    pub part1: u32,
    pub part2: Box<SynP>,
}

/// `P = M P1`
#[cycle(expressions)]
#[derive(Drop)]
pub struct SynP {
    pub part1: Box<SynM>,
    pub part2: Vec<SynP1Item>,
}

/// An item of `P1 = "||" M P1 | none`
#[cycle(expressions)]
#[derive(Drop)]
pub struct SynP1Item {
    pub part1: u32,
    pub part2: Box<SynM>,
}

/// `M = C M1`
#[cycle(expressions)]
#[derive(Drop)]
pub struct SynM {
    pub part1: Box<SynC>,
    pub part2: Vec<SynM1Item>,
}

/// An item of `M1 = "|" C M1 | none`
#[cycle(expressions)]
#[derive(Drop)]
pub struct SynM1Item {
    pub part1: u32,
    pub part2: Box<SynC>,
}

/// `C = K C1`
#[cycle(expressions)]
#[derive(Drop)]
pub struct SynC {
    pub part1: Box<SynK>,
    pub part2: Vec<SynC1Item>,
}

/// An item of `C1 = "*" K C1 | none`
#[cycle(expressions)]
#[derive(Drop)]
pub struct SynC1Item {
    pub part1: u32,
    pub part2: Box<SynK>,
}

/// `K = "/" lower K | N`
#[cycle(expressions)]
#[derive(Drop)]
pub enum SynK {
    /// `"/" lower K`
    Way1(u32, u32, Box<SynK>),
    /// `N`
    Way2(Box<SynN>),
}

/// `N = A N1`
#[cycle(expressions)]
#[derive(Drop)]
pub struct SynN {
    pub part1: Box<SynA>,
    pub part2: Box<SynN1>,
}

/// `N1 = "." K | none`
#[cycle(expressions)]
#[derive(Drop)]
pub enum SynN1 {
    /// `"." K`
    Way1(u32, Box<SynK>),
    /// `none`
    Way2,
}

/// `A = upper Args Names | Ref | "{" NameList "}" | id IdTail | merge "(" Number ")" | zero | one | "(" E ")"`
#[cycle(expressions)]
#[derive(Drop)]
pub enum SynA {
    /// `upper Args Names`
    Way1(u32, SynArgs, SynNames),
    /// `Ref`
    Way2(SynRef),
    /// `"{" NameList "}"`
    Way3(u32, SynNameList, u32),
    /// `id IdTail`
    Way4(u32, SynIdTail),
    /// `merge "(" Number ")"`
    Way5(u32, u32, SynNumber, u32),
    /// `zero`
    Way6(u32),
    /// `one`
    Way7(u32),
    /// `"(" E ")"`
    Way8(u32, Box<SynE>, u32),
}

/// `IdTail = "(" Number IdNames ")" | "{" NameList "}" | none`
#[derive(Drop)]
pub enum SynIdTail {
    /// `"(" Number IdNames ")"`
    Way1(u32, SynNumber, SynIdNames, u32),
    /// `"{" NameList "}"`
    Way2(u32, SynNameList, u32),
    /// `none`
    Way3,
}

/// `IdNames = "," "{" NameList "}" | none`
#[derive(Drop)]
pub enum SynIdNames {
    /// `"," "{" NameList "}"`
    Way1(u32, u32, SynNameList, u32),
    /// `none`
    Way2,
}
