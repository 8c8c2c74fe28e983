//! Arithmetic. Written by tools/grammar.py.
use crate::names::SynNumber;

/// An item of `MoreX = "," X MoreX | none`
#[derive(Drop)]
pub struct SynMoreXItem {
    pub part1: u32,
    pub part2: SynX,
}

/// `X = T X1`
#[cycle(arithmetic)]
#[derive(Drop)]
pub struct SynX {
    pub part1: Box<SynT>,
    pub part2: Vec<SynX1Item>,
}

/// An item of `X1 = "+" T X1 | "-" T X1 | none`
#[cycle(arithmetic)]
#[derive(Drop)]
pub enum SynX1Item {
    /// `"+" T`
    Way1(u32, Box<SynT>),
    /// `"-" T`
    Way2(u32, Box<SynT>),
}

/// `T = U T1`
#[cycle(arithmetic)]
#[derive(Drop)]
pub struct SynT {
    pub part1: Box<SynU>,
    pub part2: Vec<SynT1Item>,
}

/// An item of `T1 = "*" U T1 | "/" U T1 | none`
#[cycle(arithmetic)]
#[derive(Drop)]
pub enum SynT1Item {
    /// `"*" U`
    Way1(u32, Box<SynU>),
    /// `"/" U`
    Way2(u32, Box<SynU>),
}

/// `U = Number | text | lower | "-" U | "(" X ")"`
#[cycle(arithmetic)]
#[derive(Drop)]
pub enum SynU {
    /// `Number`
    Way1(SynNumber),
    /// `text`
    Way2(u32),
    /// `lower`
    Way3(u32),
    /// `"-" U`
    Way4(u32, Box<SynU>),
    /// `"(" X ")"`
    Way5(u32, Box<SynX>, u32),
}
