//! Names and numbers. Written by tools/grammar.py.

/// `Number = zero | one | num`
#[derive(Drop)]
pub enum SynNumber {
    /// `zero`
    Way1(u32),
    /// `one`
    Way2(u32),
    /// `num`
    Way3(u32),
}

/// `Formals = "(" lower MoreLow ")" | none`
#[derive(Drop)]
pub enum SynFormals {
    /// `"(" lower MoreLow ")"`
    Way1(u32, u32, Vec<SynMoreLowItem>, u32),
    /// `none`
    Way2,
}

/// An item of `MoreLow = "," lower MoreLow | none`
#[derive(Drop)]
pub struct SynMoreLowItem {
    pub part1: u32,
    pub part2: u32,
}

/// `Names = "{" NameList "}" | none`
#[derive(Drop)]
pub enum SynNames {
    /// `"{" NameList "}"`
    Way1(u32, SynNameList, u32),
    /// `none`
    Way2,
}

/// `NameList = lower MoreLow | none`
#[derive(Drop)]
pub enum SynNameList {
    /// `lower MoreLow`
    Way1(u32, Vec<SynMoreLowItem>),
    /// `none`
    Way2,
}
