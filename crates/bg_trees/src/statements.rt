//! Statements: controls, bigraphs, rules and parameters. Written by tools/grammar.py.
use crate::arithmetic::{SynMoreXItem, SynX};
use crate::expressions::SynE;
use crate::names::{SynFormals, SynNumber};

/// `Stmt = atomic Fun ctrl Control | fun AfterFun | ctrl Control | big Bigraph | react React | Param`
#[derive(Drop)]
pub enum SynStmt {
    /// `atomic Fun ctrl Control`
    Way1(u32, SynFun, u32, SynControl),
    /// `fun AfterFun`
    Way2(u32, SynAfterFun),
    /// `ctrl Control`
    Way3(u32, SynControl),
    /// `big Bigraph`
    Way4(u32, SynBigraph),
    /// `react React`
    Way5(u32, SynReact),
    /// `Param`
    Way6(SynParam),
}

/// `Fun = fun | none`
#[derive(Drop)]
pub enum SynFun {
    /// `fun`
    Way1(u32),
    /// `none`
    Way2,
}

/// `AfterFun = atomic ctrl Control | ctrl Control | big Bigraph | react React`
#[derive(Drop)]
pub enum SynAfterFun {
    /// `atomic ctrl Control`
    Way1(u32, u32, SynControl),
    /// `ctrl Control`
    Way2(u32, SynControl),
    /// `big Bigraph`
    Way3(u32, SynBigraph),
    /// `react React`
    Way4(u32, SynReact),
}

/// `Control = upper Formals "=" Number ";"`
#[derive(Drop)]
pub struct SynControl {
    pub part1: u32,
    pub part2: SynFormals,
    pub part3: u32,
    pub part4: SynNumber,
    pub part5: u32,
}

/// `Bigraph = lower Formals "=" E ";"`
#[derive(Drop)]
pub struct SynBigraph {
    pub part1: u32,
    pub part2: SynFormals,
    pub part3: u32,
    pub part4: SynE,
    pub part5: u32,
}

/// `React = lower Formals "=" E "-->" E Tail ";"`
#[derive(Drop)]
pub struct SynReact {
    pub part1: u32,
    pub part2: SynFormals,
    pub part3: u32,
    pub part4: SynE,
    pub part5: u32,
    pub part6: SynE,
    pub part7: SynTail,
    pub part8: u32,
}

/// `Tail = Eta IfTail | Cond EtaTail | none`
#[derive(Drop)]
pub enum SynTail {
    /// `Eta IfTail`
    Way1(SynEta, SynIfTail),
    /// `Cond EtaTail`
    Way2(SynCond, SynEtaTail),
    /// `none`
    Way3,
}

/// `IfTail = Cond | none`
#[derive(Drop)]
pub enum SynIfTail {
    /// `Cond`
    Way1(SynCond),
    /// `none`
    Way2,
}

/// `EtaTail = Eta | none`
#[derive(Drop)]
pub enum SynEtaTail {
    /// `Eta`
    Way1(SynEta),
    /// `none`
    Way2,
}

/// `Eta = "@" "[" Numbers "]"`
#[derive(Drop)]
pub struct SynEta {
    pub part1: u32,
    pub part2: u32,
    pub part3: SynNumbers,
    pub part4: u32,
}

/// `Numbers = Number MoreNum | none`
#[derive(Drop)]
pub enum SynNumbers {
    /// `Number MoreNum`
    Way1(SynNumber, Vec<SynMoreNumItem>),
    /// `none`
    Way2,
}

/// An item of `MoreNum = "," Number MoreNum | none`
#[derive(Drop)]
pub struct SynMoreNumItem {
    pub part1: u32,
    pub part2: SynNumber,
}

/// `Cond = if Test Tests`
#[derive(Drop)]
pub struct SynCond {
    pub part1: u32,
    pub part2: SynTest,
    pub part3: Vec<SynTestsItem>,
}

/// An item of `Tests = "," Test Tests | none`
#[derive(Drop)]
pub struct SynTestsItem {
    pub part1: u32,
    pub part2: SynTest,
}

/// `Test = Not E in Side`
#[derive(Drop)]
pub struct SynTest {
    pub part1: SynNot,
    pub part2: SynE,
    pub part3: u32,
    pub part4: SynSide,
}

/// `Not = "!" | none`
#[derive(Drop)]
pub enum SynNot {
    /// `"!"`
    Way1(u32),
    /// `none`
    Way2,
}

/// `Side = ctx | param`
#[derive(Drop)]
pub enum SynSide {
    /// `ctx`
    Way1(u32),
    /// `param`
    Way2(u32),
}

/// `Param = int lower "=" IntSet ";" | string lower "=" TextSet ";"`
#[derive(Drop)]
pub enum SynParam {
    /// `int lower "=" IntSet ";"`
    Way1(u32, u32, u32, SynIntSet, u32),
    /// `string lower "=" TextSet ";"`
    Way2(u32, u32, u32, SynTextSet, u32),
}

/// `IntSet = "{" X MoreX "}" | "[" X ":" X ":" X "]" | X`
#[derive(Drop)]
pub enum SynIntSet {
    /// `"{" X MoreX "}"`
    Way1(u32, SynX, Vec<SynMoreXItem>, u32),
    /// `"[" X ":" X ":" X "]"`
    Way2(u32, SynX, u32, SynX, u32, SynX, u32),
    /// `X`
    Way3(SynX),
}

/// `TextSet = "{" text MoreText "}" | text`
#[derive(Drop)]
pub enum SynTextSet {
    /// `"{" text MoreText "}"`
    Way1(u32, u32, Vec<SynMoreTextItem>, u32),
    /// `text`
    Way2(u32),
}

/// An item of `MoreText = "," text MoreText | none`
#[derive(Drop)]
pub struct SynMoreTextItem {
    pub part1: u32,
    pub part2: u32,
}
