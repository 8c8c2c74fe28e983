//! Models: statements, and then the block with parameters, the first bigraph, classes and predicates. Written by
//! tools/grammar.py.
use crate::expressions::SynRef;
use crate::statements::{SynParam, SynStmt};

/// `Model = Stmts Block`
#[derive(Drop)]
pub struct SynModel {
    pub part1: Vec<SynStmtsItem>,
    pub part2: SynBlock,
}

/// An item of `Stmts = Stmt Stmts | none`
#[derive(Drop)]
pub struct SynStmtsItem {
    pub part1: SynStmt,
}

/// `Block = begin brs Params init Ref ";" rules "=" "[" Classes "]" ";" Preds end | none`
#[derive(Drop)]
pub enum SynBlock {
    /// `begin brs Params init Ref ";" rules "=" "[" Classes "]" ";" Preds end`
    Way1(
        u32,
        u32,
        Vec<SynParamsItem>,
        u32,
        SynRef,
        u32,
        u32,
        u32,
        u32,
        SynClasses,
        u32,
        u32,
        SynPreds,
        u32,
    ),
    /// `none`
    Way2,
}

/// An item of `Params = Param Params | none`
#[derive(Drop)]
pub struct SynParamsItem {
    pub part1: SynParam,
}

/// `Classes = Class MoreCl | none`
#[derive(Drop)]
pub enum SynClasses {
    /// `Class MoreCl`
    Way1(SynClass, Vec<SynMoreClItem>),
    /// `none`
    Way2,
}

/// An item of `MoreCl = "," Class MoreCl | none`
#[derive(Drop)]
pub struct SynMoreClItem {
    pub part1: u32,
    pub part2: SynClass,
}

/// `Class = "{" Refs "}" | "(" Refs ")"`
#[derive(Drop)]
pub enum SynClass {
    /// `"{" Refs "}"`
    Way1(u32, SynRefs, u32),
    /// `"(" Refs ")"`
    Way2(u32, SynRefs, u32),
}

/// `Preds = preds "=" "{" Refs "}" ";" | none`
#[derive(Drop)]
pub enum SynPreds {
    /// `preds "=" "{" Refs "}" ";"`
    Way1(u32, u32, u32, SynRefs, u32, u32),
    /// `none`
    Way2,
}

/// `Refs = Ref MoreRef | none`
#[derive(Drop)]
pub enum SynRefs {
    /// `Ref MoreRef`
    Way1(SynRef, Vec<SynMoreRefItem>),
    /// `none`
    Way2,
}

/// An item of `MoreRef = "," Ref MoreRef | none`
#[derive(Drop)]
pub struct SynMoreRefItem {
    pub part1: u32,
    pub part2: SynRef,
}
