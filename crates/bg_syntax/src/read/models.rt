//! Reading. Models: statements, and then the block with parameters, the first bigraph, classes and predicates. Written
//! by tools/grammar.py.
ghost use Rattle.std.specs.Prelude.{◌≤◌, [], ◌∷◌, length};
ghost use Rattle.bg_syntax.specs.declared.symbol.Symbol.TheVariants as symbols;
ghost use Rattle.bg_syntax.specs.Steps.{opens};
ghost use Rattle.bg_syntax.specs.ModelsSteps.{model_steps, stmts_item_steps, stmts_steps, block_steps, block_behind5_steps, block_behind10_steps, params_item_steps, params_steps, classes_steps, more_cl_item_steps, more_cl_steps, class_steps, preds_steps, refs_steps, more_ref_item_steps, more_ref_steps};
ghost use Rattle.bg_syntax.specs.Reading.{wants, wants_behind, ReadsSymbol, ReadsItem};

use crate::fault::SyntaxFault;
use crate::reader::Reader;
use crate::symbol::Symbol;
use bg_text::TokenKind;
use bg_trees::models::{
    SynBlock, SynClass, SynClasses, SynModel, SynMoreClItem, SynMoreRefItem, SynParamsItem,
    SynPreds, SynRefs, SynStmtsItem,
};

/// The parts of `Block` behind its first 5.
#[derive(Drop)]
struct BlockBehind5 {
    part6: u32,
    part7: u32,
    part8: u32,
    part9: u32,
    part10: SynClasses,
    behind: BlockBehind10,
}

/// The parts of `Block` behind its first 10.
#[derive(Drop)]
struct BlockBehind10 {
    part11: u32,
    part12: u32,
    part13: SynPreds,
    part14: u32,
}

impl Reader<'_> {
    /// Reads `Model = Stmts Block`.
    pub fn model(&self, at: &mut usize, depth: u32) -> Result<SynModel, SyntaxFault>
        requires inside { at.old ≤ length self.now.tokens.now }
        requires shallow { depth ≤ at.old }
        ensures { ReadsSymbol (λ x. model_steps x depth) self.now.tokens.now at.old (wants depth symbols.Model) at.new result }
    {
        self.choose(*at, Symbol::Model)?;
        let part1 = self.stmts(at, depth)?;
        let part2 = self.block(at, depth)?;
        Ok(SynModel { part1, part2 })
    }

    /// Reads an item of `Stmts = Stmt Stmts | none`.
    pub fn stmts_item(
        &self,
        at: &mut usize,
        depth: u32,
    ) -> Result<Option<SynStmtsItem>, SyntaxFault>
        requires inside { at.old ≤ length self.now.tokens.now }
        requires shallow { depth ≤ at.old }
        ensures { ReadsItem (λ x. stmts_item_steps x depth) self.now.tokens.now at.old depth symbols.Stmts (opens symbols.Stmts 1 ∷ []) at.new result }
    {
        let way = self.choose(*at, Symbol::Stmts)?;
        match way {
            0 => {
                let part1 = self.stmt(at, depth)?;
                Ok(Some(SynStmtsItem { part1 }))
            }
            _ => Ok(None),
        }
    }

    /// Reads `Stmts = Stmt Stmts | none`.
    pub fn stmts(&self, at: &mut usize, depth: u32) -> Result<Vec<SynStmtsItem>, SyntaxFault>
        requires inside { at.old ≤ length self.now.tokens.now }
        requires shallow { depth ≤ at.old }
        ensures { ReadsSymbol (λ x. stmts_steps x.items depth) self.now.tokens.now at.old (wants depth symbols.Stmts) at.new result }
    {
        let mut items = Vec::new(self.alloc);
        while let Some(item) = self.stmts_item(at, depth)? {
            items.push(item)?;
        }
        Ok(items)
    }

    /// Reads `Block = begin brs Params init Ref ";" rules "=" "[" Classes "]" ";" Preds end | none`.
    pub fn block(&self, at: &mut usize, depth: u32) -> Result<SynBlock, SyntaxFault>
        requires inside { at.old ≤ length self.now.tokens.now }
        requires shallow { depth ≤ at.old }
        ensures { ReadsSymbol (λ x. block_steps x depth) self.now.tokens.now at.old (wants depth symbols.Block) at.new result }
    {
        let way = self.choose(*at, Symbol::Block)?;
        match way {
            0 => {
                let part1 = self.take(at, depth, TokenKind::KwBegin)?;
                let part2 = self.take(at, depth, TokenKind::KwBrs)?;
                let part3 = self.params(at, depth)?;
                let part4 = self.take(at, depth, TokenKind::KwInit)?;
                let part5 = self.reference(at, depth)?;
                let rest = self.block_behind5(at, depth)?;
                let BlockBehind5 {
                    part6,
                    part7,
                    part8,
                    part9,
                    part10,
                    behind,
                } = rest;
                let BlockBehind10 {
                    part11,
                    part12,
                    part13,
                    part14,
                } = behind;
                Ok(SynBlock::Way1(
                    part1, part2, part3, part4, part5, part6, part7, part8, part9, part10, part11,
                    part12, part13, part14,
                ))
            }
            _ => Ok(SynBlock::Way2),
        }
    }

    // Block behind its first 5 parts: ";" rules "=" "[" Classes "]" ";" Preds end
    fn block_behind5(&self, at: &mut usize, depth: u32) -> Result<BlockBehind5, SyntaxFault>
        requires inside { at.old ≤ length self.now.tokens.now }
        requires shallow { depth ≤ at.old }
        ensures { ReadsSymbol (λ x. block_behind5_steps x depth) self.now.tokens.now at.old (wants_behind depth symbols.Block 0 5) at.new result }
    {
        let part6 = self.take(at, depth, TokenKind::Semicolon)?;
        let part7 = self.take(at, depth, TokenKind::KwRules)?;
        let part8 = self.take(at, depth, TokenKind::Equals)?;
        let part9 = self.take(at, depth, TokenKind::OpenSquare)?;
        let part10 = self.classes(at, depth)?;
        let rest = self.block_behind10(at, depth)?;
        Ok(BlockBehind5 {
            part6,
            part7,
            part8,
            part9,
            part10,
            behind: rest,
        })
    }

    // Block behind its first 10 parts: "]" ";" Preds end
    fn block_behind10(&self, at: &mut usize, depth: u32) -> Result<BlockBehind10, SyntaxFault>
        requires inside { at.old ≤ length self.now.tokens.now }
        requires shallow { depth ≤ at.old }
        ensures { ReadsSymbol (λ x. block_behind10_steps x depth) self.now.tokens.now at.old (wants_behind depth symbols.Block 0 10) at.new result }
    {
        let part11 = self.take(at, depth, TokenKind::CloseSquare)?;
        let part12 = self.take(at, depth, TokenKind::Semicolon)?;
        let part13 = self.preds(at, depth)?;
        let part14 = self.take(at, depth, TokenKind::KwEnd)?;
        Ok(BlockBehind10 {
            part11,
            part12,
            part13,
            part14,
        })
    }

    /// Reads an item of `Params = Param Params | none`.
    pub fn params_item(
        &self,
        at: &mut usize,
        depth: u32,
    ) -> Result<Option<SynParamsItem>, SyntaxFault>
        requires inside { at.old ≤ length self.now.tokens.now }
        requires shallow { depth ≤ at.old }
        ensures { ReadsItem (λ x. params_item_steps x depth) self.now.tokens.now at.old depth symbols.Params (opens symbols.Params 1 ∷ []) at.new result }
    {
        let way = self.choose(*at, Symbol::Params)?;
        match way {
            0 => {
                let part1 = self.param(at, depth)?;
                Ok(Some(SynParamsItem { part1 }))
            }
            _ => Ok(None),
        }
    }

    /// Reads `Params = Param Params | none`.
    pub fn params(&self, at: &mut usize, depth: u32) -> Result<Vec<SynParamsItem>, SyntaxFault>
        requires inside { at.old ≤ length self.now.tokens.now }
        requires shallow { depth ≤ at.old }
        ensures { ReadsSymbol (λ x. params_steps x.items depth) self.now.tokens.now at.old (wants depth symbols.Params) at.new result }
    {
        let mut items = Vec::new(self.alloc);
        while let Some(item) = self.params_item(at, depth)? {
            items.push(item)?;
        }
        Ok(items)
    }

    /// Reads `Classes = Class MoreCl | none`.
    pub fn classes(&self, at: &mut usize, depth: u32) -> Result<SynClasses, SyntaxFault>
        requires inside { at.old ≤ length self.now.tokens.now }
        requires shallow { depth ≤ at.old }
        ensures { ReadsSymbol (λ x. classes_steps x depth) self.now.tokens.now at.old (wants depth symbols.Classes) at.new result }
    {
        let way = self.choose(*at, Symbol::Classes)?;
        match way {
            0 => {
                let part1 = self.class(at, depth)?;
                let part2 = self.more_cl(at, depth)?;
                Ok(SynClasses::Way1(part1, part2))
            }
            _ => Ok(SynClasses::Way2),
        }
    }

    /// Reads an item of `MoreCl = "," Class MoreCl | none`.
    pub fn more_cl_item(
        &self,
        at: &mut usize,
        depth: u32,
    ) -> Result<Option<SynMoreClItem>, SyntaxFault>
        requires inside { at.old ≤ length self.now.tokens.now }
        requires shallow { depth ≤ at.old }
        ensures { ReadsItem (λ x. more_cl_item_steps x depth) self.now.tokens.now at.old depth symbols.MoreCl (opens symbols.MoreCl 1 ∷ []) at.new result }
    {
        let way = self.choose(*at, Symbol::MoreCl)?;
        match way {
            0 => {
                let part1 = self.take(at, depth, TokenKind::Comma)?;
                let part2 = self.class(at, depth)?;
                Ok(Some(SynMoreClItem { part1, part2 }))
            }
            _ => Ok(None),
        }
    }

    /// Reads `MoreCl = "," Class MoreCl | none`.
    pub fn more_cl(&self, at: &mut usize, depth: u32) -> Result<Vec<SynMoreClItem>, SyntaxFault>
        requires inside { at.old ≤ length self.now.tokens.now }
        requires shallow { depth ≤ at.old }
        ensures { ReadsSymbol (λ x. more_cl_steps x.items depth) self.now.tokens.now at.old (wants depth symbols.MoreCl) at.new result }
    {
        let mut items = Vec::new(self.alloc);
        while let Some(item) = self.more_cl_item(at, depth)? {
            items.push(item)?;
        }
        Ok(items)
    }

    /// Reads `Class = "{" Refs "}" | "(" Refs ")"`.
    pub fn class(&self, at: &mut usize, depth: u32) -> Result<SynClass, SyntaxFault>
        requires inside { at.old ≤ length self.now.tokens.now }
        requires shallow { depth ≤ at.old }
        ensures { ReadsSymbol (λ x. class_steps x depth) self.now.tokens.now at.old (wants depth symbols.Class) at.new result }
    {
        let way = self.choose(*at, Symbol::Class)?;
        match way {
            0 => {
                let part1 = self.take(at, depth, TokenKind::OpenBrace)?;
                let part2 = self.refs(at, depth)?;
                let part3 = self.take(at, depth, TokenKind::CloseBrace)?;
                Ok(SynClass::Way1(part1, part2, part3))
            }
            _ => {
                let part1 = self.take(at, depth, TokenKind::OpenRound)?;
                let part2 = self.refs(at, depth)?;
                let part3 = self.take(at, depth, TokenKind::CloseRound)?;
                Ok(SynClass::Way2(part1, part2, part3))
            }
        }
    }

    /// Reads `Preds = preds "=" "{" Refs "}" ";" | none`.
    pub fn preds(&self, at: &mut usize, depth: u32) -> Result<SynPreds, SyntaxFault>
        requires inside { at.old ≤ length self.now.tokens.now }
        requires shallow { depth ≤ at.old }
        ensures { ReadsSymbol (λ x. preds_steps x depth) self.now.tokens.now at.old (wants depth symbols.Preds) at.new result }
    {
        let way = self.choose(*at, Symbol::Preds)?;
        match way {
            0 => {
                let part1 = self.take(at, depth, TokenKind::KwPreds)?;
                let part2 = self.take(at, depth, TokenKind::Equals)?;
                let part3 = self.take(at, depth, TokenKind::OpenBrace)?;
                let part4 = self.refs(at, depth)?;
                let part5 = self.take(at, depth, TokenKind::CloseBrace)?;
                let part6 = self.take(at, depth, TokenKind::Semicolon)?;
                Ok(SynPreds::Way1(part1, part2, part3, part4, part5, part6))
            }
            _ => Ok(SynPreds::Way2),
        }
    }

    /// Reads `Refs = Ref MoreRef | none`.
    pub fn refs(&self, at: &mut usize, depth: u32) -> Result<SynRefs, SyntaxFault>
        requires inside { at.old ≤ length self.now.tokens.now }
        requires shallow { depth ≤ at.old }
        ensures { ReadsSymbol (λ x. refs_steps x depth) self.now.tokens.now at.old (wants depth symbols.Refs) at.new result }
    {
        let way = self.choose(*at, Symbol::Refs)?;
        match way {
            0 => {
                let part1 = self.reference(at, depth)?;
                let part2 = self.more_ref(at, depth)?;
                Ok(SynRefs::Way1(part1, part2))
            }
            _ => Ok(SynRefs::Way2),
        }
    }

    /// Reads an item of `MoreRef = "," Ref MoreRef | none`.
    pub fn more_ref_item(
        &self,
        at: &mut usize,
        depth: u32,
    ) -> Result<Option<SynMoreRefItem>, SyntaxFault>
        requires inside { at.old ≤ length self.now.tokens.now }
        requires shallow { depth ≤ at.old }
        ensures { ReadsItem (λ x. more_ref_item_steps x depth) self.now.tokens.now at.old depth symbols.MoreRef (opens symbols.MoreRef 1 ∷ []) at.new result }
    {
        let way = self.choose(*at, Symbol::MoreRef)?;
        match way {
            0 => {
                let part1 = self.take(at, depth, TokenKind::Comma)?;
                let part2 = self.reference(at, depth)?;
                Ok(Some(SynMoreRefItem { part1, part2 }))
            }
            _ => Ok(None),
        }
    }

    /// Reads `MoreRef = "," Ref MoreRef | none`.
    pub fn more_ref(&self, at: &mut usize, depth: u32) -> Result<Vec<SynMoreRefItem>, SyntaxFault>
        requires inside { at.old ≤ length self.now.tokens.now }
        requires shallow { depth ≤ at.old }
        ensures { ReadsSymbol (λ x. more_ref_steps x.items depth) self.now.tokens.now at.old (wants depth symbols.MoreRef) at.new result }
    {
        let mut items = Vec::new(self.alloc);
        while let Some(item) = self.more_ref_item(at, depth)? {
            items.push(item)?;
        }
        Ok(items)
    }
}
