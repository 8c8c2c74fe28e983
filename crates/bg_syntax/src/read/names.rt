//! Reading. Names and numbers. Written by tools/grammar.py.
ghost use Rattle.std.specs.Prelude.{◌≤◌, [], ◌∷◌, length};
ghost use Rattle.bg_syntax.specs.declared.symbol.Symbol.TheVariants as symbols;
ghost use Rattle.bg_syntax.specs.Steps.{opens};
ghost use Rattle.bg_syntax.specs.NamesSteps.{number_steps, formals_steps, more_low_item_steps, more_low_steps, names_steps, name_list_steps};
ghost use Rattle.bg_syntax.specs.Reading.{wants, ReadsSymbol, ReadsItem};

use crate::fault::SyntaxFault;
use crate::reader::Reader;
use crate::symbol::Symbol;
use bg_text::TokenKind;
use bg_trees::names::{SynFormals, SynMoreLowItem, SynNameList, SynNames, SynNumber};

impl Reader<'_> {
    /// Reads `Number = zero | one | num`.
    pub fn number(&self, at: &mut usize, depth: u32) -> Result<SynNumber, SyntaxFault>
        requires inside { at.old ≤ length self.now.tokens.now }
        ensures { ReadsSymbol (λ x. number_steps x depth) self.now.tokens.now at.old (wants depth symbols.Number) at.new result }
    {
        let way = self.choose(*at, Symbol::Number)?;
        match way {
            0 => {
                let part1 = self.take(at, depth, TokenKind::Zero)?;
                Ok(SynNumber::Way1(part1))
            }
            1 => {
                let part1 = self.take(at, depth, TokenKind::One)?;
                Ok(SynNumber::Way2(part1))
            }
            _ => {
                let part1 = self.take(at, depth, TokenKind::Num)?;
                Ok(SynNumber::Way3(part1))
            }
        }
    }

    /// Reads `Formals = "(" lower MoreLow ")" | none`.
    pub fn formals(&self, at: &mut usize, depth: u32) -> Result<SynFormals, SyntaxFault>
        requires inside { at.old ≤ length self.now.tokens.now }
        ensures { ReadsSymbol (λ x. formals_steps x depth) self.now.tokens.now at.old (wants depth symbols.Formals) at.new result }
    {
        let way = self.choose(*at, Symbol::Formals)?;
        match way {
            0 => {
                let part1 = self.take(at, depth, TokenKind::OpenRound)?;
                let part2 = self.take(at, depth, TokenKind::Lower)?;
                let part3 = self.more_low(at, depth)?;
                let part4 = self.take(at, depth, TokenKind::CloseRound)?;
                Ok(SynFormals::Way1(part1, part2, part3, part4))
            }
            _ => Ok(SynFormals::Way2),
        }
    }

    /// Reads an item of `MoreLow = "," lower MoreLow | none`.
    pub fn more_low_item(
        &self,
        at: &mut usize,
        depth: u32,
    ) -> Result<Option<SynMoreLowItem>, SyntaxFault>
        requires inside { at.old ≤ length self.now.tokens.now }
        ensures { ReadsItem (λ x. more_low_item_steps x depth) self.now.tokens.now at.old depth symbols.MoreLow (opens symbols.MoreLow 1 ∷ []) at.new result }
    {
        let way = self.choose(*at, Symbol::MoreLow)?;
        match way {
            0 => {
                let part1 = self.take(at, depth, TokenKind::Comma)?;
                let part2 = self.take(at, depth, TokenKind::Lower)?;
                Ok(Some(SynMoreLowItem { part1, part2 }))
            }
            _ => Ok(None),
        }
    }

    /// Reads `MoreLow = "," lower MoreLow | none`.
    pub fn more_low(&self, at: &mut usize, depth: u32) -> Result<Vec<SynMoreLowItem>, SyntaxFault>
        requires inside { at.old ≤ length self.now.tokens.now }
        ensures { ReadsSymbol (λ x. more_low_steps x.items depth) self.now.tokens.now at.old (wants depth symbols.MoreLow) at.new result }
    {
        let mut items = Vec::new(self.alloc);
        while let Some(item) = self.more_low_item(at, depth)? {
            items.push(item)?;
        }
        Ok(items)
    }

    /// Reads `Names = "{" NameList "}" | none`.
    pub fn names(&self, at: &mut usize, depth: u32) -> Result<SynNames, SyntaxFault>
        requires inside { at.old ≤ length self.now.tokens.now }
        ensures { ReadsSymbol (λ x. names_steps x depth) self.now.tokens.now at.old (wants depth symbols.Names) at.new result }
    {
        let way = self.choose(*at, Symbol::Names)?;
        match way {
            0 => {
                let part1 = self.take(at, depth, TokenKind::OpenBrace)?;
                let part2 = self.name_list(at, depth)?;
                let part3 = self.take(at, depth, TokenKind::CloseBrace)?;
                Ok(SynNames::Way1(part1, part2, part3))
            }
            _ => Ok(SynNames::Way2),
        }
    }

    /// Reads `NameList = lower MoreLow | none`.
    pub fn name_list(&self, at: &mut usize, depth: u32) -> Result<SynNameList, SyntaxFault>
        requires inside { at.old ≤ length self.now.tokens.now }
        ensures { ReadsSymbol (λ x. name_list_steps x depth) self.now.tokens.now at.old (wants depth symbols.NameList) at.new result }
    {
        let way = self.choose(*at, Symbol::NameList)?;
        match way {
            0 => {
                let part1 = self.take(at, depth, TokenKind::Lower)?;
                let part2 = self.more_low(at, depth)?;
                Ok(SynNameList::Way1(part1, part2))
            }
            _ => Ok(SynNameList::Way2),
        }
    }
}
