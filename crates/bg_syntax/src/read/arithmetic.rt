//! Reading. Arithmetic. Written by tools/grammar.py.
ghost use Rattle.std.specs.Prelude.{◌+◌, ◌≤◌, [], ◌∷◌, length};
ghost use Rattle.bg_syntax.specs.declared.symbol.Symbol.TheVariants as symbols;
ghost use Rattle.bg_syntax.specs.Steps.{opens};
ghost use Rattle.bg_syntax.specs.ArithmeticSteps.{more_x_item_steps, more_x_steps, x_steps, x1_item_steps, x1_steps, t_steps, t1_item_steps, t1_steps, u_steps};
ghost use Rattle.bg_syntax.specs.Reading.{wants, ReadsSymbol, ReadsItem};

use crate::fault::SyntaxFault;
use crate::reader::Reader;
use crate::symbol::Symbol;
use bg_text::TokenKind;
use bg_trees::arithmetic::{SynMoreXItem, SynT, SynT1Item, SynU, SynX, SynX1Item};

impl Reader<'_> {
    /// Reads an item of `MoreX = "," X MoreX | none`.
    pub fn more_x_item(
        &self,
        at: &mut usize,
        depth: u32,
    ) -> Result<Option<SynMoreXItem>, SyntaxFault>
        requires inside { at.old ≤ length self.now.tokens.now }
        requires shallow { depth ≤ at.old }
        ensures { ReadsItem (λ x. more_x_item_steps x depth) self.now.tokens.now at.old depth symbols.MoreX (opens symbols.MoreX 1 ∷ []) at.new result }
    {
        let way = self.choose(*at, Symbol::MoreX)?;
        match way {
            0 => {
                let part1 = self.take(at, depth, TokenKind::Comma)?;
                let part2 = self.x(at, depth)?;
                Ok(Some(SynMoreXItem { part1, part2 }))
            }
            _ => Ok(None),
        }
    }

    /// Reads `MoreX = "," X MoreX | none`.
    pub fn more_x(&self, at: &mut usize, depth: u32) -> Result<Vec<SynMoreXItem>, SyntaxFault>
        requires inside { at.old ≤ length self.now.tokens.now }
        requires shallow { depth ≤ at.old }
        ensures { ReadsSymbol (λ x. more_x_steps x.items depth) self.now.tokens.now at.old (wants depth symbols.MoreX) at.new result }
    {
        let mut items = Vec::new(self.alloc);
        while let Some(item) = self.more_x_item(at, depth)? {
            items.push(item)?;
        }
        Ok(items)
    }

    /// Reads `X = T X1`.
    #[cycle(arithmetic)]
    pub fn x(&self, at: &mut usize, depth: u32) -> Result<SynX, SyntaxFault>
        requires inside { at.old ≤ length self.now.tokens.now }
        requires shallow { depth ≤ at.old }
        ensures { ReadsSymbol (λ x. x_steps x depth) self.now.tokens.now at.old (wants depth symbols.X) at.new result }
    {
        self.choose(*at, Symbol::X)?;
        let part1 = self.t(at, depth)?;
        let box1 = Box::new(self.alloc, part1)?;
        let part2 = self.x1(at, depth)?;
        Ok(SynX { part1: box1, part2 })
    }

    /// Reads an item of `X1 = "+" T X1 | "-" T X1 | none`.
    #[cycle(arithmetic)]
    pub fn x1_item(&self, at: &mut usize, depth: u32) -> Result<Option<SynX1Item>, SyntaxFault>
        requires inside { at.old ≤ length self.now.tokens.now }
        requires shallow { depth ≤ at.old }
        ensures { ReadsItem (λ x. x1_item_steps x depth) self.now.tokens.now at.old depth symbols.X1 (opens symbols.X1 2 ∷ []) at.new result }
    {
        let way = self.choose(*at, Symbol::X1)?;
        match way {
            0 => {
                let part1 = self.take(at, depth, TokenKind::Plus)?;
                let part2 = self.t(at, depth)?;
                let box2 = Box::new(self.alloc, part2)?;
                Ok(Some(SynX1Item::Way1(part1, box2)))
            }
            1 => {
                let part1 = self.take(at, depth, TokenKind::Minus)?;
                let part2 = self.t(at, depth)?;
                let box2 = Box::new(self.alloc, part2)?;
                Ok(Some(SynX1Item::Way2(part1, box2)))
            }
            _ => Ok(None),
        }
    }

    /// Reads `X1 = "+" T X1 | "-" T X1 | none`.
    #[cycle(arithmetic)]
    pub fn x1(&self, at: &mut usize, depth: u32) -> Result<Vec<SynX1Item>, SyntaxFault>
        requires inside { at.old ≤ length self.now.tokens.now }
        requires shallow { depth ≤ at.old }
        ensures { ReadsSymbol (λ x. x1_steps x.items depth) self.now.tokens.now at.old (wants depth symbols.X1) at.new result }
    {
        let mut items = Vec::new(self.alloc);
        while let Some(item) = self.x1_item(at, depth)? {
            items.push(item)?;
        }
        Ok(items)
    }

    /// Reads `T = U T1`.
    #[cycle(arithmetic)]
    pub fn t(&self, at: &mut usize, depth: u32) -> Result<SynT, SyntaxFault>
        requires inside { at.old ≤ length self.now.tokens.now }
        requires shallow { depth ≤ at.old }
        ensures { ReadsSymbol (λ x. t_steps x depth) self.now.tokens.now at.old (wants depth symbols.T) at.new result }
    {
        self.choose(*at, Symbol::T)?;
        let part1 = self.u(at, depth)?;
        let box1 = Box::new(self.alloc, part1)?;
        let part2 = self.t1(at, depth)?;
        Ok(SynT { part1: box1, part2 })
    }

    /// Reads an item of `T1 = "*" U T1 | "/" U T1 | none`.
    #[cycle(arithmetic)]
    pub fn t1_item(&self, at: &mut usize, depth: u32) -> Result<Option<SynT1Item>, SyntaxFault>
        requires inside { at.old ≤ length self.now.tokens.now }
        requires shallow { depth ≤ at.old }
        ensures { ReadsItem (λ x. t1_item_steps x depth) self.now.tokens.now at.old depth symbols.T1 (opens symbols.T1 2 ∷ []) at.new result }
    {
        let way = self.choose(*at, Symbol::T1)?;
        match way {
            0 => {
                let part1 = self.take(at, depth, TokenKind::Star)?;
                let part2 = self.u(at, depth)?;
                let box2 = Box::new(self.alloc, part2)?;
                Ok(Some(SynT1Item::Way1(part1, box2)))
            }
            1 => {
                let part1 = self.take(at, depth, TokenKind::Slash)?;
                let part2 = self.u(at, depth)?;
                let box2 = Box::new(self.alloc, part2)?;
                Ok(Some(SynT1Item::Way2(part1, box2)))
            }
            _ => Ok(None),
        }
    }

    /// Reads `T1 = "*" U T1 | "/" U T1 | none`.
    #[cycle(arithmetic)]
    pub fn t1(&self, at: &mut usize, depth: u32) -> Result<Vec<SynT1Item>, SyntaxFault>
        requires inside { at.old ≤ length self.now.tokens.now }
        requires shallow { depth ≤ at.old }
        ensures { ReadsSymbol (λ x. t1_steps x.items depth) self.now.tokens.now at.old (wants depth symbols.T1) at.new result }
    {
        let mut items = Vec::new(self.alloc);
        while let Some(item) = self.t1_item(at, depth)? {
            items.push(item)?;
        }
        Ok(items)
    }

    /// Reads `U = Number | text | lower | "-" U | "(" X ")"`.
    #[cycle(arithmetic)]
    pub fn u(&self, at: &mut usize, depth: u32) -> Result<SynU, SyntaxFault>
        requires inside { at.old ≤ length self.now.tokens.now }
        requires shallow { depth ≤ at.old }
        ensures { ReadsSymbol (λ x. u_steps x depth) self.now.tokens.now at.old (wants depth symbols.U) at.new result }
    {
        let way = self.choose(*at, Symbol::U)?;
        let depth = depth + 1;
        match way {
            0 => {
                let part1 = self.number(at, depth)?;
                Ok(SynU::Way1(part1))
            }
            1 => {
                let part1 = self.take(at, depth, TokenKind::Text)?;
                Ok(SynU::Way2(part1))
            }
            2 => {
                let part1 = self.take(at, depth, TokenKind::Lower)?;
                Ok(SynU::Way3(part1))
            }
            3 => {
                let part1 = self.take(at, depth, TokenKind::Minus)?;
                let part2 = self.u(at, depth)?;
                let box2 = Box::new(self.alloc, part2)?;
                Ok(SynU::Way4(part1, box2))
            }
            _ => {
                let part1 = self.take(at, depth, TokenKind::OpenRound)?;
                let part2 = self.x(at, depth)?;
                let box2 = Box::new(self.alloc, part2)?;
                let part3 = self.take(at, depth, TokenKind::CloseRound)?;
                Ok(SynU::Way5(part1, box2, part3))
            }
        }
    }
}
