//! Reading. Expressions: bigraphs built of references, ions, links and products. Written by tools/grammar.py.
ghost use Rattle.std.specs.Prelude.{◌+◌, ◌≤◌, [], ◌∷◌, length};
ghost use Rattle.bg_syntax.specs.declared.symbol.Symbol.TheVariants as symbols;
ghost use Rattle.bg_syntax.specs.Steps.{opens};
ghost use Rattle.bg_syntax.specs.ExpressionsSteps.{reference_steps, args_steps, e_steps, e1_item_steps, e1_steps, p_steps, p1_item_steps, p1_steps, m_steps, m1_item_steps, m1_steps, c_steps, c1_item_steps, c1_steps, k_steps, n_steps, n1_steps, a_steps, id_tail_steps, id_names_steps};
ghost use Rattle.bg_syntax.specs.Reading.{wants, ReadsSymbol, ReadsItem};

use crate::fault::SyntaxFault;
use crate::reader::Reader;
use crate::symbol::Symbol;
use bg_text::TokenKind;
use bg_trees::expressions::{
    SynA, SynArgs, SynC, SynC1Item, SynE, SynE1Item, SynIdNames, SynIdTail, SynK, SynM, SynM1Item,
    SynN, SynN1, SynP, SynP1Item, SynRef,
};

impl Reader<'_> {
    /// Reads `Ref = lower Args`.
    pub fn reference(&self, at: &mut usize, depth: u32) -> Result<SynRef, SyntaxFault>
        requires inside { at.old ≤ length self.now.tokens.now }
        requires shallow { depth ≤ at.old + 1 }
        ensures { ReadsSymbol (λ x. reference_steps x depth) self.now.tokens.now at.old (wants depth symbols.Ref) at.new result }
    {
        self.choose(*at, Symbol::Ref)?;
        let part1 = self.take(at, depth, TokenKind::Lower)?;
        let part2 = self.args(at, depth)?;
        Ok(SynRef { part1, part2 })
    }

    /// Reads `Args = "(" X MoreX ")" | none`.
    pub fn args(&self, at: &mut usize, depth: u32) -> Result<SynArgs, SyntaxFault>
        requires inside { at.old ≤ length self.now.tokens.now }
        requires shallow { depth ≤ at.old }
        ensures { ReadsSymbol (λ x. args_steps x depth) self.now.tokens.now at.old (wants depth symbols.Args) at.new result }
    {
        let way = self.choose(*at, Symbol::Args)?;
        match way {
            0 => {
                let part1 = self.take(at, depth, TokenKind::OpenRound)?;
                let part2 = self.x(at, depth)?;
                let part3 = self.more_x(at, depth)?;
                let part4 = self.take(at, depth, TokenKind::CloseRound)?;
                Ok(SynArgs::Way1(part1, part2, part3, part4))
            }
            _ => Ok(SynArgs::Way2),
        }
    }

    /// Reads `E = P E1`.
    #[cycle(expressions)]
    pub fn e(&self, at: &mut usize, depth: u32) -> Result<SynE, SyntaxFault>
        requires inside { at.old ≤ length self.now.tokens.now }
        requires shallow { depth ≤ at.old }
        ensures { ReadsSymbol (λ x. e_steps x depth) self.now.tokens.now at.old (wants depth symbols.E) at.new result }
    {
        self.choose(*at, Symbol::E)?;
        let part1 = self.p(at, depth)?;
        let box1 = Box::new(self.alloc, part1)?;
        let part2 = self.e1(at, depth)?;
        Ok(SynE { part1: box1, part2 })
    }

    /// Reads an item of `E1 = "+" P E1 | none`.
    #[cycle(expressions)]
    pub fn e1_item(&self, at: &mut usize, depth: u32) -> Result<Option<SynE1Item>, SyntaxFault>
        requires inside { at.old ≤ length self.now.tokens.now }
        requires shallow { depth ≤ at.old }
        ensures { ReadsItem (λ x. e1_item_steps x depth) self.now.tokens.now at.old depth symbols.E1 (opens symbols.E1 1 ∷ []) at.new result }
    {
        let way = self.choose(*at, Symbol::E1)?;
        match way {
            0 => {
                let part1 = self.take(at, depth, TokenKind::Plus)?;
                let part2 = self.p(at, depth)?;
                let box2 = Box::new(self.alloc, part2)?;
                Ok(Some(SynE1Item { part1, part2: box2 }))
            }
            _ => Ok(None),
        }
    }

    /// Reads `E1 = "+" P E1 | none`.
    #[cycle(expressions)]
    pub fn e1(&self, at: &mut usize, depth: u32) -> Result<Vec<SynE1Item>, SyntaxFault>
        requires inside { at.old ≤ length self.now.tokens.now }
        requires shallow { depth ≤ at.old }
        ensures { ReadsSymbol (λ x. e1_steps x.items depth) self.now.tokens.now at.old (wants depth symbols.E1) at.new result }
    {
        let mut items = Vec::new(self.alloc);
        while let Some(item) = self.e1_item(at, depth)? {
            items.push(item)?;
        }
        Ok(items)
    }

    /// Reads `P = M P1`.
    #[cycle(expressions)]
    pub fn p(&self, at: &mut usize, depth: u32) -> Result<SynP, SyntaxFault>
        requires inside { at.old ≤ length self.now.tokens.now }
        requires shallow { depth ≤ at.old }
        ensures { ReadsSymbol (λ x. p_steps x depth) self.now.tokens.now at.old (wants depth symbols.P) at.new result }
    {
        self.choose(*at, Symbol::P)?;
        let part1 = self.m(at, depth)?;
        let box1 = Box::new(self.alloc, part1)?;
        let part2 = self.p1(at, depth)?;
        Ok(SynP { part1: box1, part2 })
    }

    /// Reads an item of `P1 = "||" M P1 | none`.
    #[cycle(expressions)]
    pub fn p1_item(&self, at: &mut usize, depth: u32) -> Result<Option<SynP1Item>, SyntaxFault>
        requires inside { at.old ≤ length self.now.tokens.now }
        requires shallow { depth ≤ at.old }
        ensures { ReadsItem (λ x. p1_item_steps x depth) self.now.tokens.now at.old depth symbols.P1 (opens symbols.P1 1 ∷ []) at.new result }
    {
        let way = self.choose(*at, Symbol::P1)?;
        match way {
            0 => {
                let part1 = self.take(at, depth, TokenKind::BarBar)?;
                let part2 = self.m(at, depth)?;
                let box2 = Box::new(self.alloc, part2)?;
                Ok(Some(SynP1Item { part1, part2: box2 }))
            }
            _ => Ok(None),
        }
    }

    /// Reads `P1 = "||" M P1 | none`.
    #[cycle(expressions)]
    pub fn p1(&self, at: &mut usize, depth: u32) -> Result<Vec<SynP1Item>, SyntaxFault>
        requires inside { at.old ≤ length self.now.tokens.now }
        requires shallow { depth ≤ at.old }
        ensures { ReadsSymbol (λ x. p1_steps x.items depth) self.now.tokens.now at.old (wants depth symbols.P1) at.new result }
    {
        let mut items = Vec::new(self.alloc);
        while let Some(item) = self.p1_item(at, depth)? {
            items.push(item)?;
        }
        Ok(items)
    }

    /// Reads `M = C M1`.
    #[cycle(expressions)]
    pub fn m(&self, at: &mut usize, depth: u32) -> Result<SynM, SyntaxFault>
        requires inside { at.old ≤ length self.now.tokens.now }
        requires shallow { depth ≤ at.old }
        ensures { ReadsSymbol (λ x. m_steps x depth) self.now.tokens.now at.old (wants depth symbols.M) at.new result }
    {
        self.choose(*at, Symbol::M)?;
        let part1 = self.c(at, depth)?;
        let box1 = Box::new(self.alloc, part1)?;
        let part2 = self.m1(at, depth)?;
        Ok(SynM { part1: box1, part2 })
    }

    /// Reads an item of `M1 = "|" C M1 | none`.
    #[cycle(expressions)]
    pub fn m1_item(&self, at: &mut usize, depth: u32) -> Result<Option<SynM1Item>, SyntaxFault>
        requires inside { at.old ≤ length self.now.tokens.now }
        requires shallow { depth ≤ at.old }
        ensures { ReadsItem (λ x. m1_item_steps x depth) self.now.tokens.now at.old depth symbols.M1 (opens symbols.M1 1 ∷ []) at.new result }
    {
        let way = self.choose(*at, Symbol::M1)?;
        match way {
            0 => {
                let part1 = self.take(at, depth, TokenKind::Bar)?;
                let part2 = self.c(at, depth)?;
                let box2 = Box::new(self.alloc, part2)?;
                Ok(Some(SynM1Item { part1, part2: box2 }))
            }
            _ => Ok(None),
        }
    }

    /// Reads `M1 = "|" C M1 | none`.
    #[cycle(expressions)]
    pub fn m1(&self, at: &mut usize, depth: u32) -> Result<Vec<SynM1Item>, SyntaxFault>
        requires inside { at.old ≤ length self.now.tokens.now }
        requires shallow { depth ≤ at.old }
        ensures { ReadsSymbol (λ x. m1_steps x.items depth) self.now.tokens.now at.old (wants depth symbols.M1) at.new result }
    {
        let mut items = Vec::new(self.alloc);
        while let Some(item) = self.m1_item(at, depth)? {
            items.push(item)?;
        }
        Ok(items)
    }

    /// Reads `C = K C1`.
    #[cycle(expressions)]
    pub fn c(&self, at: &mut usize, depth: u32) -> Result<SynC, SyntaxFault>
        requires inside { at.old ≤ length self.now.tokens.now }
        requires shallow { depth ≤ at.old }
        ensures { ReadsSymbol (λ x. c_steps x depth) self.now.tokens.now at.old (wants depth symbols.C) at.new result }
    {
        self.choose(*at, Symbol::C)?;
        let part1 = self.k(at, depth)?;
        let box1 = Box::new(self.alloc, part1)?;
        let part2 = self.c1(at, depth)?;
        Ok(SynC { part1: box1, part2 })
    }

    /// Reads an item of `C1 = "*" K C1 | none`.
    #[cycle(expressions)]
    pub fn c1_item(&self, at: &mut usize, depth: u32) -> Result<Option<SynC1Item>, SyntaxFault>
        requires inside { at.old ≤ length self.now.tokens.now }
        requires shallow { depth ≤ at.old }
        ensures { ReadsItem (λ x. c1_item_steps x depth) self.now.tokens.now at.old depth symbols.C1 (opens symbols.C1 1 ∷ []) at.new result }
    {
        let way = self.choose(*at, Symbol::C1)?;
        match way {
            0 => {
                let part1 = self.take(at, depth, TokenKind::Star)?;
                let part2 = self.k(at, depth)?;
                let box2 = Box::new(self.alloc, part2)?;
                Ok(Some(SynC1Item { part1, part2: box2 }))
            }
            _ => Ok(None),
        }
    }

    /// Reads `C1 = "*" K C1 | none`.
    #[cycle(expressions)]
    pub fn c1(&self, at: &mut usize, depth: u32) -> Result<Vec<SynC1Item>, SyntaxFault>
        requires inside { at.old ≤ length self.now.tokens.now }
        requires shallow { depth ≤ at.old }
        ensures { ReadsSymbol (λ x. c1_steps x.items depth) self.now.tokens.now at.old (wants depth symbols.C1) at.new result }
    {
        let mut items = Vec::new(self.alloc);
        while let Some(item) = self.c1_item(at, depth)? {
            items.push(item)?;
        }
        Ok(items)
    }

    /// Reads `K = "/" lower K | N`.
    #[cycle(expressions)]
    pub fn k(&self, at: &mut usize, depth: u32) -> Result<SynK, SyntaxFault>
        requires inside { at.old ≤ length self.now.tokens.now }
        requires shallow { depth ≤ at.old }
        ensures { ReadsSymbol (λ x. k_steps x depth) self.now.tokens.now at.old (wants depth symbols.K) at.new result }
    {
        let way = self.choose(*at, Symbol::K)?;
        let depth = depth + 1;
        match way {
            0 => {
                let part1 = self.take(at, depth, TokenKind::Slash)?;
                let part2 = self.take(at, depth, TokenKind::Lower)?;
                let part3 = self.k(at, depth)?;
                let box3 = Box::new(self.alloc, part3)?;
                Ok(SynK::Way1(part1, part2, box3))
            }
            _ => {
                let part1 = self.n(at, depth)?;
                let box1 = Box::new(self.alloc, part1)?;
                Ok(SynK::Way2(box1))
            }
        }
    }

    /// Reads `N = A N1`.
    #[cycle(expressions)]
    pub fn n(&self, at: &mut usize, depth: u32) -> Result<SynN, SyntaxFault>
        requires inside { at.old ≤ length self.now.tokens.now }
        requires shallow { depth ≤ at.old + 1 }
        ensures { ReadsSymbol (λ x. n_steps x depth) self.now.tokens.now at.old (wants depth symbols.N) at.new result }
    {
        self.choose(*at, Symbol::N)?;
        let part1 = self.a(at, depth)?;
        let box1 = Box::new(self.alloc, part1)?;
        let part2 = self.n1(at, depth)?;
        let box2 = Box::new(self.alloc, part2)?;
        Ok(SynN {
            part1: box1,
            part2: box2,
        })
    }

    /// Reads `N1 = "." K | none`.
    #[cycle(expressions)]
    pub fn n1(&self, at: &mut usize, depth: u32) -> Result<SynN1, SyntaxFault>
        requires inside { at.old ≤ length self.now.tokens.now }
        requires shallow { depth ≤ at.old + 1 }
        ensures { ReadsSymbol (λ x. n1_steps x depth) self.now.tokens.now at.old (wants depth symbols.N1) at.new result }
    {
        let way = self.choose(*at, Symbol::N1)?;
        match way {
            0 => {
                let part1 = self.take(at, depth, TokenKind::Dot)?;
                let part2 = self.k(at, depth)?;
                let box2 = Box::new(self.alloc, part2)?;
                Ok(SynN1::Way1(part1, box2))
            }
            _ => Ok(SynN1::Way2),
        }
    }

    /// Reads `A = upper Args Names | Ref | "{" NameList "}" | id IdTail | merge "(" Number ")" | zero | one | "(" E ")"`.
    #[cycle(expressions)]
    pub fn a(&self, at: &mut usize, depth: u32) -> Result<SynA, SyntaxFault>
        requires inside { at.old ≤ length self.now.tokens.now }
        requires shallow { depth ≤ at.old + 1 }
        ensures { ReadsSymbol (λ x. a_steps x depth) self.now.tokens.now at.old (wants depth symbols.A) at.new result }
    {
        let way = self.choose(*at, Symbol::A)?;
        match way {
            0 => {
                let part1 = self.take(at, depth, TokenKind::Upper)?;
                let part2 = self.args(at, depth)?;
                let part3 = self.names(at, depth)?;
                Ok(SynA::Way1(part1, part2, part3))
            }
            1 => {
                let part1 = self.reference(at, depth)?;
                Ok(SynA::Way2(part1))
            }
            2 => {
                let part1 = self.take(at, depth, TokenKind::OpenBrace)?;
                let part2 = self.name_list(at, depth)?;
                let part3 = self.take(at, depth, TokenKind::CloseBrace)?;
                Ok(SynA::Way3(part1, part2, part3))
            }
            3 => {
                let part1 = self.take(at, depth, TokenKind::KwId)?;
                let part2 = self.id_tail(at, depth)?;
                Ok(SynA::Way4(part1, part2))
            }
            4 => {
                let part1 = self.take(at, depth, TokenKind::KwMerge)?;
                let part2 = self.take(at, depth, TokenKind::OpenRound)?;
                let part3 = self.number(at, depth)?;
                let part4 = self.take(at, depth, TokenKind::CloseRound)?;
                Ok(SynA::Way5(part1, part2, part3, part4))
            }
            5 => {
                let part1 = self.take(at, depth, TokenKind::Zero)?;
                Ok(SynA::Way6(part1))
            }
            6 => {
                let part1 = self.take(at, depth, TokenKind::One)?;
                Ok(SynA::Way7(part1))
            }
            _ => {
                let part1 = self.take(at, depth, TokenKind::OpenRound)?;
                let part2 = self.e(at, depth)?;
                let box2 = Box::new(self.alloc, part2)?;
                let part3 = self.take(at, depth, TokenKind::CloseRound)?;
                Ok(SynA::Way8(part1, box2, part3))
            }
        }
    }

    /// Reads `IdTail = "(" Number IdNames ")" | "{" NameList "}" | none`.
    pub fn id_tail(&self, at: &mut usize, depth: u32) -> Result<SynIdTail, SyntaxFault>
        requires inside { at.old ≤ length self.now.tokens.now }
        ensures { ReadsSymbol (λ x. id_tail_steps x depth) self.now.tokens.now at.old (wants depth symbols.IdTail) at.new result }
    {
        let way = self.choose(*at, Symbol::IdTail)?;
        match way {
            0 => {
                let part1 = self.take(at, depth, TokenKind::OpenRound)?;
                let part2 = self.number(at, depth)?;
                let part3 = self.id_names(at, depth)?;
                let part4 = self.take(at, depth, TokenKind::CloseRound)?;
                Ok(SynIdTail::Way1(part1, part2, part3, part4))
            }
            1 => {
                let part1 = self.take(at, depth, TokenKind::OpenBrace)?;
                let part2 = self.name_list(at, depth)?;
                let part3 = self.take(at, depth, TokenKind::CloseBrace)?;
                Ok(SynIdTail::Way2(part1, part2, part3))
            }
            _ => Ok(SynIdTail::Way3),
        }
    }

    /// Reads `IdNames = "," "{" NameList "}" | none`.
    pub fn id_names(&self, at: &mut usize, depth: u32) -> Result<SynIdNames, SyntaxFault>
        requires inside { at.old ≤ length self.now.tokens.now }
        ensures { ReadsSymbol (λ x. id_names_steps x depth) self.now.tokens.now at.old (wants depth symbols.IdNames) at.new result }
    {
        let way = self.choose(*at, Symbol::IdNames)?;
        match way {
            0 => {
                let part1 = self.take(at, depth, TokenKind::Comma)?;
                let part2 = self.take(at, depth, TokenKind::OpenBrace)?;
                let part3 = self.name_list(at, depth)?;
                let part4 = self.take(at, depth, TokenKind::CloseBrace)?;
                Ok(SynIdNames::Way1(part1, part2, part3, part4))
            }
            _ => Ok(SynIdNames::Way2),
        }
    }
}
