//! Reading. Statements: controls, bigraphs, rules and parameters. Written by tools/grammar.py.
ghost use Rattle.std.specs.Prelude.{◌≤◌, [], ◌∷◌, length};
ghost use Rattle.bg_syntax.specs.declared.symbol.Symbol.TheVariants as symbols;
ghost use Rattle.bg_syntax.specs.Steps.{opens};
ghost use Rattle.bg_syntax.specs.StatementsSteps.{stmt_steps, fun_steps, after_fun_steps, control_steps, bigraph_steps, react_steps, tail_steps, if_tail_steps, eta_tail_steps, eta_steps, numbers_steps, more_num_item_steps, more_num_steps, cond_steps, tests_item_steps, tests_steps, test_steps, negation_steps, side_steps, param_steps, int_set_steps, text_set_steps, more_text_item_steps, more_text_steps};
ghost use Rattle.bg_syntax.specs.Reading.{wants, ReadsSymbol, ReadsItem};

use crate::fault::SyntaxFault;
use crate::reader::Reader;
use crate::symbol::Symbol;
use bg_text::TokenKind;
use bg_trees::statements::{
    SynAfterFun, SynBigraph, SynCond, SynControl, SynEta, SynEtaTail, SynFun, SynIfTail, SynIntSet,
    SynMoreNumItem, SynMoreTextItem, SynNot, SynNumbers, SynParam, SynReact, SynSide, SynStmt,
    SynTail, SynTest, SynTestsItem, SynTextSet,
};

impl Reader<'_> {
    /// Reads `Stmt = atomic Fun ctrl Control | fun AfterFun | ctrl Control | big Bigraph | react React | Param`.
    pub fn stmt(&self, at: &mut usize, depth: u32) -> Result<SynStmt, SyntaxFault>
        requires inside { at.old ≤ length self.now.tokens.now }
        requires shallow { depth ≤ at.old }
        ensures { ReadsSymbol (λ x. stmt_steps x depth) self.now.tokens.now at.old (wants depth symbols.Stmt) at.new result }
    {
        let way = self.choose(*at, Symbol::Stmt)?;
        match way {
            0 => {
                let part1 = self.take(at, depth, TokenKind::KwAtomic)?;
                let part2 = self.fun(at, depth)?;
                let part3 = self.take(at, depth, TokenKind::KwCtrl)?;
                let part4 = self.control(at, depth)?;
                Ok(SynStmt::Way1(part1, part2, part3, part4))
            }
            1 => {
                let part1 = self.take(at, depth, TokenKind::KwFun)?;
                let part2 = self.after_fun(at, depth)?;
                Ok(SynStmt::Way2(part1, part2))
            }
            2 => {
                let part1 = self.take(at, depth, TokenKind::KwCtrl)?;
                let part2 = self.control(at, depth)?;
                Ok(SynStmt::Way3(part1, part2))
            }
            3 => {
                let part1 = self.take(at, depth, TokenKind::KwBig)?;
                let part2 = self.bigraph(at, depth)?;
                Ok(SynStmt::Way4(part1, part2))
            }
            4 => {
                let part1 = self.take(at, depth, TokenKind::KwReact)?;
                let part2 = self.react(at, depth)?;
                Ok(SynStmt::Way5(part1, part2))
            }
            _ => {
                let part1 = self.param(at, depth)?;
                Ok(SynStmt::Way6(part1))
            }
        }
    }

    /// Reads `Fun = fun | none`.
    pub fn fun(&self, at: &mut usize, depth: u32) -> Result<SynFun, SyntaxFault>
        requires inside { at.old ≤ length self.now.tokens.now }
        ensures { ReadsSymbol (λ x. fun_steps x depth) self.now.tokens.now at.old (wants depth symbols.Fun) at.new result }
    {
        let way = self.choose(*at, Symbol::Fun)?;
        match way {
            0 => {
                let part1 = self.take(at, depth, TokenKind::KwFun)?;
                Ok(SynFun::Way1(part1))
            }
            _ => Ok(SynFun::Way2),
        }
    }

    /// Reads `AfterFun = atomic ctrl Control | ctrl Control | big Bigraph | react React`.
    pub fn after_fun(&self, at: &mut usize, depth: u32) -> Result<SynAfterFun, SyntaxFault>
        requires inside { at.old ≤ length self.now.tokens.now }
        requires shallow { depth ≤ at.old }
        ensures { ReadsSymbol (λ x. after_fun_steps x depth) self.now.tokens.now at.old (wants depth symbols.AfterFun) at.new result }
    {
        let way = self.choose(*at, Symbol::AfterFun)?;
        match way {
            0 => {
                let part1 = self.take(at, depth, TokenKind::KwAtomic)?;
                let part2 = self.take(at, depth, TokenKind::KwCtrl)?;
                let part3 = self.control(at, depth)?;
                Ok(SynAfterFun::Way1(part1, part2, part3))
            }
            1 => {
                let part1 = self.take(at, depth, TokenKind::KwCtrl)?;
                let part2 = self.control(at, depth)?;
                Ok(SynAfterFun::Way2(part1, part2))
            }
            2 => {
                let part1 = self.take(at, depth, TokenKind::KwBig)?;
                let part2 = self.bigraph(at, depth)?;
                Ok(SynAfterFun::Way3(part1, part2))
            }
            _ => {
                let part1 = self.take(at, depth, TokenKind::KwReact)?;
                let part2 = self.react(at, depth)?;
                Ok(SynAfterFun::Way4(part1, part2))
            }
        }
    }

    /// Reads `Control = upper Formals "=" Number ";"`.
    pub fn control(&self, at: &mut usize, depth: u32) -> Result<SynControl, SyntaxFault>
        requires inside { at.old ≤ length self.now.tokens.now }
        ensures { ReadsSymbol (λ x. control_steps x depth) self.now.tokens.now at.old (wants depth symbols.Control) at.new result }
    {
        self.choose(*at, Symbol::Control)?;
        let part1 = self.take(at, depth, TokenKind::Upper)?;
        let part2 = self.formals(at, depth)?;
        let part3 = self.take(at, depth, TokenKind::Equals)?;
        let part4 = self.number(at, depth)?;
        let part5 = self.take(at, depth, TokenKind::Semicolon)?;
        Ok(SynControl {
            part1,
            part2,
            part3,
            part4,
            part5,
        })
    }

    /// Reads `Bigraph = lower Formals "=" E ";"`.
    pub fn bigraph(&self, at: &mut usize, depth: u32) -> Result<SynBigraph, SyntaxFault>
        requires inside { at.old ≤ length self.now.tokens.now }
        requires shallow { depth ≤ at.old }
        ensures { ReadsSymbol (λ x. bigraph_steps x depth) self.now.tokens.now at.old (wants depth symbols.Bigraph) at.new result }
    {
        self.choose(*at, Symbol::Bigraph)?;
        let part1 = self.take(at, depth, TokenKind::Lower)?;
        let part2 = self.formals(at, depth)?;
        let part3 = self.take(at, depth, TokenKind::Equals)?;
        let part4 = self.e(at, depth)?;
        let part5 = self.take(at, depth, TokenKind::Semicolon)?;
        Ok(SynBigraph {
            part1,
            part2,
            part3,
            part4,
            part5,
        })
    }

    /// Reads `React = lower Formals "=" E "-->" E Tail ";"`.
    pub fn react(&self, at: &mut usize, depth: u32) -> Result<SynReact, SyntaxFault>
        requires inside { at.old ≤ length self.now.tokens.now }
        requires shallow { depth ≤ at.old }
        ensures { ReadsSymbol (λ x. react_steps x depth) self.now.tokens.now at.old (wants depth symbols.React) at.new result }
    {
        self.choose(*at, Symbol::React)?;
        let part1 = self.take(at, depth, TokenKind::Lower)?;
        let part2 = self.formals(at, depth)?;
        let part3 = self.take(at, depth, TokenKind::Equals)?;
        let part4 = self.e(at, depth)?;
        let part5 = self.take(at, depth, TokenKind::Arrow)?;
        let part6 = self.e(at, depth)?;
        let part7 = self.tail(at, depth)?;
        let part8 = self.take(at, depth, TokenKind::Semicolon)?;
        Ok(SynReact {
            part1,
            part2,
            part3,
            part4,
            part5,
            part6,
            part7,
            part8,
        })
    }

    /// Reads `Tail = Eta IfTail | Cond EtaTail | none`.
    pub fn tail(&self, at: &mut usize, depth: u32) -> Result<SynTail, SyntaxFault>
        requires inside { at.old ≤ length self.now.tokens.now }
        requires shallow { depth ≤ at.old }
        ensures { ReadsSymbol (λ x. tail_steps x depth) self.now.tokens.now at.old (wants depth symbols.Tail) at.new result }
    {
        let way = self.choose(*at, Symbol::Tail)?;
        match way {
            0 => {
                let part1 = self.eta(at, depth)?;
                let part2 = self.if_tail(at, depth)?;
                Ok(SynTail::Way1(part1, part2))
            }
            1 => {
                let part1 = self.cond(at, depth)?;
                let part2 = self.eta_tail(at, depth)?;
                Ok(SynTail::Way2(part1, part2))
            }
            _ => Ok(SynTail::Way3),
        }
    }

    /// Reads `IfTail = Cond | none`.
    pub fn if_tail(&self, at: &mut usize, depth: u32) -> Result<SynIfTail, SyntaxFault>
        requires inside { at.old ≤ length self.now.tokens.now }
        requires shallow { depth ≤ at.old }
        ensures { ReadsSymbol (λ x. if_tail_steps x depth) self.now.tokens.now at.old (wants depth symbols.IfTail) at.new result }
    {
        let way = self.choose(*at, Symbol::IfTail)?;
        match way {
            0 => {
                let part1 = self.cond(at, depth)?;
                Ok(SynIfTail::Way1(part1))
            }
            _ => Ok(SynIfTail::Way2),
        }
    }

    /// Reads `EtaTail = Eta | none`.
    pub fn eta_tail(&self, at: &mut usize, depth: u32) -> Result<SynEtaTail, SyntaxFault>
        requires inside { at.old ≤ length self.now.tokens.now }
        ensures { ReadsSymbol (λ x. eta_tail_steps x depth) self.now.tokens.now at.old (wants depth symbols.EtaTail) at.new result }
    {
        let way = self.choose(*at, Symbol::EtaTail)?;
        match way {
            0 => {
                let part1 = self.eta(at, depth)?;
                Ok(SynEtaTail::Way1(part1))
            }
            _ => Ok(SynEtaTail::Way2),
        }
    }

    /// Reads `Eta = "@" "[" Numbers "]"`.
    pub fn eta(&self, at: &mut usize, depth: u32) -> Result<SynEta, SyntaxFault>
        requires inside { at.old ≤ length self.now.tokens.now }
        ensures { ReadsSymbol (λ x. eta_steps x depth) self.now.tokens.now at.old (wants depth symbols.Eta) at.new result }
    {
        self.choose(*at, Symbol::Eta)?;
        let part1 = self.take(at, depth, TokenKind::At)?;
        let part2 = self.take(at, depth, TokenKind::OpenSquare)?;
        let part3 = self.numbers(at, depth)?;
        let part4 = self.take(at, depth, TokenKind::CloseSquare)?;
        Ok(SynEta {
            part1,
            part2,
            part3,
            part4,
        })
    }

    /// Reads `Numbers = Number MoreNum | none`.
    pub fn numbers(&self, at: &mut usize, depth: u32) -> Result<SynNumbers, SyntaxFault>
        requires inside { at.old ≤ length self.now.tokens.now }
        ensures { ReadsSymbol (λ x. numbers_steps x depth) self.now.tokens.now at.old (wants depth symbols.Numbers) at.new result }
    {
        let way = self.choose(*at, Symbol::Numbers)?;
        match way {
            0 => {
                let part1 = self.number(at, depth)?;
                let part2 = self.more_num(at, depth)?;
                Ok(SynNumbers::Way1(part1, part2))
            }
            _ => Ok(SynNumbers::Way2),
        }
    }

    /// Reads an item of `MoreNum = "," Number MoreNum | none`.
    pub fn more_num_item(
        &self,
        at: &mut usize,
        depth: u32,
    ) -> Result<Option<SynMoreNumItem>, SyntaxFault>
        requires inside { at.old ≤ length self.now.tokens.now }
        ensures { ReadsItem (λ x. more_num_item_steps x depth) self.now.tokens.now at.old depth symbols.MoreNum (opens symbols.MoreNum 1 ∷ []) at.new result }
    {
        let way = self.choose(*at, Symbol::MoreNum)?;
        match way {
            0 => {
                let part1 = self.take(at, depth, TokenKind::Comma)?;
                let part2 = self.number(at, depth)?;
                Ok(Some(SynMoreNumItem { part1, part2 }))
            }
            _ => Ok(None),
        }
    }

    /// Reads `MoreNum = "," Number MoreNum | none`.
    pub fn more_num(&self, at: &mut usize, depth: u32) -> Result<Vec<SynMoreNumItem>, SyntaxFault>
        requires inside { at.old ≤ length self.now.tokens.now }
        ensures { ReadsSymbol (λ x. more_num_steps x.items depth) self.now.tokens.now at.old (wants depth symbols.MoreNum) at.new result }
    {
        let mut items = Vec::new(self.alloc);
        while let Some(item) = self.more_num_item(at, depth)? {
            items.push(item)?;
        }
        Ok(items)
    }

    /// Reads `Cond = if Test Tests`.
    pub fn cond(&self, at: &mut usize, depth: u32) -> Result<SynCond, SyntaxFault>
        requires inside { at.old ≤ length self.now.tokens.now }
        requires shallow { depth ≤ at.old }
        ensures { ReadsSymbol (λ x. cond_steps x depth) self.now.tokens.now at.old (wants depth symbols.Cond) at.new result }
    {
        self.choose(*at, Symbol::Cond)?;
        let part1 = self.take(at, depth, TokenKind::KwIf)?;
        let part2 = self.test(at, depth)?;
        let part3 = self.tests(at, depth)?;
        Ok(SynCond {
            part1,
            part2,
            part3,
        })
    }

    /// Reads an item of `Tests = "," Test Tests | none`.
    pub fn tests_item(
        &self,
        at: &mut usize,
        depth: u32,
    ) -> Result<Option<SynTestsItem>, SyntaxFault>
        requires inside { at.old ≤ length self.now.tokens.now }
        requires shallow { depth ≤ at.old }
        ensures { ReadsItem (λ x. tests_item_steps x depth) self.now.tokens.now at.old depth symbols.Tests (opens symbols.Tests 1 ∷ []) at.new result }
    {
        let way = self.choose(*at, Symbol::Tests)?;
        match way {
            0 => {
                let part1 = self.take(at, depth, TokenKind::Comma)?;
                let part2 = self.test(at, depth)?;
                Ok(Some(SynTestsItem { part1, part2 }))
            }
            _ => Ok(None),
        }
    }

    /// Reads `Tests = "," Test Tests | none`.
    pub fn tests(&self, at: &mut usize, depth: u32) -> Result<Vec<SynTestsItem>, SyntaxFault>
        requires inside { at.old ≤ length self.now.tokens.now }
        requires shallow { depth ≤ at.old }
        ensures { ReadsSymbol (λ x. tests_steps x.items depth) self.now.tokens.now at.old (wants depth symbols.Tests) at.new result }
    {
        let mut items = Vec::new(self.alloc);
        while let Some(item) = self.tests_item(at, depth)? {
            items.push(item)?;
        }
        Ok(items)
    }

    /// Reads `Test = Not E in Side`.
    pub fn test(&self, at: &mut usize, depth: u32) -> Result<SynTest, SyntaxFault>
        requires inside { at.old ≤ length self.now.tokens.now }
        requires shallow { depth ≤ at.old }
        ensures { ReadsSymbol (λ x. test_steps x depth) self.now.tokens.now at.old (wants depth symbols.Test) at.new result }
    {
        self.choose(*at, Symbol::Test)?;
        let part1 = self.negation(at, depth)?;
        let part2 = self.e(at, depth)?;
        let part3 = self.take(at, depth, TokenKind::KwIn)?;
        let part4 = self.side(at, depth)?;
        Ok(SynTest {
            part1,
            part2,
            part3,
            part4,
        })
    }

    /// Reads `Not = "!" | none`.
    pub fn negation(&self, at: &mut usize, depth: u32) -> Result<SynNot, SyntaxFault>
        requires inside { at.old ≤ length self.now.tokens.now }
        ensures { ReadsSymbol (λ x. negation_steps x depth) self.now.tokens.now at.old (wants depth symbols.Not) at.new result }
    {
        let way = self.choose(*at, Symbol::Not)?;
        match way {
            0 => {
                let part1 = self.take(at, depth, TokenKind::Bang)?;
                Ok(SynNot::Way1(part1))
            }
            _ => Ok(SynNot::Way2),
        }
    }

    /// Reads `Side = ctx | param`.
    pub fn side(&self, at: &mut usize, depth: u32) -> Result<SynSide, SyntaxFault>
        requires inside { at.old ≤ length self.now.tokens.now }
        ensures { ReadsSymbol (λ x. side_steps x depth) self.now.tokens.now at.old (wants depth symbols.Side) at.new result }
    {
        let way = self.choose(*at, Symbol::Side)?;
        match way {
            0 => {
                let part1 = self.take(at, depth, TokenKind::KwCtx)?;
                Ok(SynSide::Way1(part1))
            }
            _ => {
                let part1 = self.take(at, depth, TokenKind::KwParam)?;
                Ok(SynSide::Way2(part1))
            }
        }
    }

    /// Reads `Param = int lower "=" IntSet ";" | string lower "=" TextSet ";"`.
    pub fn param(&self, at: &mut usize, depth: u32) -> Result<SynParam, SyntaxFault>
        requires inside { at.old ≤ length self.now.tokens.now }
        requires shallow { depth ≤ at.old }
        ensures { ReadsSymbol (λ x. param_steps x depth) self.now.tokens.now at.old (wants depth symbols.Param) at.new result }
    {
        let way = self.choose(*at, Symbol::Param)?;
        match way {
            0 => {
                let part1 = self.take(at, depth, TokenKind::KwInt)?;
                let part2 = self.take(at, depth, TokenKind::Lower)?;
                let part3 = self.take(at, depth, TokenKind::Equals)?;
                let part4 = self.int_set(at, depth)?;
                let part5 = self.take(at, depth, TokenKind::Semicolon)?;
                Ok(SynParam::Way1(part1, part2, part3, part4, part5))
            }
            _ => {
                let part1 = self.take(at, depth, TokenKind::KwString)?;
                let part2 = self.take(at, depth, TokenKind::Lower)?;
                let part3 = self.take(at, depth, TokenKind::Equals)?;
                let part4 = self.text_set(at, depth)?;
                let part5 = self.take(at, depth, TokenKind::Semicolon)?;
                Ok(SynParam::Way2(part1, part2, part3, part4, part5))
            }
        }
    }

    /// Reads `IntSet = "{" X MoreX "}" | "[" X ":" X ":" X "]" | X`.
    pub fn int_set(&self, at: &mut usize, depth: u32) -> Result<SynIntSet, SyntaxFault>
        requires inside { at.old ≤ length self.now.tokens.now }
        requires shallow { depth ≤ at.old }
        ensures { ReadsSymbol (λ x. int_set_steps x depth) self.now.tokens.now at.old (wants depth symbols.IntSet) at.new result }
    {
        let way = self.choose(*at, Symbol::IntSet)?;
        match way {
            0 => {
                let part1 = self.take(at, depth, TokenKind::OpenBrace)?;
                let part2 = self.x(at, depth)?;
                let part3 = self.more_x(at, depth)?;
                let part4 = self.take(at, depth, TokenKind::CloseBrace)?;
                Ok(SynIntSet::Way1(part1, part2, part3, part4))
            }
            1 => {
                let part1 = self.take(at, depth, TokenKind::OpenSquare)?;
                let part2 = self.x(at, depth)?;
                let part3 = self.take(at, depth, TokenKind::Colon)?;
                let part4 = self.x(at, depth)?;
                let part5 = self.take(at, depth, TokenKind::Colon)?;
                let part6 = self.x(at, depth)?;
                let part7 = self.take(at, depth, TokenKind::CloseSquare)?;
                Ok(SynIntSet::Way2(part1, part2, part3, part4, part5, part6, part7))
            }
            _ => {
                let part1 = self.x(at, depth)?;
                Ok(SynIntSet::Way3(part1))
            }
        }
    }

    /// Reads `TextSet = "{" text MoreText "}" | text`.
    pub fn text_set(&self, at: &mut usize, depth: u32) -> Result<SynTextSet, SyntaxFault>
        requires inside { at.old ≤ length self.now.tokens.now }
        ensures { ReadsSymbol (λ x. text_set_steps x depth) self.now.tokens.now at.old (wants depth symbols.TextSet) at.new result }
    {
        let way = self.choose(*at, Symbol::TextSet)?;
        match way {
            0 => {
                let part1 = self.take(at, depth, TokenKind::OpenBrace)?;
                let part2 = self.take(at, depth, TokenKind::Text)?;
                let part3 = self.more_text(at, depth)?;
                let part4 = self.take(at, depth, TokenKind::CloseBrace)?;
                Ok(SynTextSet::Way1(part1, part2, part3, part4))
            }
            _ => {
                let part1 = self.take(at, depth, TokenKind::Text)?;
                Ok(SynTextSet::Way2(part1))
            }
        }
    }

    /// Reads an item of `MoreText = "," text MoreText | none`.
    pub fn more_text_item(
        &self,
        at: &mut usize,
        depth: u32,
    ) -> Result<Option<SynMoreTextItem>, SyntaxFault>
        requires inside { at.old ≤ length self.now.tokens.now }
        ensures { ReadsItem (λ x. more_text_item_steps x depth) self.now.tokens.now at.old depth symbols.MoreText (opens symbols.MoreText 1 ∷ []) at.new result }
    {
        let way = self.choose(*at, Symbol::MoreText)?;
        match way {
            0 => {
                let part1 = self.take(at, depth, TokenKind::Comma)?;
                let part2 = self.take(at, depth, TokenKind::Text)?;
                Ok(Some(SynMoreTextItem { part1, part2 }))
            }
            _ => Ok(None),
        }
    }

    /// Reads `MoreText = "," text MoreText | none`.
    pub fn more_text(&self, at: &mut usize, depth: u32) -> Result<Vec<SynMoreTextItem>, SyntaxFault>
        requires inside { at.old ≤ length self.now.tokens.now }
        ensures { ReadsSymbol (λ x. more_text_steps x.items depth) self.now.tokens.now at.old (wants depth symbols.MoreText) at.new result }
    {
        let mut items = Vec::new(self.alloc);
        while let Some(item) = self.more_text_item(at, depth)? {
            items.push(item)?;
        }
        Ok(items)
    }
}
