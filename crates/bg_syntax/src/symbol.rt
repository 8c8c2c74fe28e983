//! The symbols of the grammar. Written by tools/grammar.py.

/// A symbol of the grammar.
#[derive(Clone, Copy, Debug, PartialEq, Eq)]
pub enum Symbol {
    /// `Model = Stmts Block`
    Model,
    /// `Stmts = Stmt Stmts | none`
    Stmts,
    /// `Stmt = atomic Fun ctrl Control | fun AfterFun | ctrl Control | big Bigraph | react React | Param`
    Stmt,
    /// `Fun = fun | none`
    Fun,
    /// `AfterFun = atomic ctrl Control | ctrl Control | big Bigraph | react React`
    AfterFun,
    /// `Control = upper Formals "=" Number ";"`
    Control,
    /// `Bigraph = lower Formals "=" E ";"`
    Bigraph,
    /// `React = lower Formals "=" E "-->" E Tail ";"`
    React,
    /// `Tail = Eta IfTail | Cond EtaTail | none`
    Tail,
    /// `IfTail = Cond | none`
    IfTail,
    /// `EtaTail = Eta | none`
    EtaTail,
    /// `Eta = "@" "[" Numbers "]"`
    Eta,
    /// `Numbers = Number MoreNum | none`
    Numbers,
    /// `MoreNum = "," Number MoreNum | none`
    MoreNum,
    /// `Number = zero | one | num`
    Number,
    /// `Cond = if Test Tests`
    Cond,
    /// `Tests = "," Test Tests | none`
    Tests,
    /// `Test = Not E in Side`
    Test,
    /// `Not = "!" | none`
    Not,
    /// `Side = ctx | param`
    Side,
    /// `Formals = "(" lower MoreLow ")" | none`
    Formals,
    /// `MoreLow = "," lower MoreLow | none`
    MoreLow,
    /// `Param = int lower "=" IntSet ";" | string lower "=" TextSet ";"`
    Param,
    /// `IntSet = "{" X MoreX "}" | "[" X ":" X ":" X "]" | X`
    IntSet,
    /// `TextSet = "{" text MoreText "}" | text`
    TextSet,
    /// `MoreText = "," text MoreText | none`
    MoreText,
    /// `Block = begin brs Params init Ref ";" rules "=" "[" Classes "]" ";" Preds end | none`
    Block,
    /// `Params = Param Params | none`
    Params,
    /// `Classes = Class MoreCl | none`
    Classes,
    /// `MoreCl = "," Class MoreCl | none`
    MoreCl,
    /// `Class = "{" Refs "}" | "(" Refs ")"`
    Class,
    /// `Preds = preds "=" "{" Refs "}" ";" | none`
    Preds,
    /// `Refs = Ref MoreRef | none`
    Refs,
    /// `MoreRef = "," Ref MoreRef | none`
    MoreRef,
    /// `Ref = lower Args`
    Ref,
    /// `Args = "(" X MoreX ")" | none`
    Args,
    /// `MoreX = "," X MoreX | none`
    MoreX,
    /// `E = P E1`
    E,
    /// `E1 = "+" P E1 | none`
    E1,
    /// `P = M P1`
    P,
    /// `P1 = "||" M P1 | none`
    P1,
    /// `M = C M1`
    M,
    /// `M1 = "|" C M1 | none`
    M1,
    /// `C = K C1`
    C,
    /// `C1 = "*" K C1 | none`
    C1,
    /// `K = "/" lower K | N`
    K,
    /// `N = A N1`
    N,
    /// `N1 = "." K | none`
    N1,
    /// `A = upper Args Names | Ref | "{" NameList "}" | id IdTail | merge "(" Number ")" | zero | one | "(" E ")"`
    A,
    /// `Names = "{" NameList "}" | none`
    Names,
    /// `NameList = lower MoreLow | none`
    NameList,
    /// `IdTail = "(" Number IdNames ")" | "{" NameList "}" | none`
    IdTail,
    /// `IdNames = "," "{" NameList "}" | none`
    IdNames,
    /// `X = T X1`
    X,
    /// `X1 = "+" T X1 | "-" T X1 | none`
    X1,
    /// `T = U T1`
    T,
    /// `T1 = "*" U T1 | "/" U T1 | none`
    T1,
    /// `U = Number | text | lower | "-" U | "(" X ")"`
    U,
}
