//! The lines by which an input is refused.
ghost use Rattle.std.specs.Prelude.{◌≡◌, Some};
ghost use Rattle.bg_answers.specs.Refusal.{fault_name, model_fault_name, limit_word};

use bg_elab::Detail;
use bg_values::LimitWord;
use std::fmt;

/// Why an input is refused.
#[derive(Clone, Copy, Debug, PartialEq, Eq)]
pub enum Refusal {
    /// A listing is refused: by which code, and at which line of the input, counted from 1.
    Listing {
        code: u8,
        line: u32,
    },
    /// A text describes no system: by which code and detail, and at which line and column of the input, both counted
    /// from 1.
    Model {
        code: u8,
        detail: Detail,
        line: u32,
        column: u32,
    },
    /// The inner face of the first bigraph is not the outer face of the second.
    FacesDiffer,
    /// A node or an edge is in both bigraphs.
    SupportMeets,
    /// A name is in both bigraphs.
    NamesMeet,
    /// An inner name is in both bigraphs.
    InnerNamesMeet,
    /// The first bigraph has not as many sites as the second has regions.
    WidthsDiffer,
    /// There is no such outer name.
    NoSuchName,
    /// The upper bigraph of a nesting has an inner name.
    HasInnerNames,
}

impl fmt::Display for Refusal {
    ghost use Rattle.bg_answers.specs.Refusal.{refusal_text};

    ghost output = { λ refusal. Some (refusal_text refusal) };

    fn fmt<W: fmt::Write>(&self, f: &mut fmt::Formatter<W>) -> fmt::Result {
        match *self {
            Refusal::Listing { code, line } => {
                let name = fault_name(code);
                write!(f, "refused {code} {name} at {line}")
            }
            Refusal::Model {
                code,
                detail,
                line,
                column,
            } => {
                let name = model_fault_name(code);
                match detail {
                    Detail::Nothing => write!(f, "refused {code} {name} at {line}:{column}"),
                    Detail::Clause(clause) => {
                        write!(
                            f,
                            "refused {code} {name} clause {clause} at {line}:{column}"
                        )
                    }
                    Detail::Limit(limit) => {
                        let word = limit_word(limit);
                        write!(f, "refused {code} {name} {word} at {line}:{column}")
                    }
                }
            }
            Refusal::FacesDiffer => f.write_str("refused 11 FacesDiffer"),
            Refusal::SupportMeets => f.write_str("refused 12 SupportMeets"),
            Refusal::NamesMeet => f.write_str("refused 13 NamesMeet"),
            Refusal::InnerNamesMeet => f.write_str("refused 14 InnerNamesMeet"),
            Refusal::WidthsDiffer => f.write_str("refused 15 WidthsDiffer"),
            Refusal::NoSuchName => f.write_str("refused 16 NoSuchName"),
            Refusal::HasInnerNames => f.write_str("refused 17 HasInnerNames"),
        }
    }
}

/// The name of a code by which a listing is refused.
fn fault_name(code: u8) -> &'static str
    ensures { result.now ≡ fault_name code }
{
    match code {
        1 => "BadLine",
        2 => "TooMany",
        3 => "NotAscending",
        4 => "Unknown",
        5 => "WrongPorts",
        6 => "AtomicHasChild",
        7 => "Cycle",
        8 => "Extra",
        _ => "DuplicateLabel",
    }
}

/// The name of a code by which a text describes no system.
fn model_fault_name(code: u8) -> &'static str
    ensures { result.now ≡ model_fault_name code }
{
    match code {
        11 => "FacesDiffer",
        13 => "NamesMeet",
        14 => "InnerNamesMeet",
        15 => "WidthsDiffer",
        17 => "HasInnerNames",
        21 => "BadByte",
        22 => "OpenString",
        23 => "NumberTooLarge",
        24 => "DecimalNumber",
        31 => "Unexpected",
        32 => "TooDeep",
        41 => "UnknownName",
        42 => "DuplicateName",
        43 => "WrongPorts",
        44 => "AtomicHasChild",
        45 => "WrongArguments",
        46 => "NotGround",
        47 => "SidesDiffer",
        48 => "BadMap",
        49 => "NotSolid",
        50 => "NumberOverflow",
        51 => "ZeroDivisor",
        52 => "TooLarge",
        53 => "NoBlock",
        54 => "EmptyRange",
        _ => "WrongKind",
    }
}

/// The name of a limit.
fn limit_word(limit: LimitWord) -> &'static str
    ensures { result.now ≡ limit_word limit }
{
    match limit {
        LimitWord::Arity => "arity",
        LimitWord::Controls => "controls",
        LimitWord::Values => "values",
        LimitWord::Nodes => "nodes",
        LimitWord::Edges => "edges",
        LimitWord::Places => "places",
        LimitWord::Terms => "terms",
        LimitWord::Depth => "depth",
        LimitWord::Rules => "rules",
        LimitWord::Preds => "preds",
    }
}
