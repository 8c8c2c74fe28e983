//! The limits of this project, each under one name. They are this project's own; `specs/Limits` has them for contracts.

/// The most controls of a signature.
pub const MOST_CONTROLS: u32 = 4096;

/// The most ports of a node: the largest arity of a control.
pub const MOST_PORTS: u32 = 16;

/// The most rows of each part of a listing, and the most regions.
pub const MOST_ROWS: u32 = 65_536;

/// The most nodes of a host.
pub const MOST_HOST_NODES: u32 = 65_536;

/// The most edges of a host.
pub const MOST_HOST_EDGES: u32 = 65_536;

/// The largest number that the next node or the next edge of a host may have.
pub const LARGEST_COUNTER: u32 = 2_147_483_648;

/// The most symbols `K` and `U` of the grammar that stand above a token.
pub const MOST_LEVELS: u32 = 256;

/// The most values of a parameter.
pub const MOST_VALUES: usize = 4096;

/// The most rules of a system, and its most predicates.
pub const MOST_RULES: usize = 4096;

/// The most terms of a statement, or of one use of a definition in the block: each symbol `A` of the grammar counts one, as often
/// as it is evaluated, those of the definitions to which references lead among them. Those of a rule's sides and conditions are
/// counted together.
pub const MOST_TERMS: u32 = 1_048_576;

/// The most symbols `K` of the grammar that are open at once while an expression is evaluated: one in the expression, and one
/// more behind each `/x`, behind each dot, inside each bracket, and inside each definition to which a reference leads.
pub const MOST_DEPTH: u32 = 1024;

/// The most nodes of what an expression comes to.
pub const MOST_EXPRESSION_NODES: u32 = 65_536;

/// Its most edges.
pub const MOST_EXPRESSION_EDGES: u32 = 65_536;

/// Its most regions, and its most sites.
pub const MOST_EXPRESSION_PLACES: u32 = 65_536;

/// The most steps of a run.
pub const MOST_STEPS: u32 = 100_000;
