//! What an evaluation begins with, and what it ends with.
use bg_base::Signature;

/// What was met so far: the controls, and how many terms. The expressions of one statement, and those of one use in the
/// block, count their terms together.
#[derive(Drop)]
pub struct Met {
    pub signature: Signature,
    pub terms: u32,
}

impl Met {
    ghost use Rattle.std.specs.Prelude.{◌≡◌};
    ghost use Rattle.bg_machine.specs.Calls.{begun};

    /// Where a statement begins: these controls, and no term. Takes no memory.
    pub fn begun(signature: Signature) -> Met
        ensures { result ≡ begun signature }
    {
        Met {
            signature,
            terms: 0,
        }
    }
}
