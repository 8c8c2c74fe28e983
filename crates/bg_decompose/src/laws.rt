//! Laws of decompositions. A call does nothing.
ghost use Rattle.std.specs.Prelude.{◌≡◌, ℕ, List};
ghost use Rattle.bg_base.specs.declared.big.Big.{Big};
ghost use Rattle.bg_rules.specs.Decomposition.{Decomposes};
ghost use Rattle.bg_decompose.specs.Joining.{IsJoinable, recomposed_from};

/// A decomposition joins, and gives the host.
pub fn decompositions_join()
    ensures defined { (host pattern : Big) (nodes : List ℕ) (context : Big) (edges : List ℕ) (parameter : Big)
        → Decomposes host pattern nodes context edges parameter → IsJoinable pattern nodes context edges parameter }
    ensures whole { (host pattern : Big) (nodes : List ℕ) (context : Big) (edges : List ℕ) (parameter : Big)
        → Decomposes host pattern nodes context edges parameter → recomposed_from pattern nodes context edges parameter ≡ host }
{}
