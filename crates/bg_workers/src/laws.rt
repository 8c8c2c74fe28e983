//! The law of the words that workers pick by. A call does nothing.
ghost use Rattle.std.specs.Prelude.{◌≡◌, ◌+◌, ◌*◌, ◌^◌};
ghost use Rattle.bg_cond.specs.Picks.{seeded, word_of, next_state};

/// The first two words of seed 0 at worker 0 are those of the reference implementation, the low half first; and the sum
/// of seed and worker wraps at 64 bits.
pub fn words_are_the_reference()
    ensures words { word_of (seeded 0 0) + word_of (next_state (seeded 0 0)) * 2 ^ 32 ≡ 18195738587432868099 }
    ensures wraps { seeded 18446744073709551615 1 ≡ seeded 0 0 }
{}
