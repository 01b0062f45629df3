//! Costs as words, whose order is that of the costs.

ghost use Rattle.std.specs.Prelude.{◌≡◌, Some};
ghost use Rattle.incumbent.specs.Costs.{IsScheduleCost};
ghost use Rattle.incumbent.specs.Words.{IsCostWord, cost_of as cost_of_word};

/// The word that stands for nothing, above that of each cost.
pub(crate) const NOTHING: u64 = u64::MAX;

// The word of the cost 0.
const HALF: i128 = 1 << 63;

/// The word of a cost.
pub(crate) fn word_of(cost: &i64) -> u64
    requires { IsScheduleCost cost.now }
    ensures cost { cost_of_word result ≡ Some cost.now }
    ensures word { IsCostWord result }
{
    (i128::from(*cost) + HALF) as u64
}

/// The cost that a word stands for, if it stands for one.
pub(crate) fn cost_of(word: u64) -> Option<i64>
    ensures { result ≡ cost_of_word word }
{
    if word == NOTHING {
        None
    } else {
        Some((i128::from(word) - HALF) as i64)
    }
}
