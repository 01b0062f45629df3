//! Laws of the lower hull and its slopes, each the contract of a function with an empty body.

ghost use Rattle.std.specs.Prelude.{◌≡◌, ℕ, List, ℤ, pos, ◌*ℤ◌, ◌<ℤ◌};
ghost use Rattle.std.specs.Int.{◌∣◌};
ghost use Rattle.cost_curves.specs.LowerHull.{Point, IsLowerHull};
ghost use Rattle.cost_curves.specs.LowestTerms.{Slope, IsInLowestTerms};

/// The corners of the lower hull are told by the points: two lists of corners of the same points are equal.
pub fn lower_hulls_are_unique()
    ensures { (points a b : List Point) → IsLowerHull points a → IsLowerHull points b → a ≡ b }
{}

/// A slope has exactly one form in lowest terms, and a number that makes it whole is a multiple of its denominator.
pub fn slopes_have_one_form_in_lowest_terms()
    ensures exists { (slope : Slope) → pos 0 <ℤ slope.run
        → (numerator : ℤ) × (denominator : ℕ) × IsInLowestTerms slope numerator denominator }
    ensures unique { (slope : Slope) (a b : ℤ) (d e : ℕ) → pos 0 <ℤ slope.run
        → IsInLowestTerms slope a d → IsInLowestTerms slope b e → (a ≡ b) × (d ≡ e) }
    ensures whole { (slope : Slope) (numerator multiple : ℤ) (denominator k : ℕ) → pos 0 <ℤ slope.run
        → IsInLowestTerms slope numerator denominator → multiple *ℤ slope.run ≡ slope.rise *ℤ pos k → denominator ∣ k }
{}
