//! Laws on how numbers are scaled, and which are rounded.

ghost use Rattle.std.specs.Prelude.{◌≡◌, ◌≢◌, ◌*◌, ℕ, true, false};
ghost use Rattle.decimal_json.specs.Value.{Decimal, Value};
ghost use Rattle.decimal_json.specs.Grammar.{AreDigits};
ghost use Rattle.instance.specs.Scaled.{size_of, is_rounded, below, millionths, IsNearest};
ghost use Rattle.instance.specs.InstanceOf.{Instance, IsInstanceOf};
ghost use Rattle.instance.specs.FirstFault.{rounded_instance};

/// The size of a scaled number is the size of the value in millionths, rounded to the nearest whole one, and half away
/// from zero. It is rounded exactly where the value is no whole number of millionths.
#[tactic(auto, using(crate::proofs::Sizes::size_is_nearest, crate::proofs::Sizes::unrounded_is_whole, crate::proofs::Sizes::rounded_is_broken))]
pub fn scaled_numbers_are_the_nearest()
    ensures nearest { (d : Decimal) → AreDigits d.digits → IsNearest (size_of d) (millionths d) (below d.exponent) }
    ensures whole { (d : Decimal) → AreDigits d.digits → is_rounded d ≡ false → size_of d * below d.exponent ≡ millionths d }
    ensures broken { (d : Decimal) → AreDigits d.digits → is_rounded d ≡ true → (n : ℕ) → n * below d.exponent ≢ millionths d }
{}

/// The instance that a value stands for with exact numbers is the one that it stands for where no number that is read is
/// rounded.
#[tactic(auto, using(crate::proofs::ExactLaws::exact_is, crate::proofs::ExactLaws::exact_again))]
pub fn exact_instances_have_no_rounded_number()
    ensures none { (v : Value) (i : Instance) → IsInstanceOf true v i → IsInstanceOf false v i × (rounded_instance i.periods v ≡ 0) }
    ensures exact { (v : Value) (i : Instance) → IsInstanceOf false v i → rounded_instance i.periods v ≡ 0 → IsInstanceOf true v i }
{}
