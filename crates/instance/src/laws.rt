//! Laws on what a JSON value stands for.

ghost use Rattle.std.specs.Prelude.{◌≡◌, ℕ, ◌≤◌, Bool, List, ◌++◌, length, Ok};
ghost use Rattle.uc_model.specs.Prelude.{IsLawfulInstance};
ghost use Rattle.decimal_json.specs.Value.{Decimal, Value, decimal_from, held_decimal, written_decimal};
ghost use Rattle.decimal_json.specs.Reading.{IsText};
ghost use Rattle.instance.specs.FirstFault.{Instance, instance_at, rounded_instance};
ghost use Rattle.instance.specs.InstanceOf.{IsInstanceOf};
ghost use Rattle.instance.specs.Scaled.{size_of, wholes_of, held, held_wholes, SaySame, MOST_DIGITS, IsShort, with_numbers, AllNumbers};

/// A value has no fault exactly where it stands for an instance, and it stands for one at most.
#[tactic(auto, using(crate::proofs::UnitLaws::instance_is, crate::proofs::UnitLaws::instance_again, crate::proofs::UnitLaws::one_instance))]
pub fn a_value_has_an_instance_or_a_fault()
    ensures found { (exact : Bool) (v : Value) (i : Instance) → instance_at exact v ≡ Ok i → IsInstanceOf exact v i }
    ensures no_fault { (exact : Bool) (v : Value) (i : Instance) → IsInstanceOf exact v i → instance_at exact v ≡ Ok i }
    ensures one { (exact : Bool) (v : Value) (i j : Instance) → IsInstanceOf exact v i → IsInstanceOf exact v j → i ≡ j }
{}

/// An instance that a value stands for is within the limits.
#[tactic(auto, using(crate::proofs::LawfulInstance::instance_lawful))]
pub fn instances_of_values_are_lawful()
    ensures { (exact : Bool) (v : Value) (i : Instance) → IsInstanceOf exact v i → IsLawfulInstance i }
{}

/// A number as a value keeps it, with its exponent held, says the same as the number as it is written.
pub fn held_exponents_say_the_same()
    ensures { (negative : Bool) (ds fs : List ℕ) (down : Bool) (written : ℕ) → length (ds ++ fs) ≤ MOST_DIGITS →
        SaySame (decimal_from negative ds fs down written) (written_decimal negative ds fs down written) }
{}

/// Numbers that say the same have the same size and the same wholes, as the reader holds them.
#[tactic(auto, using(crate::proofs::Sizes::same_held_size, crate::proofs::Sizes::same_held_wholes))]
pub fn numbers_that_say_the_same_are_held_the_same()
    ensures size { (a b : Decimal) → SaySame a b → held (size_of a) ≡ held (size_of b) }
    ensures wholes { (a b : Decimal) → SaySame a b → held_wholes (wholes_of a) ≡ held_wholes (wholes_of b) }
{}

/// A value with the exponents of its numbers held has the instance of the value as it is written, or its
/// first fault, and as many rounded numbers.
#[tactic(auto, using(crate::proofs::HeldValues::held_instance, crate::proofs::HeldValues::held_rounded, crate::proofs::HeldValues::held_is, crate::proofs::HeldValues::held_again))]
pub fn held_exponents_change_no_instance()
    ensures first { (exact : Bool) (v : Value) → AllNumbers IsShort v →
        instance_at exact (with_numbers held_decimal v) ≡ instance_at exact v }
    ensures rounded { (periods : ℕ) (v : Value) → AllNumbers IsShort v →
        rounded_instance periods (with_numbers held_decimal v) ≡ rounded_instance periods v }
    ensures found { (exact : Bool) (v : Value) (i : Instance) → AllNumbers IsShort v →
        IsInstanceOf exact (with_numbers held_decimal v) i → IsInstanceOf exact v i }
    ensures kept { (exact : Bool) (v : Value) (i : Instance) → AllNumbers IsShort v →
        IsInstanceOf exact v i → IsInstanceOf exact (with_numbers held_decimal v) i }
{}

/// The numbers of a text of at most 2^26 bytes are short as it writes them, so that holding their exponents changes no
/// instance of it.
#[tactic(auto, using(crate::proofs::ShortTexts::short_text))]
pub fn numbers_of_a_short_text_are_short()
    ensures { (bytes : List ℕ) (v : Value) → length bytes ≤ MOST_DIGITS → IsText bytes (with_numbers held_decimal v) → AllNumbers IsShort v }
{}
