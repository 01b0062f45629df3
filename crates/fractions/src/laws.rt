//! What fractions in lowest terms and least common multiples are, as laws over the definitions.
ghost use Rattle.fractions.specs.Fractions.{FractionsAreLowest, JoinedAreLeast};

/// A fraction in lowest terms is the one that was given, and no number above 1 divides both of its numbers.
pub fn fractions_are_lowest()
    ensures { FractionsAreLowest }
{}

/// The least common multiple of two numbers above 0 divides each number that both divide.
pub fn joined_are_least()
    ensures { JoinedAreLeast }
{}
