//! What is true of the shared word and of all passes between any two steps, and what a step tells its caller.

use atomic_table::{Join, Play, Split, TableRule};
use std::marker::{Brand, PhantomData};

/// What a pass knows: the words of the least cost that it has seen and of the least that it has published, the
/// word at its last step, and its parts. No value of it is made.
pub struct View {
    pub seen: u64,
    pub mine: u64,
    pub found: u64,
    pub parts: u32,
}

/// The word is the least cost that was published.
pub struct Lowest;

impl TableRule<(), View, u32> for Lowest {
    ghost use Rattle.incumbent.specs.Rule.{holds as is_kept, fresh};

    ghost holds = { is_kept };

    ghost first = { fresh };
}

/// A load of the word.
pub(crate) struct Looked;

impl Play<(), View> for Looked {
    ghost use Rattle.incumbent.specs.Rule.{looked};

    ghost then = { looked };
}

/// The word becomes the least of itself and a cost's.
pub(crate) struct Published;

impl Play<(), View> for Published {
    ghost use Rattle.incumbent.specs.Rule.{published};

    ghost then = { published };
}

/// How many parts a new pass takes. Each call picks the number.
pub(crate) trait Taken {
    ghost use Rattle.std.specs.Prelude.{ℕ};

    ghost taken: { ℕ };
}

impl Taken for Brand {
    ghost taken = { 1 };
}

/// Some parts of a pass go to a new one.
pub(crate) struct Cut<N> {
    number: PhantomData<N>,
}

impl<N: Taken> Split<View> for Cut<N> {
    ghost use Rattle.incumbent.specs.Rule.{rest_of, part_of};

    ghost left = { rest_of N.taken };

    ghost right = { part_of N.taken };
}

/// Two passes become one.
pub(crate) struct Joined;

impl Join<View> for Joined {
    ghost use Rattle.incumbent.specs.Rule.{fresh, joined};

    ghost both = { joined };

    ghost spent = { fresh 0 };
}
