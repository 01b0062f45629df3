//! Of which run a book is.

use std::marker::Brand;

/// A run: its instance, budget and gap, and the opening's table with its value. It has no call and no data; a type that is generic in it
/// says of which run its values are. Each program picks it once, where it passes `Brand`.
pub trait Case {
    ghost use Rattle.book.specs.Opening.{Opening};

    ghost opening: { Opening };
}

impl Case for Brand {
    ghost use Rattle.book.specs.Opening.{no_opening};

    ghost opening = { no_opening };
}
