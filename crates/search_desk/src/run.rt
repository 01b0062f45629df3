//! Of which search the book, the passes and the workers are.

use book::Case;
use std::marker::Brand;

/// A search: the run of its book, the incumbent that its passes are of, whether its claims evaluate VE, and whether it lets out schedules of the
/// exact dispatch. It has no call and no data; a type that is generic in it says of which search its values are. Each search picks it once, where it passes `Brand`.
pub trait SearchCase: Case {
    ghost use Rattle.atomic_table.specs.Seated.{TableId};

    ghost incumbent: { TableId };

    ghost use Rattle.std.specs.Prelude.{Bool};

    ghost exact: { Bool };

    ghost exact_dispatch: { Bool };
}

impl SearchCase for Brand {
    ghost use Rattle.search_desk.specs.Passes.{no_incumbent};

    ghost incumbent = { no_incumbent };

    ghost use Rattle.std.specs.Prelude.{false};

    ghost exact = { false };

    ghost exact_dispatch = { false };
}
