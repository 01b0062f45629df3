//! Going along two tables: which prices, and the rows of ramp multipliers by unit and then by period.

ghost use Rattle.std.specs.Prelude.{◌≡◌, [], option_to_list};
ghost use Rattle.table_list.specs.Changes.{new_row};
ghost use Rattle.table_list.specs.Passing.{IsPassing};

use crate::rows::{is_before, no_row};
use dual_model::RampRow;

/// Which prices of a table.
#[derive(Clone, Copy)]
pub enum Prices {
    Demand,
    Reserve,
}

// The row in place of an old one, where it is another.
fn new_row(old: &RampRow, new: &RampRow) -> Option<RampRow>
    ensures { option_to_list result ≡ new_row old.now new.now }
{
    if old.up == new.up && old.down == new.down {
        None
    } else {
        Some(*new)
    }
}

/// The first row that was left of two tables, by unit and then by period, is passed: the row to be told, where the tables differ
/// there, and the rows that are left now of the old table and of the new one.
#[derive(Clone, Copy)]
pub struct Passed<'a> {
    pub change: Option<RampRow>,
    pub olds: &'a [RampRow],
    pub news: &'a [RampRow],
}

// Passes the first new row, where no old row is left.
fn pass_new<'a>(olds: &'a [RampRow], news: &'a [RampRow]) -> Option<Passed<'a>>
    requires { olds.now ≡ [] }
    ensures { IsPassing olds.now news.now result }
{
    match news {
        [] => None,
        [new, later @ ..] => Some(Passed {
            change: Some(*new),
            olds,
            news: later,
        }),
    }
}

/// Passes the first row that is left of two tables, where there is one.
pub fn pass<'a>(olds: &'a [RampRow], news: &'a [RampRow]) -> Option<Passed<'a>>
    ensures { IsPassing olds.now news.now result }
{
    let [old, later_olds @ ..] = olds else {
        return pass_new(olds, news);
    };
    let [new, later_news @ ..] = news else {
        return Some(Passed {
            change: Some(no_row(old)),
            olds: later_olds,
            news,
        });
    };
    if is_before(new, old) {
        Some(Passed {
            change: Some(*new),
            olds,
            news: later_news,
        })
    } else if is_before(old, new) {
        Some(Passed {
            change: Some(no_row(old)),
            olds: later_olds,
            news,
        })
    } else {
        Some(Passed {
            change: new_row(old, new),
            olds: later_olds,
            news: later_news,
        })
    }
}
