//! The changes that make one table of another.

ghost use Rattle.std.specs.Prelude.{◌≡◌, ◌++◌, OnOk, option_to_list, map};
ghost use Rattle.table_list.specs.Changes.{OfRamps, price_changes, row_changes, table_changes};
ghost use Rattle.table_list.specs.TableChanges.{changes_of, change_of};
ghost use Rattle.table_list.specs.Passing.{price_change};
ghost use Rattle.table_list.specs.inside.Steps.{told_price};

use crate::change::Change;
use crate::passing::{Prices, pass};
use dual_model::{RampRow, Table};
use uc_model::NoMemory;

// The change of a price.
fn new_price(prices: Prices, t: usize, price: i64) -> Change
    ensures { change_of result ≡ price_change prices t price }
{
    match prices {
        Prices::Demand => Change::Demand { t, price },
        Prices::Reserve => Change::Reserve { t, price },
    }
}

// The change of the price in period t goes behind the others, where it is another than before.
fn push_price(
    changes: &mut Vec<Change>,
    prices: Prices,
    t: usize,
    old: i64,
    new: i64,
) -> Result<(), NoMemory>
    ensures { OnOk result (changes_of changes.new.items ≡ changes_of changes.old.items ++ told_price (price_change prices) t old new) }
{
    if old != new {
        changes.push(new_price(prices, t, new))?;
    }
    Ok(())
}

// The changes of prices go behind the others.
fn push_prices(
    changes: &mut Vec<Change>,
    prices: Prices,
    olds: &[i64],
    news: &[i64],
) -> Result<(), NoMemory>
    ensures { OnOk result (changes_of changes.new.items ≡ changes_of changes.old.items ++ price_changes (price_change prices) 0 olds.now news.now) }
{
    for t in 0..olds.len().min(news.len()) {
        push_price(changes, prices, t, olds[t], news[t])?;
    }
    Ok(())
}

// The row to be told, where there is one, goes behind the others.
fn push_row(changes: &mut Vec<Change>, change: &Option<RampRow>) -> Result<(), NoMemory>
    ensures { OnOk result (changes_of changes.new.items ≡ changes_of changes.old.items ++ map OfRamps (option_to_list change.now)) }
{
    if let Some(row) = change {
        changes.push(Change::Ramps(*row))?;
    }
    Ok(())
}

// The changes of rows go behind the others.
fn push_rows(
    changes: &mut Vec<Change>,
    before: &[RampRow],
    after: &[RampRow],
) -> Result<(), NoMemory>
    ensures { OnOk result (changes_of changes.new.items ≡ changes_of changes.old.items ++ map OfRamps (row_changes before.now after.now)) }
{
    let mut olds = before;
    let mut news = after;
    while let Some(passed) = pass(olds, news) {
        push_row(changes, &passed.change)?;
        olds = passed.olds;
        news = passed.news;
    }
    Ok(())
}

/// The changes that make a table of the one before it go behind the others.
pub(crate) fn push_changes(
    changes: &mut Vec<Change>,
    before: &Table,
    after: &Table,
) -> Result<(), NoMemory>
    ensures { OnOk result (changes_of changes.new.items ≡ changes_of changes.old.items ++ table_changes before.now after.now) }
{
    push_prices(changes, Prices::Demand, before.pi(), after.pi())?;
    push_prices(changes, Prices::Reserve, before.mu(), after.mu())?;
    push_rows(changes, before.ramps(), after.ramps())
}
