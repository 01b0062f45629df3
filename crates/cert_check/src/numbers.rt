//! The signs and sizes of the numbers of price tables.

ghost use Rattle.std.specs.Prelude.{◌≡◌, ◌↔◌, IfOk, IsTrue, All};
ghost use Rattle.dual_model.specs.Prelude.{IsPrice};
ghost use Rattle.cert_check.specs.inside.Numbers.{HasLawfulNumbers, IsFirstOffOf, IsLawfulRampRow, IsSignedPrice};

use dual_model::limits::{MAX_PRICE, MAX_SCALE};
use dual_model::{RampRow, Table};
use std::alloc::Global;
use table_list::TableList;
use uc_model::NoMemory;

/// The first table, from 0, with a number past its limit or of the wrong sign. It takes memory for one table at a time.
pub(crate) fn first_off(alloc: Global, tables: &TableList) -> Result<Option<usize>, NoMemory>
    ensures { IfOk result (IsFirstOffOf tables.now) }
{
    for i in 0..tables.len() {
        let table = tables.table(alloc, i)?;
        if !is_lawful(&table) {
            return Ok(Some(i));
        }
    }
    Ok(None)
}

// Whether the numbers are within the limits, and the multipliers of inequalities at least 0.
fn is_lawful(table: &Table) -> bool
    ensures { IsTrue result ↔ HasLawfulNumbers table.now }
{
    table.k() <= MAX_SCALE
        && are_prices(table.pi())
        && are_signed_prices(table.mu())
        && are_lawful_rows(table.ramps())
}

fn are_prices(prices: &[i64]) -> bool
    ensures { IsTrue result ↔ All IsPrice prices.now }
{
    prices.iter().all(|price| is_price(price))
}

fn are_signed_prices(prices: &[i64]) -> bool
    ensures { IsTrue result ↔ All IsSignedPrice prices.now }
{
    prices.iter().all(|price| is_signed_price(price))
}

fn are_lawful_rows(rows: &[RampRow]) -> bool
    ensures { IsTrue result ↔ All IsLawfulRampRow rows.now }
{
    rows.iter().all(|row| is_lawful_row(row))
}

fn is_lawful_row(row: &RampRow) -> bool
    ensures { IsTrue result ↔ IsLawfulRampRow row.now }
{
    is_signed_price(&row.up) && is_signed_price(&row.down)
}

fn is_signed_price(price: &i64) -> bool
    ensures { IsTrue result ↔ IsSignedPrice price.now }
{
    0 <= *price && is_price(price)
}

// Whether a number is within the limit of prices.
fn is_price(price: &i64) -> bool
    ensures { IsTrue result ↔ IsPrice price.now }
{
    price.unsigned_abs() <= MAX_PRICE
}
