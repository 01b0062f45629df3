//! The values of the columns of a table by its basis, and the least denominator over which they are whole.

ghost use Rattle.std.specs.Prelude.{◌≡◌, ◌<◌, length, pos, ◌≤ℤ◌, ◌<ℤ◌, slice_set, IfErr, IfOk, OnOk};
ghost use Rattle.fractions.specs.Fractions.{lowest};
ghost use Rattle.pivot_run.specs.Prelude.{IsNarrow, IsWide, basic};
ghost use Rattle.dispatch_schedule.specs.ColumnValues.{row_value as value_of_row};
ghost use Rattle.dispatch_schedule.specs.inside.Values.{ArePositive, AreValuesTo, HasValues, JoiningForms, joined_to};

use fractions::{Fraction, least_multiple};
use pivot_run::{Tableau, Wide};
use std::alloc::Global;
use uc_model::NoMemory;

/// The values of the first columns, so many.
pub(crate) fn column_values(
    alloc: Global,
    table: &Tableau,
    count: usize,
) -> Result<Vec<Fraction>, NoMemory>
    requires { HasValues table.now }
    ensures { IfOk result (λ values. AreValuesTo table.now table.now.constraints count values.items) }
{
    let none = Fraction {
        numerator: 0,
        denominator: 1,
    };
    let mut values = vec![in alloc; none; count]?;
    for k in 0..table.constraints() {
        set_value(&mut values, table, k);
    }
    Ok(values)
}

// Puts the value of a row's basic column in its place.
fn set_value(values: &mut Vec<Fraction>, table: &Tableau, k: usize)
    requires values { HasValues table.now }
    requires row { k < table.now.constraints }
    ensures { values.new.items ≡ slice_set values.old.items (basic table.now k) (value_of_row table.now k) }
{
    let column = table.basic(k);
    if column < values.len() {
        values[column] = row_value(table, k);
    }
}

fn row_value(table: &Tableau, k: usize) -> Fraction
    requires values { HasValues table.now }
    requires row { k < table.now.constraints }
    ensures { result ≡ value_of_row table.now k }
{
    quotient(table.right_side(k), table.number(k, table.basic(k)))
}

// The quotient of a number of 0 or above and one above 0.
fn quotient(side: &i128, number: &i128) -> Fraction
    requires side { pos 0 ≤ℤ side.now }
    requires number { pos 0 <ℤ number.now }
    ensures { result ≡ lowest side.now number.now }
{
    let _side = *side;
    Fraction::lowest(side, number)
}

/// The least common multiple of the denominators, or the two factors of a product on the way to it that is too large.
pub(crate) fn least_denominator(values: &[Fraction]) -> Result<i128, Wide>
    requires { ArePositive values.now }
    ensures value { IfOk result (λ z. z ≡ joined_to values.now (length values.now)) }
    ensures positive { IfOk result (λ z. pos 0 <ℤ z) }
    ensures narrow { OnOk result (IsNarrow (JoiningForms values.now (length values.now))) }
    ensures wide { IfErr result (λ wide. JoiningForms values.now (length values.now) wide.size wide.other × IsWide wide.size wide.other) }
{
    let mut least = 1;
    for value in values {
        least = least_multiple(&least, &value.denominator)?;
    }
    Ok(least)
}
