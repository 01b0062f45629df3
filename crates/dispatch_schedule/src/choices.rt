//! Choosing amounts in whole numerators over a denominator, and the powers that they add up to.

ghost use Rattle.std.specs.Prelude.{◌≡◌, ℕ, ◌<◌, length, pos, ◌+ℤ◌, ◌*ℤ◌, ◌≤ℤ◌, ◌<ℤ◌, IfOk};
ghost use Rattle.dispatch_schedule.specs.inside.Chosen.{AreChosen, IsChoice, chosen_at, numerator_over, power_in, total_of};
ghost use Rattle.dispatch_schedule.specs.inside.Values.{fraction_at};

use crate::chosen::Chosen;
use crate::power::Power;
use dispatch_rules::Amount;
use fractions::Fraction;
use pivot_run::quotient;
use std::alloc::Global;
use uc_model::NoMemory;

/// The amounts with their values over the denominator.
pub(crate) fn choose(
    alloc: Global,
    amounts: &[Amount],
    values: &[Fraction],
    denominator: &i128,
) -> Result<Vec<Chosen>, NoMemory>
    requires length { length values.now ≡ length amounts.now }
    requires denominator { (pos 0 <ℤ denominator.now) × (denominator.now ≤ℤ pos 99) }
    requires choices { (c : ℕ) → c < length values.now → IsChoice denominator.now (fraction_at values.now c) }
    ensures { IfOk result (λ chosen. AreChosen amounts.now values.now denominator.now (length amounts.now) chosen.items) }
{
    let mut chosen = Vec::new(alloc);
    for c in 0..amounts.len() {
        let numerator = numerator(&values[c], denominator);
        chosen.push(Chosen {
            amount: amounts[c],
            numerator,
        })?;
    }
    Ok(chosen)
}

// The numerator of a fraction over the denominator.
fn numerator(value: &Fraction, denominator: &i128) -> i64
    requires denominator { (pos 0 <ℤ denominator.now) × (denominator.now ≤ℤ pos 99) }
    requires choice { IsChoice denominator.now value.now }
    ensures { result ≡ numerator_over denominator.now value.now }
{
    let times = quotient(denominator, value.denominator.unsigned_abs());
    product(&value.numerator, &times)
}

// The product of a number with one above 0, which is a power.
fn product(number: &i128, times: &i128) -> i64
    requires low { pos 0 ≤ℤ number.now }
    requires times { pos 0 <ℤ times.now }
    requires high { (number.now *ℤ times.now) ≤ℤ pos 1000000000000000 }
    ensures { result ≡ number.now *ℤ times.now }
{
    (*number * *times) as i64
}

/// The numerator of a power, the sum of its amounts'.
pub(crate) fn total(chosen: &[Chosen], power: Power) -> i64
    requires low { (c : ℕ) → c < length chosen.now → pos 0 ≤ℤ (chosen_at chosen.now c).numerator }
    requires high { total_of chosen.now power <ℤ pos 1000000000000000 }
    ensures value { result ≡ total_of chosen.now power }
    ensures sign { pos 0 ≤ℤ result }
{
    let mut sum = 0;
    for item in chosen {
        sum = more(&sum, &part(item, &power));
    }
    sum
}

// What an amount adds to a power.
fn part(item: &Chosen, power: &Power) -> i64
    ensures { result ≡ power_in power.now item.now.amount *ℤ item.now.numerator }
{
    if power.has(&item.amount) {
        item.numerator
    } else {
        0
    }
}

// The sum of two numbers that stays a power.
fn more(sum: &i64, part: &i64) -> i64
    requires low { pos 0 ≤ℤ sum.now }
    requires part { pos 0 ≤ℤ part.now }
    requires high { (sum.now +ℤ part.now) <ℤ pos 1000000000000000 }
    ensures { result ≡ sum.now +ℤ part.now }
{
    *sum + *part
}
