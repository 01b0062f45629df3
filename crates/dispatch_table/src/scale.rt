//! The scale by which costs are whole, and the costs times it.
ghost use Rattle.std.specs.Prelude.{◌≡◌, ℕ, ℤ, ◌^◌, ◌*◌, ◌<◌, IfOk, IfErr, OnOk, length, pos, suc, ◌<ℤ◌, ◌*ℤ◌, int_div, unsigned_abs};
ghost use Rattle.pivot_run.specs.Prelude.{IsNarrow, IsWide, entry};
ghost use Rattle.uc_model.specs.Prelude.{thermal_count};
ghost use Rattle.cost_curves.specs.UnitCurves.{curve_in};
ghost use Rattle.fractions.specs.Fractions.{JoinForms, joined, lowest as lowest_of};
ghost use Rattle.dispatch_rules.specs.Prelude.{rise_at, width_at, CostForms, ScaleForms, cost_fraction, scale_to, amount_at, amounts as amounts_in};
ghost use Rattle.dispatch_table.specs.Tasks.{AmountForms, IsAmountIn, IsGiven, scaled_cost, task_of};

use crate::given::Given;
use dispatch_rules::Amount;
use fractions::{Fraction, least_multiple};
use pivot_run::{Wide, product};

/// The least common multiple of the denominators of the amounts' costs, or the product that is too large.
pub(crate) fn scale(given: &Given, amounts: &[Amount]) -> Result<i128, Wide>
    requires given { IsGiven given.now }
    requires amounts { amounts.now ≡ amounts_in (task_of given.now) }
    ensures value { IfOk result (λ scale. scale ≡ scale_to (task_of given.now) (length amounts.now)) }
    ensures narrow { OnOk result (IsNarrow (ScaleForms (task_of given.now))) }
    ensures wide { IfErr result (λ wide. ScaleForms (task_of given.now) wide.size wide.other × IsWide wide.size wide.other) }
{
    let mut scale = 1;
    for c in 0..amounts.len() {
        scale = with_denominator(given, &amounts[c], &scale)?;
    }
    Ok(scale)
}

// The least common multiple of a scale and the denominator of an amount's cost.
fn with_denominator(given: &Given, amount: &Amount, scale: &i128) -> Result<i128, Wide>
    requires given { IsGiven given.now }
    requires amount { IsAmountIn (task_of given.now) amount.now }
    requires scale { pos 0 <ℤ scale.now }
    ensures value { IfOk result (λ z. z ≡ joined scale.now (cost_fraction (task_of given.now) amount.now).denominator) }
    ensures narrow { OnOk result (IsNarrow (JoinForms scale.now (cost_fraction (task_of given.now) amount.now).denominator)) }
    ensures wide { IfErr result (λ wide. JoinForms scale.now (cost_fraction (task_of given.now) amount.now).denominator wide.size wide.other
        × IsWide wide.size wide.other) }
{
    let fraction = fraction(given, amount);
    least_multiple(scale, &fraction.denominator)
}

/// Writes what each amount costs, times the scale, or answers the product that is too large.
pub(crate) fn fill_costs(
    costs: &mut [i128],
    given: &Given,
    amounts: &[Amount],
    scale: &i128,
) -> Result<(), Wide>
    requires given { IsGiven given.now }
    requires amounts { amounts.now ≡ amounts_in (task_of given.now) }
    requires scale { scale.now ≡ scale_to (task_of given.now) (length amounts.now) }
    requires length { length costs.old ≡ length amounts.now }
    ensures value { OnOk result ((c : ℕ) → c < length amounts.now → entry costs.new c ≡ scaled_cost (task_of given.now) scale.now (amount_at (task_of given.now) c)) }
    ensures small { OnOk result ((c : ℕ) → c < length amounts.now → unsigned_abs (entry costs.new c) < 2 ^ 126) }
    ensures narrow { OnOk result (IsNarrow (CostForms (task_of given.now))) }
    ensures wide { IfErr result (λ wide. CostForms (task_of given.now) wide.size wide.other × IsWide wide.size wide.other) }
    ensures count { length costs.new ≡ length amounts.now }
{
    for c in 0..amounts.len() {
        costs[c] = cost(given, &amounts[c], scale)?;
    }
    Ok(())
}

// What an amount costs, times the scale.
fn cost(given: &Given, amount: &Amount, scale: &i128) -> Result<i128, Wide>
    requires given { IsGiven given.now }
    requires amount { IsAmountIn (task_of given.now) amount.now }
    ensures value { IfOk result (λ z. z ≡ scaled_cost (task_of given.now) scale.now amount.now) }
    ensures small { IfOk result (λ z. unsigned_abs z < 2 ^ 126) }
    ensures narrow { OnOk result (IsNarrow (AmountForms (task_of given.now) scale.now amount.now)) }
    ensures wide { IfErr result (λ wide. AmountForms (task_of given.now) scale.now amount.now wide.size wide.other × IsWide wide.size wide.other) }
{
    let fraction = fraction(given, amount);
    small_product(&fraction.numerator, &over(scale, &fraction.denominator))
}

// The product of two numbers, which is below the limit in size.
fn small_product(number: &i128, other: &i128) -> Result<i128, Wide>
    ensures value { IfOk result (λ z. z ≡ number.now *ℤ other.now) }
    ensures small { IfOk result (λ z. unsigned_abs z < 2 ^ 126) }
    ensures narrow { OnOk result (unsigned_abs number.now * unsigned_abs other.now < 2 ^ 126) }
    ensures wide { IfErr result (λ wide. (wide.size ≡ number.now) × (wide.other ≡ other.now) × IsWide number.now other.now) }
{
    product(number, other)
}

// The quotient of two numbers, rounded toward 0.
fn over(number: &i128, divisor: &i128) -> i128
    requires { pos 0 <ℤ divisor.now }
    ensures { result ≡ int_div number.now divisor.now }
{
    *number / *divisor
}

// What a watt of an amount costs in an hour, in micro-dollars.
fn fraction(given: &Given, amount: &Amount) -> Fraction
    requires given { IsGiven given.now }
    requires amount { IsAmountIn (task_of given.now) amount.now }
    ensures { result ≡ cost_fraction (task_of given.now) amount.now }
{
    match amount {
        Amount::Length(g, _, k) => slope(given, *g as usize, *k as usize),
        Amount::Held(_, _) | Amount::Given(_, _) => whole(0),
        Amount::Shed(_) => whole(given.instance.a),
        Amount::Short(_) => whole(given.instance.b),
    }
}

// The slope of segment `k` of the curve of unit `g`.
fn slope(given: &Given, g: usize, k: usize) -> Fraction
    requires given { IsGiven given.now }
    requires unit { g < thermal_count given.now.instance.now }
    requires segment { suc k < length (curve_in given.now.curves.now g) }
    ensures { result ≡ lowest_of (rise_at (curve_in given.now.curves.now g) k) (width_at (curve_in given.now.curves.now g) k) }
{
    lowest(&given.rise(g, k), &given.width(g, k))
}

// A fraction of 64 bits in lowest terms.
fn lowest(numerator: &i64, denominator: &i64) -> Fraction
    requires { pos 0 <ℤ denominator.now }
    ensures { result ≡ lowest_of numerator.now denominator.now }
{
    Fraction::lowest(&i128::from(*numerator), &i128::from(*denominator))
}

// A whole number.
fn whole(number: u32) -> Fraction
    ensures { result ≡ record { numerator = pos number; denominator = pos 1 } }
{
    Fraction {
        numerator: i128::from(number),
        denominator: 1,
    }
}
