//! Units that are drawn: the least values by the walk and along paths, and the patterns with the most and the fewest on periods,
//! beside all patterns.

ghost use Rattle.std.specs.Prelude.{◌≡◌, ◌≤◌, All, IfOk, length};
ghost use Rattle.uc_model.specs.Prelude.{IsLawfulThermal, period_count};
ghost use Rattle.dual_model.specs.Prelude.{IsLawfulRow, AreSizedTerms};

use crate::drawn::{fix, prices, unit};
use crate::draws::Draws;
use crate::enumeration::{agrees, cost_of, enumerated};
use cost_curves::Curve;
use dispatch_repair::{fewest_of, most_of};
use dual_model::Fix;
use period_term::terms;
use state_walk::Walk;
use std::alloc::Global;
use std::process::Abort;
use std::test::Fail;
use uc_model::{NoMemory, Pattern, Terms, Thermal};
use unit_path::Scratch;

/// How many units are drawn.
const UNITS: u32 = 200;

// The unit's terms at the scale 1.
fn unit_terms(
    alloc: Global,
    unit: &Thermal,
    prices: &[(i128, i128, i128)],
) -> Result<Terms, NoMemory>
    requires lawful { IsLawfulThermal unit.now }
    requires count { (1 ≤ length prices.now) × (length prices.now ≤ 8) }
    requires prices { All IsLawfulRow prices.now }
    ensures sized { IfOk result (AreSizedTerms unit.now) }
    ensures count { IfOk result (λ terms. period_count terms ≡ length prices.now) }
{
    let curve = Curve::of(alloc, unit.points.as_slice())?;
    terms(alloc, unit, &curve, 1, prices)
}

// The least value by the walk.
fn walked(alloc: Global, terms: &Terms, unit: &Thermal, fix: &Fix) -> Result<Option<i128>, NoMemory>
    requires lawful { IsLawfulThermal unit.now }
    requires sized { AreSizedTerms unit.now terms.now }
{
    let mut walk = Walk::new(alloc, terms.terms.as_slice().len())?;
    Ok(state_walk::least(&mut walk, terms, unit, fix))
}

// The least value along a path, with its pattern.
fn found(
    alloc: Global,
    terms: &Terms,
    unit: &Thermal,
    fix: &Fix,
) -> Result<Option<(i128, Pattern)>, NoMemory>
    requires lawful { IsLawfulThermal unit.now }
    requires sized { AreSizedTerms unit.now terms.now }
{
    let mut scratch = Scratch::new(alloc, terms.terms.as_slice().len())?;
    Ok(unit_path::least(&mut scratch, terms, unit, fix))
}

// Whether a pattern is that of a number.
fn is_number(pattern: Option<Pattern>, number: u128) -> bool {
    match pattern {
        Some(pattern) => pattern.low == number && pattern.high == 0,
        None => false,
    }
}

// The patterns with the most and the fewest on periods are those of all patterns.
fn assert_extremes<R: Abort>(rt: &R, unit: &Thermal, prices: &[(i128, i128, i128)])
    requires lawful { IsLawfulThermal unit.now }
    requires count { (1 ≤ length prices.now) × (length prices.now ≤ 8) }
{
    let periods = prices.len() as u32;
    let undecided = Fix {
        known: Pattern::all_off(),
        on: Pattern::all_off(),
    };
    match enumerated(unit, prices, &undecided) {
        Some((_, most, fewest)) => {
            assert!(rt; is_number(most_of(unit, periods), most));
            assert!(rt; is_number(fewest_of(unit, periods), fewest));
        }
        None => {
            assert!(rt; most_of(unit, periods).is_none());
            assert!(rt; fewest_of(unit, periods).is_none());
        }
    }
}

// Whether the least value by the walk is that of all patterns that are as decided, and the path has one of these that costs just that;
// or neither is there.
fn is_enumerated(
    unit: &Thermal,
    prices: &[(i128, i128, i128)],
    fix: &Fix,
    walked: Option<i128>,
    path: Option<(i128, Pattern)>,
) -> bool
    requires { length prices.now ≤ 8 }
{
    match (enumerated(unit, prices, fix), path) {
        (Some((least, _, _)), Some((value, pattern))) => {
            walked == Some(least)
                && value == least
                && cost_of(unit, prices, pattern.low) == Some(least)
                && pattern.high == 0
                && agrees(fix, pattern.low, prices.len())
        }
        (least, path) => least.is_none() && path.is_none() && walked.is_none(),
    }
}

// The walk and the path of a unit are as enumerated; whether there is a least value.
fn assert_least<R: Abort>(
    rt: &R,
    alloc: Global,
    unit: &Thermal,
    prices: &[(i128, i128, i128)],
    fix: &Fix,
) -> Result<bool, Fail>
    requires lawful { IsLawfulThermal unit.now }
    requires count { (1 ≤ length prices.now) × (length prices.now ≤ 8) }
    requires prices { All IsLawfulRow prices.now }
{
    let terms = unit_terms(alloc, unit, prices)?;
    let walked = walked(alloc, &terms, unit, fix)?;
    let path = found(alloc, &terms, unit, fix)?;
    assert!(rt; is_enumerated(unit, prices, fix, walked, path));
    Ok(walked.is_some())
}

// A unit that is drawn is as enumerated; whether it has a pattern.
fn assert_drawn<R: Abort>(rt: &R, alloc: Global, draws: &mut Draws) -> Result<bool, Fail> {
    let unit = unit(alloc, draws)?;
    let prices = prices(alloc, draws)?;
    let fix = fix(draws);
    assert_extremes(rt, &unit, &prices);
    assert_least(rt, alloc, &unit, &prices, &fix)
}

// At least a tenth of the units has a pattern, and a tenth has none.
#[test]
fn drawn_units_are_as_enumerated(rt: HostRuntime) -> Result<(), Fail> {
    let mut draws = Draws::of(20_260_301);
    let mut with_pattern = 0_u32;
    for _ in 0..UNITS {
        if assert_drawn(&rt, rt.alloc(), &mut draws)? {
            with_pattern = with_pattern.saturating_add(1);
        }
    }
    assert!(rt; with_pattern > UNITS / 10 && with_pattern < UNITS - UNITS / 10);
    Ok(())
}
