//! The first unit of a system: its curve, terms of its cells, and what starts cost.

ghost use Rattle.std.specs.Prelude.{IfSome};
ghost use Rattle.uc_model.specs.Prelude.{IsLawfulInstance, IsLawfulThermal};

use crate::Answer;
use crate::commitment::pattern;
use crate::text::{first, large_line, put_line, told, whole};
use cost_curves::{Curve, Slope};
use period_term::term;
use start_costs::{least_allowed, sigma};
use std::alloc::{AllocError, Global};
use uc_model::limits::MAX_PERIODS;
use uc_model::{Instance, Thermal};

/// What is answered to a question on the first unit.
pub(crate) fn tell_unit(alloc: Global, instance: &Instance, word: &str, rest: &str) -> Answer
    requires { IsLawfulInstance instance.now }
{
    let Some(unit) = first_unit(instance) else {
        return told(alloc, "no unit\n");
    };
    match word {
        "curve" => tell_curve(alloc, unit, rest),
        "term" => tell_term(alloc, unit, rest),
        "start" => tell_start(alloc, unit, rest),
        "sigma" => tell_sigma(alloc, unit, rest),
        _ => told(alloc, "no such question\n"),
    }
}

/// The first thermal unit, if there is one.
pub(crate) fn first_unit(instance: &Instance) -> Option<&Thermal>
    requires { IsLawfulInstance instance.now }
    ensures { IfSome result (λ unit. IsLawfulThermal unit.now) }
{
    instance.thermal.as_slice().first()
}

// The number of a word among words, from 0; 0 where there is none.
fn number(words: &str, n: usize) -> i32 {
    match words.split(' ').nth(n) {
        Some(word) => word.parse::<i32>().unwrap_or(0),
        None => 0,
    }
}

// The width of the curve, and a line for each output.
fn tell_curve(alloc: Global, unit: &Thermal, words: &str) -> Answer
    requires { IsLawfulThermal unit.now }
{
    let curve = Curve::of(alloc, unit.points.as_slice())?;
    let mut text = String::new(alloc);
    let put = put_curve(&mut text, &curve, words);
    drop(curve);
    whole(put, text)
}

fn put_curve(text: &mut String, curve: &Curve, words: &str) -> Result<(), AllocError> {
    put_line(text, "width", &[curve.width()])?;
    for word in words.split(' ') {
        put_output(text, curve, word.parse::<i64>().unwrap_or(-1))?;
    }
    Ok(())
}

// The least cost at an output, the ends of its segment, and the slopes on its left and right where both are.
fn put_output(text: &mut String, curve: &Curve, p: i64) -> Result<(), AllocError> {
    let width = curve.width();
    if p < 0 || p > width {
        return text.push_str("no such output\n");
    }
    let (left, right) = curve.segment(p);
    write!(
        text,
        "cost {} from {}:{}",
        curve.ceil_at(p, 1),
        left.mw,
        left.cost
    )?;
    write!(text, " to {}:{}", right.mw, right.cost)?;
    if 0 < p && p < width {
        put_slope(text, " slopes", curve.left_slope(p))?;
        put_slope(text, "", curve.right_slope(p))?;
    }
    text.push_str("\n")
}

// A slope behind a word.
fn put_slope(text: &mut String, word: &str, slope: Slope) -> Result<(), AllocError> {
    write!(text, "{word} {}/{}", slope.rise, slope.run)
}

// The term of a cell, of the scale, the prices of output and of reserve and the cap.
fn tell_term(alloc: Global, unit: &Thermal, words: &str) -> Answer
    requires { IsLawfulThermal unit.now }
{
    let curve = Curve::of(alloc, unit.points.as_slice())?;
    let scale = number(words, 0).unsigned_abs().min(1_000_000);
    let output = i128::from(number(words, 1));
    let reserve = i128::from(number(words, 2));
    match term(
        &curve,
        i64::from(scale),
        output,
        reserve,
        i64::from(number(words, 3)),
    ) {
        Some(term) => large_line(alloc, "term", &[term]),
        None => told(alloc, "no term\n"),
    }
}

/// A period, from 0, that a word tells from 1.
pub(crate) fn period(word: &str) -> Option<usize> {
    word.parse::<usize>().ok()?.checked_sub(1)
}

// The cheapest category of a start in a period of a pattern, and what it costs.
fn tell_start(alloc: Global, unit: &Thermal, words: &str) -> Answer
    requires { IsLawfulThermal unit.now }
{
    let (bits, rest) = first(words);
    match period(rest) {
        Some(t) if t < MAX_PERIODS as usize => {
            let (category, cost) = least_allowed(unit, &pattern(bits), t);
            Ok(format!(in alloc; "category {category} cost {cost}\n")?)
        }
        _ => told(alloc, "no such period\n"),
    }
}

// The least cost of a start in a period, by the period of the last stop, of which 0 is none.
fn tell_sigma(alloc: Global, unit: &Thermal, words: &str) -> Answer
    requires { IsLawfulThermal unit.now }
{
    let (stop, rest) = first(words);
    match period(rest) {
        Some(t) if t < MAX_PERIODS as usize => {
            let cost = sigma(unit, period(stop), t);
            large_line(alloc, "cost", &[i128::from(cost)])
        }
        _ => told(alloc, "no such period\n"),
    }
}
