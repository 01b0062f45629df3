//! The limits on the amounts of a dispatch, in order.
ghost use Rattle.std.specs.Prelude.{◌≡◌, ◌<◌, ◌++◌, ◌∷◌, [], IfOk, OnOk, map};
ghost use Rattle.uc_model.specs.Prelude.{rule_units, thermal_count};
ghost use Rattle.dispatch_rules.specs.Prelude.{limit_of, rule_of, copies as copies_of, limit, limits as limits_in, limits_of, listed, rule_from as rule_numbered};
ghost use Rattle.dispatch_table.specs.Tasks.{IsGiven, task_of, unit_limits};

use crate::given::Given;
use dispatch_rules::{LimitAt, LimitRule};
use std::alloc::Global;
use uc_model::{Instance, NoMemory};

/// The limits of all rules.
pub(crate) fn limits(alloc: Global, given: &Given) -> Result<Vec<LimitAt>, NoMemory>
    requires { IsGiven given.now }
    ensures { IfOk result (λ all. map limit_of all.items ≡ limits_in (task_of given.now)) }
{
    let mut all = Vec::new(alloc);
    for n in 0..10 {
        push_rule(&mut all, given, rule_from(n))?;
    }
    Ok(all)
}

// The rules M8 to M17.
fn rule_from(n: usize) -> LimitRule
    ensures { n < 10 → rule_of result ≡ rule_numbered n }
{
    match n {
        0 => LimitRule::Production,
        1 => LimitRule::StartCap,
        2 => LimitRule::StopCap,
        3 => LimitRule::RampUp,
        4 => LimitRule::RampDown,
        5 => LimitRule::RenewableRange,
        6 => LimitRule::Demand,
        7 => LimitRule::Reserve,
        8 => LimitRule::ShedRange,
        _ => LimitRule::ShortRange,
    }
}

// Adds the limits of a rule.
fn push_rule(all: &mut Vec<LimitAt>, given: &Given, rule: LimitRule) -> Result<(), NoMemory>
    requires { IsGiven given.now }
    ensures { OnOk result (map limit_of all.new.items ≡ map limit_of all.old.items ++ limits_of (task_of given.now) (rule_of rule)) }
{
    for g in 0..units(given.instance, rule) {
        push_unit(all, given, rule, g)?;
    }
    Ok(())
}

// Adds the limits of a rule at a unit.
fn push_unit(
    all: &mut Vec<LimitAt>,
    given: &Given,
    rule: LimitRule,
    g: usize,
) -> Result<(), NoMemory>
    requires given { IsGiven given.now }
    requires unit { g < rule_units (rule_of rule) given.now.instance.now }
    ensures { OnOk result (map limit_of all.new.items ≡ map limit_of all.old.items ++ unit_limits (task_of given.now) (rule_of rule) g) }
{
    for t in 0..given.instance.periods {
        let copies = copies(given, rule, g, t);
        push_copies(all, rule, g as u32, t, copies)?;
    }
    Ok(())
}

// Adds so many limits of a rule at a unit and a period.
fn push_copies(
    all: &mut Vec<LimitAt>,
    rule: LimitRule,
    unit: u32,
    period: u32,
    copies: u32,
) -> Result<(), NoMemory>
    ensures { OnOk result (map limit_of all.new.items ≡ map limit_of all.old.items ++ listed copies (λ k. limit (rule_of rule) unit period k ∷ [])) }
{
    for segment in 0..copies {
        all.push(LimitAt {
            rule,
            unit,
            period,
            segment,
        })?;
    }
    Ok(())
}

// How many units a rule has.
fn units(instance: &Instance, rule: LimitRule) -> usize
    ensures { result ≡ rule_units (rule_of rule) instance.now }
{
    match rule {
        LimitRule::RenewableRange => instance.renewable.as_slice().len(),
        LimitRule::Demand | LimitRule::Reserve | LimitRule::ShedRange | LimitRule::ShortRange => 1,
        _ => instance.thermal.as_slice().len(),
    }
}

// How many limits a rule has at a unit and a period.
fn copies(given: &Given, rule: LimitRule, g: usize, t: u32) -> u32
    requires given { IsGiven given.now }
    requires unit { g < rule_units (rule_of rule) given.now.instance.now }
    requires period { t < given.now.instance.now.periods }
    ensures { result ≡ copies_of (task_of given.now) (rule_of rule) g t }
{
    match rule {
        LimitRule::Production => segments(given, g, t),
        LimitRule::StopCap => u32::from(t + 1 < given.instance.periods),
        LimitRule::ShedRange => u32::from(given.instance.a > 0),
        LimitRule::ShortRange => u32::from(given.instance.b > 0),
        _ => 1,
    }
}

// How many segments a cell has: none where it is off.
fn segments(given: &Given, g: usize, t: u32) -> u32
    requires given { IsGiven given.now }
    requires unit { g < thermal_count given.now.instance.now }
    requires period { t < given.now.instance.now.periods }
    ensures { result ≡ copies_of (task_of given.now) (rule_of LimitRule.Production) g t }
{
    if given.is_on(g, t) {
        given.segments(g)
    } else {
        0
    }
}
