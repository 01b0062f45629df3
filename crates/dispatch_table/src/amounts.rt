//! The amounts of a commitment's dispatch, in order.
ghost use Rattle.std.specs.Prelude.{◌≡◌, ◌<◌, ◌++◌, ◌∷◌, ◌^◌, [], IfOk, OnOk, nat_lt};
ghost use Rattle.uc_model.specs.Prelude.{renewable_count, thermal_count};
ghost use Rattle.dispatch_rules.specs.Prelude.{amounts as amounts_of, amounts_in, listed, unit_amounts, where_true};
ghost use Rattle.dispatch_table.specs.Tasks.{IsGiven, task_of};

use crate::given::Given;
use dispatch_rules::Amount;
use std::alloc::Global;
use uc_model::{Instance, NoMemory};

/// The amounts of all periods.
pub(crate) fn amounts(alloc: Global, given: &Given) -> Result<Vec<Amount>, NoMemory>
    requires { IsGiven given.now }
    ensures { IfOk result (λ all. all.items ≡ amounts_of (task_of given.now)) }
{
    let mut all = Vec::new(alloc);
    for t in 0..given.instance.periods {
        push_period(&mut all, given, t)?;
    }
    Ok(all)
}

// Adds the amounts of a period.
fn push_period(all: &mut Vec<Amount>, given: &Given, t: u32) -> Result<(), NoMemory>
    requires given { IsGiven given.now }
    requires period { t < given.now.instance.now.periods }
    ensures { OnOk result (all.new.items ≡ all.old.items ++ amounts_in (task_of given.now) t) }
{
    for g in 0..given.instance.thermal.as_slice().len() {
        push_unit(all, given, g, t)?;
    }
    push_system(all, given.instance, t)
}

// Adds the amounts of a thermal unit in a period: none where it is off.
fn push_unit(all: &mut Vec<Amount>, given: &Given, g: usize, t: u32) -> Result<(), NoMemory>
    requires given { IsGiven given.now }
    requires unit { g < thermal_count given.now.instance.now }
    requires period { t < given.now.instance.now.periods }
    ensures { OnOk result (all.new.items ≡ all.old.items ++ unit_amounts (task_of given.now) t g) }
{
    if given.is_on(g, t) {
        push_cell(all, g as u32, t, given.segments(g))
    } else {
        Ok(())
    }
}

// Adds the amounts of an on cell of so many segments.
fn push_cell(all: &mut Vec<Amount>, g: u32, t: u32, segments: u32) -> Result<(), NoMemory>
    ensures { OnOk result (all.new.items ≡ all.old.items ++ (listed segments (λ k. Amount.Length g t k ∷ []) ++ (Amount.Held g t ∷ []))) }
{
    for k in 0..segments {
        all.push(Amount::Length(g, t, k))?;
    }
    all.push(Amount::Held(g, t))?;
    Ok(())
}

// Adds the amounts of the renewable units in a period, and of what is missing.
fn push_system(all: &mut Vec<Amount>, instance: &Instance, t: u32) -> Result<(), NoMemory>
    requires { renewable_count instance.now < 2 ^ 32 }
    ensures { OnOk result (all.new.items ≡ all.old.items ++ (listed (renewable_count instance.now) (λ w. Amount.Given w t ∷ [])
        ++ (where_true (nat_lt 0 instance.now.a) (Amount.Shed t ∷ []) ++ where_true (nat_lt 0 instance.now.b) (Amount.Short t ∷ [])))) }
{
    for w in 0..instance.renewable.as_slice().len() {
        all.push(Amount::Given(w as u32, t))?;
    }
    push_where(all, instance.a > 0, Amount::Shed(t))?;
    push_where(all, instance.b > 0, Amount::Short(t))
}

// Adds an amount where there is one.
fn push_where(all: &mut Vec<Amount>, exists: bool, amount: Amount) -> Result<(), NoMemory>
    ensures { OnOk result (all.new.items ≡ all.old.items ++ where_true exists (amount ∷ [])) }
{
    if exists {
        all.push(amount)?;
    }
    Ok(())
}
