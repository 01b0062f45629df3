//! The powers of a dispatch, which its amounts add up to. Units and periods count from 0.

ghost use Rattle.std.specs.Prelude.{◌≡◌, ◌==◌, ◌&&◌};
ghost use Rattle.dispatch_rules.specs.Prelude.{given_in, held_in, one_if, output_in, shed_in, short_in};

use dispatch_rules::Amount;

/// A power of the dispatch.
#[derive(Debug, Clone, Copy)]
pub(crate) enum Power {
    /// A thermal unit's output above its minimum in a period: unit, period.
    Output(u32, u32),
    /// A thermal unit's reserve in a period: unit, period.
    Reserve(u32, u32),
    /// What a renewable unit gives above its least output in a period: unit, period.
    Renewable(u32, u32),
    /// The demand that isn't served in a period.
    Unserved(u32),
    /// The reserve that is missing in a period.
    Missing(u32),
}

impl Power {
    ghost use Rattle.dispatch_schedule.specs.inside.Chosen.{power_in};

    /// Whether an amount is a part of the power.
    pub(crate) fn has(&self, amount: &Amount) -> bool
        ensures { power_in self.now amount.now ≡ one_if result }
    {
        match *self {
            Power::Output(g, t) => is_output(amount, g, t),
            Power::Reserve(g, t) => is_reserve(amount, g, t),
            Power::Renewable(w, t) => is_renewable(amount, w, t),
            Power::Unserved(t) => is_unserved(amount, t),
            Power::Missing(t) => is_missing(amount, t),
        }
    }
}

fn is_output(amount: &Amount, g: u32, t: u32) -> bool
    ensures { output_in g t amount.now ≡ one_if result }
{
    match *amount {
        Amount::Length(unit, period, _) => is_cell(g, t, unit, period),
        _ => false,
    }
}

fn is_reserve(amount: &Amount, g: u32, t: u32) -> bool
    ensures { held_in g t amount.now ≡ one_if result }
{
    match *amount {
        Amount::Held(unit, period) => is_cell(g, t, unit, period),
        _ => false,
    }
}

fn is_renewable(amount: &Amount, w: u32, t: u32) -> bool
    ensures { given_in w t amount.now ≡ one_if result }
{
    match *amount {
        Amount::Given(unit, period) => is_cell(w, t, unit, period),
        _ => false,
    }
}

fn is_unserved(amount: &Amount, t: u32) -> bool
    ensures { shed_in t amount.now ≡ one_if result }
{
    match *amount {
        Amount::Shed(period) => t == period,
        _ => false,
    }
}

fn is_missing(amount: &Amount, t: u32) -> bool
    ensures { short_in t amount.now ≡ one_if result }
{
    match *amount {
        Amount::Short(period) => t == period,
        _ => false,
    }
}

// Whether a unit and a period are these.
fn is_cell(g: u32, t: u32, unit: u32, period: u32) -> bool
    ensures { result ≡ ((g == unit) && (t == period)) }
{
    g == unit && t == period
}
