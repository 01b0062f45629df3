//! The multipliers of the priced rules, read off a last row.
ghost use Rattle.std.specs.Prelude.{◌≡◌, [], ◌∷◌, ◌++◌, ◌+◌, ◌*◌, ◌^◌, ◌<◌, ◌≤◌, true, length, unsigned_abs, IfErr, IfOk, OnOk, ◌*ℤ◌, ◌-ℤ◌};
ghost use Rattle.pivot_run.specs.Prelude.{IsNarrow, row_at};
ghost use Rattle.dispatch_program.specs.Prelude.{Artificial, bump, counted, has_artificial, is_limit, place};
ghost use Rattle.dispatch_rules.specs.Prelude.{limit_of, is_demand};
ghost use Rattle.dispatch_prices.specs.ReadOff.{AreMultipliers, ReadingForms, RuleForms, is_priced, limit_in};
ghost use Rattle.dispatch_prices.specs.Readings.{ArePlaces, HasSize, IsLarge, IsMultiplierAt, IsProductOf, IsProductOfEither, IsUnfit, rules_at, sign_of};

use crate::unfit::Unfit;
use dispatch_rules::{LimitAt, LimitRule};
use pivot_run::{Tableau, product};
use std::alloc::Global;

/// The greatest size of a multiplier.
const MAX_MULTIPLIER: u128 = 100_000_000_000_000;

/// The end of a run on a commitment's table, with what its rules are.
#[derive(Clone, Copy)]
pub struct FinalTableau<'a> {
    pub table: &'a Tableau,
    /// How many amounts there are, in the first columns.
    pub unknowns: usize,
    pub limits: &'a [LimitAt],
    /// The right side of each limit at the start, in watts.
    pub rights: &'a [i64],
}

/// The columns of a rule's slack and artificial column.
#[derive(Clone, Copy)]
pub(crate) struct Places {
    pub slack: usize,
    pub artificial: usize,
}

impl FinalTableau<'_> {
    /// The multipliers of the priced rules in row `o`, with 0 for all others.
    pub(crate) fn multipliers(&self, alloc: Global, o: usize) -> Result<Vec<i64>, Unfit>
        requires size { HasSize self.now }
        requires row { o < length self.now.table.now.rows }
        ensures times { IfOk result (λ times. AreMultipliers (rules_at self.now) self.now.limits.now (row_at self.now.table.now.rows o) (length self.now.limits.now) times.items) }
        ensures narrow { OnOk result (IsNarrow (ReadingForms (rules_at self.now) (row_at self.now.table.now.rows o))) }
        ensures unfit { IfErr result (IsUnfit (rules_at self.now) self.now.limits.now (row_at self.now.table.now.rows o)) }
    {
        let mut times = Vec::new(alloc);
        let mut places = self.first_places();
        for i in 0..self.limits.len() {
            let time = self.multiplier(o, i, places)?;
            push(&mut times, time)?;
            places = self.next_places(i, places);
        }
        Ok(times)
    }

    // The multiplier of rule i, where that is a price.
    fn multiplier(&self, o: usize, i: usize, places: Places) -> Result<i64, Unfit>
        requires size { HasSize self.now }
        requires row { o < length self.now.table.now.rows }
        requires rule { i < length self.now.limits.now }
        requires places { ArePlaces (rules_at self.now) i places }
        ensures is { IfOk result (IsMultiplierAt (rules_at self.now) self.now.limits.now (row_at self.now.table.now.rows o) i) }
        ensures narrow { OnOk result (IsNarrow (RuleForms (rules_at self.now) (row_at self.now.table.now.rows o) i)) }
        ensures unfit { IfErr result (IsUnfit (rules_at self.now) self.now.limits.now (row_at self.now.table.now.rows o)) }
    {
        if self.is_equality(i) {
            self.demand_multiplier(o, i, places.artificial)
        } else if self.is_priced(i) {
            within(self.table.number(o, places.slack))
        } else {
            Ok(0)
        }
    }

    // The multiplier of rule i, which is an equality.
    fn demand_multiplier(&self, o: usize, i: usize, artificial: usize) -> Result<i64, Unfit>
        requires size { HasSize self.now }
        requires row { o < length self.now.table.now.rows }
        requires rule { i < length self.now.limits.now }
        requires equality { is_demand (limit_of (limit_in self.now.limits.now i)) ≡ true }
        requires place { artificial ≡ place (rules_at self.now) (Artificial i) }
        ensures is { IfOk result (IsMultiplierAt (rules_at self.now) self.now.limits.now (row_at self.now.table.now.rows o) i) }
        ensures narrow { OnOk result (IsNarrow (RuleForms (rules_at self.now) (row_at self.now.table.now.rows o) i)) }
        ensures unfit { IfErr result (IsUnfit (rules_at self.now) self.now.limits.now (row_at self.now.table.now.rows o)) }
    {
        let number = signed_difference(
            self.rights[i] < 0,
            self.table.number(o, artificial),
            self.table.number(o, self.table.columns() - 3),
        )?;
        within(&number)
    }

    // Whether rule i is an equality.
    fn is_equality(&self, i: usize) -> bool
        requires { i < length self.now.limits.now }
        ensures { result ≡ is_demand (limit_of (limit_in self.now.limits.now i)) }
    {
        self.limits[i].rule == LimitRule::Demand
    }

    // Whether the multiplier of rule i is a price.
    fn is_priced(&self, i: usize) -> bool
        requires { i < length self.now.limits.now }
        ensures { result ≡ is_priced (limit_of (limit_in self.now.limits.now i)) }
    {
        matches!(
            self.limits[i].rule,
            LimitRule::RampUp | LimitRule::RampDown | LimitRule::Demand | LimitRule::Reserve
        )
    }

    // Whether rule i has an artificial column.
    fn has_artificial(&self, i: usize) -> bool
        requires rule { i < length self.now.limits.now }
        requires rights { length self.now.rights.now ≡ length self.now.limits.now }
        ensures { result ≡ has_artificial (rules_at self.now) i }
    {
        self.is_equality(i) || self.rights[i] < 0
    }

    // The columns of the first rule.
    fn first_places(&self) -> Places
        requires { HasSize self.now }
        ensures { ArePlaces (rules_at self.now) 0 result }
    {
        let slacks = self.slacks();
        // What counts columns fits, as the number of all columns does.
        let _columns = self.table.columns();
        Places {
            slack: self.unknowns,
            artificial: self.unknowns + slacks,
        }
    }

    // How many rules are no equality.
    fn slacks(&self) -> usize
        ensures { result ≡ counted (is_limit (rules_at self.now)) (length self.now.limits.now) }
    {
        let mut count = 0;
        for i in 0..self.limits.len() {
            if !self.is_equality(i) {
                count += 1;
            }
        }
        count
    }

    // The columns of the rule after rule i.
    fn next_places(&self, i: usize, places: Places) -> Places
        requires size { HasSize self.now }
        requires rule { i < length self.now.limits.now }
        requires places { ArePlaces (rules_at self.now) i places }
        ensures { ArePlaces (rules_at self.now) (i + 1) result }
    {
        let equality = self.is_equality(i);
        let artificial = self.has_artificial(i);
        // As above.
        let _columns = self.table.columns();
        Places {
            slack: more(places.slack, !equality),
            artificial: more(places.artificial, artificial),
        }
    }
}

// A number, and one more where it counts.
fn more(number: usize, counts: bool) -> usize
    requires { number + bump counts < 2 ^ 64 }
    ensures { result ≡ number + bump counts }
{
    if counts { number + 1 } else { number }
}

// The difference of two numbers, negated where the rule is.
fn signed_difference(negated: bool, own: &i128, sum: &i128) -> Result<i128, Unfit>
    ensures value { IfOk result (λ z. z ≡ sign_of negated *ℤ (own.now -ℤ sum.now)) }
    ensures first { OnOk result (unsigned_abs (sign_of negated) * unsigned_abs own.now < 2 ^ 126) }
    ensures second { OnOk result (unsigned_abs (sign_of negated) * unsigned_abs sum.now < 2 ^ 126) }
    ensures wide { IfErr result (IsProductOfEither (sign_of negated) own.now sum.now) }
{
    let first = signed(negated, own)?;
    let second = signed(negated, sum)?;
    Ok(first - second)
}

// A number, negated where the rule is.
fn signed(negated: bool, number: &i128) -> Result<i128, Unfit>
    ensures value { IfOk result (λ z. z ≡ sign_of negated *ℤ number.now) }
    ensures size { IfOk result (λ z. unsigned_abs z < 2 ^ 126) }
    ensures narrow { OnOk result (unsigned_abs (sign_of negated) * unsigned_abs number.now < 2 ^ 126) }
    ensures wide { IfErr result (IsProductOf (sign_of negated) number.now) }
{
    let sign = if negated { -1 } else { 1 };
    match product(&sign, number) {
        Ok(z) => Ok(z),
        Err(wide) => Err(Unfit::Product(wide)),
    }
}

// A multiplier, where it is within the limit.
fn within(number: &i128) -> Result<i64, Unfit>
    ensures value { IfOk result (λ z. (z ≡ number.now) × (unsigned_abs z ≤ 100000000000000)) }
    ensures large { IfErr result (IsLarge number.now) }
{
    if number.unsigned_abs() <= MAX_MULTIPLIER {
        Ok(*number as i64)
    } else {
        Err(Unfit::Multiplier(*number))
    }
}

// Adds a number.
fn push(times: &mut Vec<i64>, time: i64) -> Result<(), Unfit>
    ensures items { OnOk result (times.new.items ≡ times.old.items ++ time ∷ []) }
    ensures memory { IfErr result (λ unfit. unfit ≡ Unfit.NoMemory) }
{
    match times.push(time) {
        Ok(()) => Ok(()),
        Err(_) => Err(Unfit::NoMemory),
    }
}
