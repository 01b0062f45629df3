//! The numbers of a program's table, by the lists of its amounts, limits, right sides and costs.
ghost use Rattle.std.specs.Prelude.{◌≡◌, ◌<◌, ◌≤◌, ◌^◌, ◌+ℤ◌, ◌*ℤ◌, if◌then◌else◌, length, neg_ℤ, pos, unsigned_abs};
ghost use Rattle.dispatch_program.specs.Prelude.{HasColumn, line_number, one_at};
ghost use Rattle.dispatch_program.specs.Programs.{cost_number as cost_number_in, has_artificial as has_artificial_in, is_limit as is_limit_in, rule_number as rule_number_in, rules_off as rules_off_in, sign as sign_in, sum_number as sum_number_in};
ghost use Rattle.dispatch_rules.specs.Prelude.{rule_of, is_demand as is_demand_in, limit};
ghost use Rattle.pivot_run.specs.Prelude.{entry};
ghost use Rattle.dispatch_table.specs.Numbers.{AreWhole, HasLine, column_of, line_of, program_of};

use crate::column::{Column, Line};
use crate::times::times;
use dispatch_rules::{Amount, LimitAt, LimitRule};

/// The unknowns and the rules of a program, with the right side of each rule and the cost of each unknown.
#[derive(Drop)]
pub(crate) struct Numbers {
    pub amounts: Vec<Amount>,
    pub limits: Vec<LimitAt>,
    pub rights: Vec<i64>,
    pub costs: Vec<i128>,
}

impl Numbers {
    /// The number in a line and a column.
    pub fn number(&self, line: Line, column: &Column) -> i128
        requires whole { AreWhole self.now }
        requires line { HasLine (program_of self.now) (line_of line) }
        requires column { HasColumn (program_of self.now) (column_of column.now) }
        ensures value { result ≡ line_number (program_of self.now) (line_of line) (column_of column.now) }
        ensures size { unsigned_abs result < 2 ^ 127 }
    {
        match line {
            Line::Rule(i) => self.rule_number(i, column),
            Line::Sum => self.sum_number(column),
            Line::Cost => self.cost_number(column),
        }
    }

    // The number of rule `i`.
    fn rule_number(&self, i: usize, column: &Column) -> i128
        requires whole { AreWhole self.now }
        requires rule { i < length self.now.limits.items }
        requires column { HasColumn (program_of self.now) (column_of column.now) }
        ensures value { result ≡ rule_number_in (program_of self.now) i (column_of column.now) }
        ensures size { unsigned_abs result ≤ 2 ^ 63 }
    {
        match column {
            Column::Unknown(c) => signed(&self.sign(i), &times(&self.limits[i], &self.amounts[*c])),
            Column::Slack(j) => where_same(i, *j, &self.sign(i)),
            Column::Artificial(j) => where_same(i, *j, &1),
            Column::SumValue | Column::CostValue => 0,
            Column::RightSide => signed(&self.sign(i), &self.right(i)),
        }
    }

    // The number of the sum.
    fn sum_number(&self, column: &Column) -> i128
        requires whole { AreWhole self.now }
        requires column { HasColumn (program_of self.now) (column_of column.now) }
        ensures value { result ≡ sum_number_in (program_of self.now) (column_of column.now) }
        ensures size { unsigned_abs result < 2 ^ 127 }
    {
        match column {
            Column::SumValue => 1,
            Column::Artificial(_) | Column::CostValue => 0,
            _ => negated(&self.rules_off(column)),
        }
    }

    // The number of the cost.
    fn cost_number(&self, column: &Column) -> i128
        requires whole { AreWhole self.now }
        requires column { HasColumn (program_of self.now) (column_of column.now) }
        ensures value { result ≡ cost_number_in (program_of self.now) (column_of column.now) }
        ensures size { unsigned_abs result < 2 ^ 127 }
    {
        match column {
            Column::Unknown(c) => self.costs[*c],
            Column::CostValue => 1,
            _ => 0,
        }
    }

    // The rules with an artificial column together.
    fn rules_off(&self, column: &Column) -> i128
        requires whole { AreWhole self.now }
        requires column { HasColumn (program_of self.now) (column_of column.now) }
        ensures value { result ≡ rules_off_in (program_of self.now) (column_of column.now) }
        ensures size { unsigned_abs result ≤ 2 ^ 126 }
    {
        let limits = self.limits.as_slice();
        let mut total = 0;
        for i in 0..limits.len() {
            total = with_term(&total, &self.number_off(i, column));
        }
        total
    }

    // The number of rule `i` where it has an artificial column, and else 0.
    fn number_off(&self, i: usize, column: &Column) -> i128
        requires whole { AreWhole self.now }
        requires rule { i < length self.now.limits.items }
        requires column { HasColumn (program_of self.now) (column_of column.now) }
        ensures value { result ≡ (if has_artificial_in (program_of self.now) i then rule_number_in (program_of self.now) i (column_of column.now) else pos 0) }
        ensures size { unsigned_abs result ≤ 2 ^ 63 }
    {
        if self.has_artificial(i) {
            self.rule_number(i, column)
        } else {
            0
        }
    }

    /// Whether rule `i` is an upper limit.
    pub fn is_limit(&self, i: usize) -> bool
        requires { i < length self.now.limits.items }
        ensures { result ≡ is_limit_in (program_of self.now) i }
    {
        !is_demand(self.limits[i].rule)
    }

    /// Whether rule `i` has an artificial column.
    pub fn has_artificial(&self, i: usize) -> bool
        requires whole { AreWhole self.now }
        requires rule { i < length self.now.limits.items }
        ensures { result ≡ has_artificial_in (program_of self.now) i }
    {
        is_demand(self.limits[i].rule) || self.rights[i] < 0
    }

    // 1, and -1 for a rule that is negated.
    fn sign(&self, i: usize) -> i128
        requires whole { AreWhole self.now }
        requires rule { i < length self.now.limits.items }
        ensures value { result ≡ sign_in (program_of self.now) i }
        ensures size { unsigned_abs result ≡ 1 }
    {
        if self.rights[i] < 0 { -1 } else { 1 }
    }

    // The right side of rule `i`.
    fn right(&self, i: usize) -> i128
        requires whole { AreWhole self.now }
        requires rule { i < length self.now.limits.items }
        ensures value { result ≡ entry self.now.rights.items i }
        ensures size { unsigned_abs result ≤ 2 ^ 63 }
    {
        i128::from(self.rights[i])
    }
}

// Whether the rule is that of demand.
fn is_demand(rule: LimitRule) -> bool
    ensures { result ≡ is_demand_in (limit (rule_of rule) 0 0 0) }
{
    match rule {
        LimitRule::Demand => true,
        _ => false,
    }
}

// A number, negated where the sign is.
fn signed(sign: &i128, number: &i128) -> i128
    requires sign { unsigned_abs sign.now ≡ 1 }
    requires number { unsigned_abs number.now ≤ 2 ^ 63 }
    ensures value { result ≡ sign.now *ℤ number.now }
    ensures size { unsigned_abs result ≤ 2 ^ 63 }
{
    *sign * *number
}

// The number where the places are the same, and else 0.
fn where_same(i: usize, j: usize, number: &i128) -> i128
    ensures value { result ≡ one_at i j number.now }
    ensures size { unsigned_abs result ≤ unsigned_abs number.now }
{
    if i == j { *number } else { 0 }
}

// A sum of numbers of rules with a number more.
fn with_term(total: &i128, number: &i128) -> i128
    requires total { unsigned_abs total.now ≤ 2 ^ 126 }
    requires number { unsigned_abs number.now ≤ 2 ^ 63 }
    ensures { result ≡ total.now +ℤ number.now }
{
    *total + *number
}

// The number, negated.
fn negated(number: &i128) -> i128
    requires { unsigned_abs number.now ≤ 2 ^ 126 }
    ensures value { result ≡ neg_ℤ number.now }
    ensures size { unsigned_abs result ≤ 2 ^ 126 }
{
    -*number
}
