//! On-intervals: the periods from a start to the last one before a stop.

ghost use Rattle.std.specs.Prelude.{◌≡◌, ◌+◌, ◌-◌, ◌*◌, ◌<◌, ◌≤◌, ℕ, pos, Some, false, IfOk, IfSome, MatchOption, length, replicate, unsigned_abs};
ghost use Rattle.uc_model.specs.Prelude.{sum_below};
ghost use Rattle.interval_graph.specs.Intervals.{interval_cost, interval_term, term_in, AreTermRows, HasNoTerm, IsThere, MAX_INTERVAL};
ghost use Rattle.interval_graph.specs.RunningSums.{full_value};

use crate::sums::{add_up, full_of};
use std::alloc::Global;
use std::marker::Model;
use uc_model::limits::{MAX_PERIODS, MAX_TERM};
use uc_model::terms::place;
use uc_model::{NoMemory, Terms, difference, sum};

/// A unit's terms by their place in an on-interval, over a number of periods that does not change. Contracts see
/// the rows of terms: for each period, from 0, the term of a cell that neither starts the interval nor ends it, of
/// one that starts it, of one that ends it, and of one that does both.
#[derive(Drop)]
pub struct Intervals {
    rows: Vec<[Option<i128>; 4]>,
    /// For each period, the sum of the terms at the full cap before it.
    sums: Vec<i128>,
}

impl Model for Intervals {
    ghost use Rattle.std.specs.Prelude.{List, ℤ, Option};
    ghost use Rattle.interval_graph.specs.Intervals.{AreTermRows};
    ghost use Rattle.interval_graph.specs.RunningSums.{AreRunningSums};

    ghost Value = { List (List (Option ℤ)) };

    ghost view = { λ intervals. intervals.rows.items };

    ghost invariant = { λ intervals. AreTermRows intervals.rows.items × AreRunningSums intervals.rows.items intervals.sums.items };
}

impl Intervals {
    /// Intervals over `periods` periods, at most `MAX_PERIODS`, all of whose terms are 0. The only error is `NoMemory`.
    pub fn new(alloc: Global, periods: usize) -> Result<Intervals, NoMemory>
        requires { periods ≤ MAX_PERIODS }
        ensures { IfOk result (λ intervals. intervals ≡ replicate periods (replicate 4 (Some (pos 0)))) }
    {
        let rows = vec![in alloc; [Some(0); 4]; periods]?;
        let sums = vec![in alloc; 0; periods]?;
        Ok(Intervals { rows, sums })
    }

    /// The number of periods.
    pub fn periods(&self) -> usize
        ensures value { result ≡ length self.now }
        ensures size { result ≤ MAX_PERIODS }
    {
        self.rows.len()
    }

    /// Takes the terms of a unit in place of those that it has. Each period has a term at the full cap.
    pub fn fill(&mut self, terms: &Terms)
        requires room { length self.old ≡ length terms.now.terms }
        requires rows { AreTermRows terms.now.terms }
        ensures { self.new ≡ terms.now.terms }
    {
        add_up(self.sums.as_mut_slice(), terms.terms.as_slice());
        self.rows
            .as_mut_slice()
            .copy_from_slice(terms.terms.as_slice());
    }

    /// The term of a cell in period `t`, from 0, by whether it starts its interval and whether it ends it; `None`
    /// where its cap is negative.
    pub fn term(&self, t: usize, start: bool, stop: bool) -> Option<i128>
        requires { t < length self.now }
        ensures value { result ≡ term_in self.now t start stop }
        ensures size { IfSome result (λ m. unsigned_abs m ≤ MAX_TERM) }
    {
        self.rows[t][place(start, stop)]
    }

    /// The term of a cell in period `t`, from 0, that neither starts its interval nor ends it.
    pub fn full_term(&self, t: usize) -> i128
        requires { t < length self.now }
        ensures value { Some result ≡ term_in self.now t false false }
        ensures size { unsigned_abs result ≤ MAX_TERM }
    {
        full_of(self.rows.as_slice(), t)
    }

    /// The sum of the terms of the interval from period `a` to period `b`, both from 0 and in it; `None` exactly where
    /// the cap of a cell of it is negative, which only its first and its last one's can be. Reads the terms of these two and
    /// the running sums that they enclose, however long the interval is.
    pub fn cost(&self, a: usize, b: usize) -> Option<i128>
        requires order { a ≤ b }
        requires within { b < length self.now }
        ensures cost { MatchOption result (HasNoTerm self.now a b) (λ cost. cost ≡ interval_cost self.now a b) }
        ensures terms { IfSome result (λ cost. (t : ℕ) → a ≤ t → t ≤ b → IsThere (interval_term self.now a b t)) }
        ensures size { IfSome result (λ cost. unsigned_abs cost ≤ MAX_INTERVAL) }
    {
        let periods = self.rows.len();
        prove!(b < periods);
        if a == b {
            return self.term(a, true, true);
        }
        let Some(first) = self.term(a, true, false) else {
            return None;
        };
        let Some(last) = self.term(b, false, true) else {
            return None;
        };
        let middle = self.between(a + 1, b);
        let front = sum(first, middle);
        Some(sum(front, last))
    }

    // The sum of the terms at the full cap from period `from` to the one before `to`.
    fn between(&self, from: usize, to: usize) -> i128
        requires order { from ≤ to }
        requires within { to < length self.now }
        ensures value { result ≡ sum_below (to - from) (λ k. full_value self.now (from + k)) }
        ensures size { unsigned_abs result ≤ 2 * MAX_INTERVAL }
    {
        let later = self.sum_before(to);
        let earlier = self.sum_before(from);
        difference(later, earlier)
    }

    // The sum of the terms at the full cap before period t.
    fn sum_before(&self, t: usize) -> i128
        requires { t < length self.now }
        ensures value { result ≡ sum_below t (full_value self.now) }
        ensures size { unsigned_abs result ≤ MAX_INTERVAL }
    {
        self.sums[t]
    }
}
