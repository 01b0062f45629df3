//! The rows of `startup` and of `piecewise_production`.

ghost use Rattle.std.specs.Prelude.{◌≡◌, ◌+◌, ◌<◌, ◌^◌, length, map, OnOk, List};
ghost use Rattle.decimal_json.specs.View.{view, pair_view};
ghost use Rattle.instance.specs.FirstFault.{MAX_POINTS, MAX_START_ROWS, each_at, start_row, point_row, startup_at, points_at, last_output, time_in, cost_in, power_in, rounded_field, rounded_start_row, rounded_point, rounded_startup, rounded_points};
ghost use Rattle.uc_model.specs.declared.instance.StartRow.{StartRow};
ghost use Rattle.uc_model.specs.declared.instance.Point.{Point};
ghost use Rattle.instance.specs.Answer.{Gives};
ghost use Rattle.instance.specs.inside.Parts.{Counts, START_NUMBERS, POINT_NUMBERS};

use crate::fault::{Place, PlacedFault};
use crate::placed::{self, PlacedValue};
use crate::reader::Reader;
use decimal_json::{Json, Pair};
use std::alloc::Global;
use uc_model::limits::{MAX_COST, MAX_POINTS, MAX_POWER, MAX_START_ROWS};
use uc_model::{Field, Point, StartRow};

impl Reader {
    /// The start categories of a unit.
    #[tactic(auto, unfolding(crate::specs::FirstFault::each_at, crate::specs::FirstFault::startup_at, crate::specs::FirstFault::rounded_startup))]
    pub(crate) fn startup(
        &mut self,
        alloc: Global,
        members: &[Pair],
    ) -> Result<Vec<StartRow>, PlacedFault>
        requires { self.old.rounded + START_NUMBERS < 2 ^ 64 }
        ensures read { Gives (λ rows. rows.items) result (startup_at self.old.exact (map pair_view members.now)) }
        ensures counted { OnOk result (Counts self.old self.new (rounded_startup (map pair_view members.now)) START_NUMBERS) }
    {
        let rows = placed::rows(members, Field::Startup, MAX_START_ROWS)?;
        let mut start_rows = Vec::new(alloc);
        for (index, row) in rows.iter().enumerate() {
            start_rows.push(self.start_row(row, index)?)?;
        }
        Ok(start_rows)
    }

    /// The points of a unit's production cost.
    #[tactic(auto, unfolding(crate::specs::FirstFault::each_at, crate::specs::FirstFault::points_at, crate::specs::FirstFault::rounded_points))]
    pub(crate) fn points(
        &mut self,
        alloc: Global,
        members: &[Pair],
    ) -> Result<Vec<Point>, PlacedFault>
        requires { self.old.rounded + POINT_NUMBERS < 2 ^ 64 }
        ensures read { Gives (λ rows. rows.items) result (points_at self.old.exact (map pair_view members.now)) }
        ensures counted { OnOk result (Counts self.old self.new (rounded_points (map pair_view members.now)) POINT_NUMBERS) }
    {
        let rows = placed::rows(members, Field::PiecewiseProduction, MAX_POINTS)?;
        let mut points = Vec::new(alloc);
        let mut least = -(MAX_POWER as i64);
        for (index, row) in rows.iter().enumerate() {
            let point = self.point(row, index, least)?;
            least = point.mw;
            points.push(point)?;
        }
        Ok(points)
    }

    #[tactic(auto, unfolding(crate::specs::FirstFault::start_row, crate::specs::FirstFault::rounded_start_row))]
    fn start_row(&mut self, row: &Json, index: usize) -> Result<StartRow, PlacedFault>
        requires few { index < MAX_START_ROWS }
        requires room { self.old.rounded + 2 < 2 ^ 64 }
        ensures read { (front : List StartRow) → length front ≡ index → Gives (λ r. r) result (start_row self.old.exact front (view row.now)) }
        ensures counted { OnOk result (Counts self.old self.new (rounded_start_row (view row.now)) 2) }
    {
        let place = Place::entry(Field::Startup, index);
        let members = PlacedValue { value: row, place }.object()?;
        let lag = self.time_in(members, Place::entry(Field::StartupLag, index))?;
        let cost = self.cost_in(members, Place::entry(Field::StartupCost, index))?;
        Ok(StartRow { lag, cost })
    }

    #[tactic(auto, unfolding(crate::specs::FirstFault::point_row, crate::specs::FirstFault::rounded_point))]
    fn point(&mut self, row: &Json, index: usize, least: i64) -> Result<Point, PlacedFault>
        requires few { index < MAX_POINTS }
        requires room { self.old.rounded + 2 < 2 ^ 64 }
        ensures read { (front : List Point) → length front ≡ index → last_output front ≡ least → Gives (λ p. p) result (point_row self.old.exact front (view row.now)) }
        ensures counted { OnOk result (Counts self.old self.new (rounded_point (view row.now)) 2) }
    {
        let place = Place::entry(Field::PiecewiseProduction, index);
        let members = PlacedValue { value: row, place }.object()?;
        let output = Place::entry(Field::PiecewiseProductionMw, index);
        let mw = self.power_in(members, output, least)?;
        let cost = self.cost_in(members, Place::entry(Field::PiecewiseProductionCost, index))?;
        Ok(Point { mw, cost })
    }

    /// The time at a place of a record.
    #[tactic(auto, unfolding(crate::specs::FirstFault::rounded_field))]
    pub(crate) fn time_in(&mut self, members: &[Pair], place: Place) -> Result<u32, PlacedFault>
        requires { self.old.rounded + 1 < 2 ^ 64 }
        ensures read { Gives (λ h. h) result (time_in self.old.exact place (map pair_view members.now)) }
        ensures counted { OnOk result (Counts self.old self.new (rounded_field place.field (map pair_view members.now)) 1) }
    {
        self.time(placed::field_at(members, place)?)
    }

    /// The power at a place of a record, no less than another one.
    #[tactic(auto, unfolding(crate::specs::FirstFault::rounded_field))]
    pub(crate) fn power_in(
        &mut self,
        members: &[Pair],
        place: Place,
        least: i64,
    ) -> Result<i64, PlacedFault>
        requires { self.old.rounded + 1 < 2 ^ 64 }
        ensures read { Gives (λ z. z) result (power_in self.old.exact place least (map pair_view members.now)) }
        ensures counted { OnOk result (Counts self.old self.new (rounded_field place.field (map pair_view members.now)) 1) }
    {
        self.power_from(placed::field_at(members, place)?, least)
    }

    #[tactic(auto, unfolding(crate::specs::FirstFault::rounded_field))]
    fn cost_in(&mut self, members: &[Pair], place: Place) -> Result<i64, PlacedFault>
        requires { self.old.rounded + 1 < 2 ^ 64 }
        ensures read { Gives (λ z. z) result (cost_in self.old.exact place (map pair_view members.now)) }
        ensures counted { OnOk result (Counts self.old self.new (rounded_field place.field (map pair_view members.now)) 1) }
    {
        self.amount(placed::field_at(members, place)?, MAX_COST)
    }
}
