//! What a table is made of.
ghost use Rattle.std.specs.Prelude.{◌≡◌, ◌<◌, ◌≤◌, ◌*◌, suc, length, unsigned_abs};
ghost use Rattle.uc_model.specs.Prelude.{was_on as was_on_in, IsLawfulThermal, thermal_count, thermal_unit};
ghost use Rattle.cost_curves.specs.LowerHull.{AreLawfulCorners};
ghost use Rattle.cost_curves.specs.UnitCurves.{curve_in};
ghost use Rattle.dispatch_rules.specs.Prelude.{rise_at, segments, width_at, commitment_at};
ghost use Rattle.dispatch_table.specs.Tasks.{IsGiven};

use cost_curves::{Curve, rise, run};
use uc_model::limits::{MAX_COST, MAX_POWER};
use uc_model::{Instance, Pattern, Point, Thermal};

/// An instance, with a pattern and a curve for each of its thermal units, in its order. Units, periods and segments count from 0.
#[derive(Drop)]
pub(crate) struct Given<'a> {
    pub instance: &'a Instance,
    pub patterns: &'a [Pattern],
    pub curves: &'a [Curve],
}

impl Given<'_> {
    /// Whether unit `g` is on in period `t`.
    pub fn is_on(&self, g: usize, t: u32) -> bool
        requires given { IsGiven self.now }
        requires unit { g < thermal_count self.now.instance.now }
        requires period { t < self.now.instance.now.periods }
        ensures { result ≡ commitment_at self.now.patterns.now g t }
    {
        self.patterns[g].is_on(t)
    }

    /// Whether unit `g` is on in the period before period `t`, which is the initial one before the first.
    pub fn was_on(&self, g: usize, t: u32) -> bool
        requires given { IsGiven self.now }
        requires unit { g < thermal_count self.now.instance.now }
        requires period { t < self.now.instance.now.periods }
        ensures { result ≡ was_on_in (thermal_unit self.now.instance.now g) (commitment_at self.now.patterns.now g) t }
    {
        if t == 0 {
            self.unit(g).on0
        } else {
            self.is_on(g, t - 1)
        }
    }

    /// Thermal unit `g`.
    pub fn unit(&self, g: usize) -> &Thermal
        requires given { IsGiven self.now }
        requires unit { g < thermal_count self.now.instance.now }
        ensures value { result.now ≡ thermal_unit self.now.instance.now g }
        ensures lawful { IsLawfulThermal result.now }
    {
        &self.instance.thermal.as_slice()[g]
    }

    /// The corners of the curve of unit `g`.
    pub fn corners(&self, g: usize) -> &[Point]
        requires given { IsGiven self.now }
        requires unit { g < thermal_count self.now.instance.now }
        ensures value { result.now ≡ curve_in self.now.curves.now g }
        ensures lawful { AreLawfulCorners result.now }
        ensures few { length result.now ≤ 64 }
    {
        self.curves[g].corners()
    }

    /// How many segments the curve of unit `g` has.
    pub fn segments(&self, g: usize) -> u32
        requires given { IsGiven self.now }
        requires unit { g < thermal_count self.now.instance.now }
        ensures value { result ≡ segments (curve_in self.now.curves.now g) }
        ensures few { result < 64 }
    {
        (self.corners(g).len() - 1) as u32
    }

    /// How wide segment `k` of the curve of unit `g` is, in watts.
    pub fn width(&self, g: usize, k: usize) -> i64
        requires given { IsGiven self.now }
        requires unit { g < thermal_count self.now.instance.now }
        requires segment { suc k < length (curve_in self.now.curves.now g) }
        ensures value { result ≡ width_at (curve_in self.now.curves.now g) k }
        ensures size { unsigned_abs result ≤ 2 * MAX_POWER }
    {
        let corners = self.corners(g);
        run(&corners[k], &corners[k + 1])
    }

    /// How far it rises, in micro-dollars.
    pub fn rise(&self, g: usize, k: usize) -> i64
        requires given { IsGiven self.now }
        requires unit { g < thermal_count self.now.instance.now }
        requires segment { suc k < length (curve_in self.now.curves.now g) }
        ensures value { result ≡ rise_at (curve_in self.now.curves.now g) k }
        ensures size { unsigned_abs result ≤ 2 * MAX_COST }
    {
        let corners = self.corners(g);
        rise(&corners[k], &corners[k + 1])
    }
}
