//! Thermal units.

ghost use Rattle.std.specs.Prelude.{◌+◌, ◌<◌, ◌^◌, map, max, OnOk};
ghost use Rattle.decimal_json.specs.View.{view, pair_view};
ghost use Rattle.instance.specs.FirstFault.{flag_field, output_field, power_field, time_field, outputs_at, ramps_at, times_at, initial_at, figures_at, thermal_at, rounded_field, rounded_outputs, rounded_ramps, rounded_times, rounded_initial, rounded_figures, rounded_thermal};
ghost use Rattle.instance.specs.Answer.{Gives};
ghost use Rattle.instance.specs.inside.Parts.{Counts, THERMAL_NUMBERS};

use crate::fault::{Place, PlacedFault};
use crate::placed::{self, PlacedValue};
use crate::reader::Reader;
use decimal_json::{Json, Pair};
use std::alloc::Global;
use uc_model::limits::MAX_POWER;
use uc_model::{Field, List, Name, Thermal};

/// Whether a unit must run, and its least and greatest output in watts.
#[derive(Drop)]
struct Outputs {
    must_run: bool,
    pmin: i64,
    pmax: i64,
}

/// Ramp limits in watts.
#[derive(Drop)]
struct Ramps {
    ru: i64,
    rd: i64,
    su: i64,
    sd: i64,
}

/// Minimum times in hours, at least 1.
#[derive(Drop)]
struct Times {
    up: u32,
    down: u32,
}

/// The state at the initial time: total output in watts, whether the unit is on, and hours.
#[derive(Drop)]
struct Initial {
    output: i64,
    on: bool,
    up: u32,
    down: u32,
}

/// The fields that are one number.
#[derive(Drop)]
struct Figures {
    outputs: Outputs,
    ramps: Ramps,
    times: Times,
    initial: Initial,
}

impl Reader {
    /// The unit that a value is.
    #[tactic(auto, unfolding(crate::specs::FirstFault::thermal_at, crate::specs::FirstFault::rounded_thermal))]
    pub(crate) fn thermal(
        &mut self,
        alloc: Global,
        name: &str,
        value: &Json,
    ) -> Result<Thermal, PlacedFault>
        requires { self.old.rounded + THERMAL_NUMBERS < 2 ^ 64 }
        ensures read { Gives (λ unit. unit) result (thermal_at self.old.exact name.now (view value.now)) }
        ensures counted { OnOk result (Counts self.old self.new (rounded_thermal (view value.now)) THERMAL_NUMBERS) }
    {
        let place = Place::whole(Field::NoField);
        let members = PlacedValue { value, place }.object()?;
        let figures = self.figures(members)?;
        let startup = self.startup(alloc, members)?;
        let points = self.points(alloc, members)?;
        Ok(Thermal {
            name: Name::from_string(String::from_str(alloc, name)?),
            must_run: figures.outputs.must_run,
            pmin: figures.outputs.pmin,
            pmax: figures.outputs.pmax,
            ru: figures.ramps.ru,
            rd: figures.ramps.rd,
            su: figures.ramps.su,
            sd: figures.ramps.sd,
            ut: figures.times.up,
            dt: figures.times.down,
            p0: figures.initial.output,
            on0: figures.initial.on,
            ut0: figures.initial.up,
            dt0: figures.initial.down,
            startup: List::from_vec(startup),
            points: List::from_vec(points),
        })
    }

    #[tactic(auto, unfolding(crate::specs::FirstFault::figures_at, crate::specs::FirstFault::rounded_figures))]
    fn figures(&mut self, members: &[Pair]) -> Result<Figures, PlacedFault>
        requires { self.old.rounded + 13 < 2 ^ 64 }
        ensures read { Gives (λ x. x) result (figures_at self.old.exact (map pair_view members.now)) }
        ensures counted { OnOk result (Counts self.old self.new (rounded_figures (map pair_view members.now)) 13) }
    {
        let outputs = self.outputs(members)?;
        let ramps = self.ramps(members)?;
        let times = self.times(members)?;
        let initial = self.initial(members)?;
        Ok(Figures {
            outputs,
            ramps,
            times,
            initial,
        })
    }

    /// The power of a field, no less than another one.
    fn power_field(
        &mut self,
        members: &[Pair],
        field: Field,
        least: i64,
    ) -> Result<i64, PlacedFault>
        requires { self.old.rounded + 1 < 2 ^ 64 }
        ensures read { Gives (λ z. z) result (power_field self.old.exact field least (map pair_view members.now)) }
        ensures counted { OnOk result (Counts self.old self.new (rounded_field field (map pair_view members.now)) 1) }
    {
        self.power_in(members, Place::whole(field), least)
    }

    /// The time of a field.
    fn time_field(&mut self, members: &[Pair], field: Field) -> Result<u32, PlacedFault>
        requires { self.old.rounded + 1 < 2 ^ 64 }
        ensures read { Gives (λ h. h) result (time_field self.old.exact field (map pair_view members.now)) }
        ensures counted { OnOk result (Counts self.old self.new (rounded_field field (map pair_view members.now)) 1) }
    {
        self.time_in(members, Place::whole(field))
    }

    /// The flag of a field.
    #[tactic(auto, unfolding(crate::specs::FirstFault::rounded_field))]
    fn flag_field(&mut self, members: &[Pair], field: Field) -> Result<bool, PlacedFault>
        requires { self.old.rounded + 1 < 2 ^ 64 }
        ensures read { Gives (λ b. b) result (flag_field self.old.exact field (map pair_view members.now)) }
        ensures counted { OnOk result (Counts self.old self.new (rounded_field field (map pair_view members.now)) 1) }
    {
        self.flag(placed::field(members, field)?)
    }

    /// The power of a field, of any sign.
    #[tactic(auto, unfolding(crate::specs::FirstFault::rounded_field))]
    fn output_field(&mut self, members: &[Pair], field: Field) -> Result<i64, PlacedFault>
        requires { self.old.rounded + 1 < 2 ^ 64 }
        ensures read { Gives (λ z. z) result (output_field self.old.exact field (map pair_view members.now)) }
        ensures counted { OnOk result (Counts self.old self.new (rounded_field field (map pair_view members.now)) 1) }
    {
        self.amount(placed::field(members, field)?, MAX_POWER)
    }

    #[tactic(auto, unfolding(crate::specs::FirstFault::outputs_at, crate::specs::FirstFault::rounded_outputs))]
    fn outputs(&mut self, members: &[Pair]) -> Result<Outputs, PlacedFault>
        requires { self.old.rounded + 3 < 2 ^ 64 }
        ensures read { Gives (λ x. x) result (outputs_at self.old.exact (map pair_view members.now)) }
        ensures counted { OnOk result (Counts self.old self.new (rounded_outputs (map pair_view members.now)) 3) }
    {
        let must_run = self.flag_field(members, Field::MustRun)?;
        let pmin = self.power_field(members, Field::PowerOutputMinimum, 0)?;
        let pmax = self.power_field(members, Field::PowerOutputMaximum, pmin)?;
        Ok(Outputs {
            must_run,
            pmin,
            pmax,
        })
    }

    #[tactic(auto, unfolding(crate::specs::FirstFault::ramps_at, crate::specs::FirstFault::rounded_ramps))]
    fn ramps(&mut self, members: &[Pair]) -> Result<Ramps, PlacedFault>
        requires { self.old.rounded + 4 < 2 ^ 64 }
        ensures read { Gives (λ x. x) result (ramps_at self.old.exact (map pair_view members.now)) }
        ensures counted { OnOk result (Counts self.old self.new (rounded_ramps (map pair_view members.now)) 4) }
    {
        let ru = self.power_field(members, Field::RampUpLimit, 0)?;
        let rd = self.power_field(members, Field::RampDownLimit, 0)?;
        let su = self.power_field(members, Field::RampStartupLimit, 0)?;
        let sd = self.power_field(members, Field::RampShutdownLimit, 0)?;
        Ok(Ramps { ru, rd, su, sd })
    }

    #[tactic(auto, unfolding(crate::specs::FirstFault::times_at, crate::specs::FirstFault::rounded_times))]
    fn times(&mut self, members: &[Pair]) -> Result<Times, PlacedFault>
        requires { self.old.rounded + 2 < 2 ^ 64 }
        ensures read { Gives (λ x. x) result (times_at self.old.exact (map pair_view members.now)) }
        ensures counted { OnOk result (Counts self.old self.new (rounded_times (map pair_view members.now)) 2) }
    {
        let up = self.time_field(members, Field::TimeUpMinimum)?;
        let down = self.time_field(members, Field::TimeDownMinimum)?;
        Ok(Times {
            up: up.max(1),
            down: down.max(1),
        })
    }

    #[tactic(auto, unfolding(crate::specs::FirstFault::initial_at, crate::specs::FirstFault::rounded_initial))]
    fn initial(&mut self, members: &[Pair]) -> Result<Initial, PlacedFault>
        requires { self.old.rounded + 4 < 2 ^ 64 }
        ensures read { Gives (λ x. x) result (initial_at self.old.exact (map pair_view members.now)) }
        ensures counted { OnOk result (Counts self.old self.new (rounded_initial (map pair_view members.now)) 4) }
    {
        let output = self.output_field(members, Field::PowerOutputT0)?;
        let on = self.flag_field(members, Field::UnitOnT0)?;
        let up = self.time_field(members, Field::TimeUpT0)?;
        let down = self.time_field(members, Field::TimeDownT0)?;
        Ok(Initial {
            output,
            on,
            up,
            down,
        })
    }
}
