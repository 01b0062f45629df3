//! The names of the fields of an instance file in the pglib-uc format.

ghost use Rattle.std.specs.Prelude.{◌≡◌};
ghost use Rattle.instance.specs.Fields.{key_of};

use uc_model::Field;

/// The name of a field in the object that has it.
#[tactic(auto, unfolding(crate::specs::Fields::key_of))]
pub(crate) fn key(field: Field) -> &'static str
    ensures { result.now ≡ key_of field }
{
    match field {
        Field::NoField => "",
        Field::TimePeriods => "time_periods",
        Field::Demand => "demand",
        Field::Reserves => "reserves",
        Field::ThermalGenerators => "thermal_generators",
        Field::RenewableGenerators => "renewable_generators",
        Field::MustRun => "must_run",
        Field::PowerOutputMinimum => "power_output_minimum",
        Field::PowerOutputMaximum => "power_output_maximum",
        Field::RampUpLimit => "ramp_up_limit",
        Field::RampDownLimit => "ramp_down_limit",
        Field::RampStartupLimit => "ramp_startup_limit",
        Field::RampShutdownLimit => "ramp_shutdown_limit",
        Field::TimeUpMinimum => "time_up_minimum",
        Field::TimeDownMinimum => "time_down_minimum",
        Field::PowerOutputT0 => "power_output_t0",
        Field::UnitOnT0 => "unit_on_t0",
        Field::TimeUpT0 => "time_up_t0",
        Field::TimeDownT0 => "time_down_t0",
        Field::Startup => "startup",
        Field::StartupLag => "lag",
        Field::PiecewiseProduction => "piecewise_production",
        Field::PiecewiseProductionMw => "mw",
        Field::StartupCost | Field::PiecewiseProductionCost => "cost",
    }
}
