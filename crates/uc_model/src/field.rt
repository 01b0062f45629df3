//! The fields of an instance, as a refusal names them.

/// A field of an instance in the pglib-uc format.
#[derive(Clone, Copy, Debug)]
pub enum Field {
    /// The whole value, or a unit's record.
    NoField,
    TimePeriods,
    Demand,
    Reserves,
    ThermalGenerators,
    RenewableGenerators,
    MustRun,
    PowerOutputMinimum,
    PowerOutputMaximum,
    RampUpLimit,
    RampDownLimit,
    RampStartupLimit,
    RampShutdownLimit,
    TimeUpMinimum,
    TimeDownMinimum,
    PowerOutputT0,
    UnitOnT0,
    TimeUpT0,
    TimeDownT0,
    Startup,
    StartupLag,
    StartupCost,
    PiecewiseProduction,
    PiecewiseProductionMw,
    PiecewiseProductionCost,
}
