//! The limits on the amounts of a dispatch. Units, periods and segments count from 0.

/// A rule on amounts, by the number of the model's rule.
#[derive(Debug, Clone, Copy, PartialEq, Eq)]
pub enum LimitRule {
    /// M8: the length of a segment.
    Production,
    /// M9: the cap of a cell that may start.
    StartCap,
    /// M10: the cap of a cell that a stop may follow.
    StopCap,
    /// M11: the ramp upward.
    RampUp,
    /// M12: the ramp downward.
    RampDown,
    /// M13: the greatest output of a renewable unit.
    RenewableRange,
    /// M14: demand is met, an equality.
    Demand,
    /// M15: the reserve is met.
    Reserve,
    /// M16: the most demand that may stay unserved.
    ShedRange,
    /// M17: the most reserve that may be missing.
    ShortRange,
}

/// A limit: a rule at a unit and a period, and of M8 at a segment; 0 where the rule has no unit or no segment.
#[derive(Debug, Clone, Copy)]
pub struct LimitAt {
    pub rule: LimitRule,
    pub unit: u32,
    pub period: u32,
    pub segment: u32,
}
