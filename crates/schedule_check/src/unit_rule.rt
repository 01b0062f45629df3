//! The rules that speak of one thermal unit.

ghost use Rattle.std.specs.Prelude.{◌≡◌};
ghost use Rattle.uc_model.specs.Prelude.{rule_number};
ghost use Rattle.schedule_check.specs.WholeWatts.{rule_of, unit_periods};

/// M1 to M12 by their names.
#[derive(Clone, Copy)]
pub(crate) enum UnitRule {
    MustRun,
    InitialUp,
    InitialDown,
    MinimumUp,
    MinimumDown,
    Category,
    InitialStop,
    Production,
    StartCap,
    StopCap,
    RampUp,
    RampDown,
}

/// The rules in their order.
pub(crate) const UNIT_RULES: [UnitRule; 12] = [
    UnitRule::MustRun,
    UnitRule::InitialUp,
    UnitRule::InitialDown,
    UnitRule::MinimumUp,
    UnitRule::MinimumDown,
    UnitRule::Category,
    UnitRule::InitialStop,
    UnitRule::Production,
    UnitRule::StartCap,
    UnitRule::StopCap,
    UnitRule::RampUp,
    UnitRule::RampDown,
];

/// Those on commitments, in their order: M1 to M5 and M7.
pub(crate) const COMMITMENT_RULES: [UnitRule; 6] = [
    UnitRule::MustRun,
    UnitRule::InitialUp,
    UnitRule::InitialDown,
    UnitRule::MinimumUp,
    UnitRule::MinimumDown,
    UnitRule::InitialStop,
];

impl UnitRule {
    /// The number n of the rule's name Mn.
    pub fn number(self) -> u8
        ensures { result ≡ rule_number (rule_of self) }
    {
        match self {
            UnitRule::MustRun => 1,
            UnitRule::InitialUp => 2,
            UnitRule::InitialDown => 3,
            UnitRule::MinimumUp => 4,
            UnitRule::MinimumDown => 5,
            UnitRule::Category => 6,
            UnitRule::InitialStop => 7,
            UnitRule::Production => 8,
            UnitRule::StartCap => 9,
            UnitRule::StopCap => 10,
            UnitRule::RampUp => 11,
            UnitRule::RampDown => 12,
        }
    }

    /// In how many periods the rule is looked at: M7 speaks of the first one alone.
    pub fn periods(self, periods: usize) -> usize
        ensures { result ≡ unit_periods self periods }
    {
        match self {
            UnitRule::InitialStop => 1,
            _ => periods,
        }
    }
}
