//! Laws of the model, each the contract of a function with an empty body.

ghost use Rattle.std.specs.Prelude.{◌≡◌, ℕ, ◌*◌, ◌^◌, ◌<◌, ◌≤◌, pos, ◌*ℤ◌, ◌≤ℤ◌, ◌<ℤ◌, ℤ, Bool, IsTrue, not, ◌&&◌, unsigned_abs};
ghost use Rattle.uc_model.specs.Division.{IsCeiling, quotient_up};
ghost use Rattle.uc_model.specs.Commitment.{Thermal, Commitment, state_before, starts, is_allowed, cap, KeepsMinimumTimes};
ghost use Rattle.uc_model.specs.PatternBits.{Pattern, commitment_of};
ghost use Rattle.uc_model.specs.ExtremePatterns.{IsMostOn, IsFewestOn, HasExactlyOne};
ghost use Rattle.uc_model.specs.StartCategory.{is_category_allowed, category_cost, last_stop, sigma};
ghost use Rattle.uc_model.specs.Schedule.{Instance, Schedule, thermal_unit, thermal_count};
ghost use Rattle.uc_model.specs.Rules.{Obeys};
ghost use Rattle.uc_model.specs.Cost.{cost};
ghost use Rattle.uc_model.specs.PrintedSchedule.{Printed, printed_denominator, printed_schedule, printed_cost};
ghost use Rattle.uc_model.specs.Limits.{IsLawfulInstance, IsLawfulThermal, COST_MAX};

/// With minimum times of at least 1, M4 and M5 exclude a start and a stop in one period, also where starts
/// `up` and stops `down` are variables of their own as in the reference model; so both follow from the state.
pub fn starts_and_stops_follow_from_the_state()
    ensures excluded { (initial : Bool) (on up down : Commitment) (periods time_up time_down : ℕ)
        → 1 ≤ time_up → 1 ≤ time_down → KeepsMinimumTimes initial on up down periods time_up time_down
        → (t : ℕ) → t < periods → IsTrue (up t) → IsTrue (down t) → ⊥ }
    ensures starts { (initial : Bool) (on up down : Commitment) (periods time_up time_down : ℕ)
        → 1 ≤ time_up → 1 ≤ time_down → KeepsMinimumTimes initial on up down periods time_up time_down
        → (t : ℕ) → t < periods → up t ≡ (not (state_before initial on t) && on t) }
    ensures stops { (initial : Bool) (on up down : Commitment) (periods time_up time_down : ℕ)
        → 1 ≤ time_up → 1 ≤ time_down → KeepsMinimumTimes initial on up down periods time_up time_down
        → (t : ℕ) → t < periods → down t ≡ (state_before initial on t && not (on t)) }
{}

/// A pattern is told by its periods: two that are on in the same ones are equal, bits past the periods included.
pub fn patterns_are_told_by_their_periods()
    ensures { (a b : Pattern) → a.low < 2 ^ 128 → b.low < 2 ^ 128 → a.high < 2 ^ 64 → b.high < 2 ^ 64
        → ((t : ℕ) → commitment_of a t ≡ commitment_of b t) → a ≡ b }
{}

/// A unit with an allowed pattern has exactly one with the most on periods, and exactly one with the fewest.
pub fn most_and_fewest_on_patterns_are_unique()
    ensures most { (periods : ℕ) (unit : Thermal) (on : Commitment) → 1 ≤ periods → IsLawfulThermal unit
        → IsTrue (is_allowed periods unit on) → HasExactlyOne periods (IsMostOn periods unit) }
    ensures fewest { (periods : ℕ) (unit : Thermal) (on : Commitment) → 1 ≤ periods → IsLawfulThermal unit
        → IsTrue (is_allowed periods unit on) → HasExactlyOne periods (IsFewestOn periods unit) }
{}

/// A schedule that obeys has a cap of at least 0 in each period of each unit, so its commitments are
/// allowed patterns.
pub fn obeying_commitments_are_allowed()
    ensures caps { (instance : Instance) (q : ℕ) (x : Schedule) (g t : ℕ) → IsLawfulInstance instance
        → Obeys instance q x → g < thermal_count instance → t < instance.periods
        → IsTrue ((x.thermal g).on t) → pos 0 ≤ℤ cap instance.periods (thermal_unit instance g) (x.thermal g).on t }
    ensures allowed { (instance : Instance) (q : ℕ) (x : Schedule) (g : ℕ) → IsLawfulInstance instance
        → Obeys instance q x → g < thermal_count instance
        → IsTrue (is_allowed instance.periods (thermal_unit instance g) (x.thermal g).on) }
{}

/// The cost of a schedule that obeys is at most `COST_MAX` micro-dollars in size.
pub fn costs_fit()
    ensures { (instance : Instance) (q : ℕ) (x : Schedule) → IsLawfulInstance instance
        → Obeys instance q x → unsigned_abs (cost instance q x) ≤ q * COST_MAX }
{}

/// A printed schedule that obeys costs at most its printed cost, which is at most `COST_MAX` micro-dollars in size.
pub fn printed_costs_are_upper_bounds()
    ensures bound { (instance : Instance) (printed : Printed) → IsLawfulInstance instance
        → (let q = printed_denominator instance printed in let x = printed_schedule instance printed q in
        Obeys instance q x → cost instance q x ≤ℤ (pos q *ℤ printed_cost instance printed)) }
    ensures fits { (instance : Instance) (printed : Printed) → IsLawfulInstance instance
        → (let q = printed_denominator instance printed in Obeys instance q (printed_schedule instance printed q))
        → unsigned_abs (printed_cost instance printed) ≤ COST_MAX }
{}

/// The least start cost by the last stop is never above the cost of a category that M6 allows at a start.
pub fn least_start_costs_are_lower_bounds()
    ensures { (unit : Thermal) (on : Commitment) (s t : ℕ) → IsTrue (starts unit on t)
        → IsTrue (is_category_allowed unit on s t) → sigma unit (last_stop unit on t) t ≤ℤ category_cost unit s }
{}

/// A quotient rounded up, as the hull's value is, is the ceiling.
pub fn quotients_up_are_ceilings()
    ensures { (a b : ℤ) → pos 0 <ℤ b → IsCeiling a b (quotient_up a b) }
{}
