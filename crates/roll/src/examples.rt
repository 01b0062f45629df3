//! Worked examples of the definitions, as contracts: the check computes each of them.

ghost use Rattle.std.specs.Prelude.{◌≡◌, [], ◌∷◌, true, false, pos};
ghost use Rattle.uc_model.specs.Prelude.{InitialUp, MinimumUp, RampUp, StopCap, broken_rules, dollars, mw, off, printed_cost_of};
ghost use Rattle.uc_model.specs.Examples.{on};
ghost use Rattle.roll.specs.Examples.{low_stop_unit, on_at, second_hour, slow_unit, two_hour_unit, whole};
ghost use Rattle.roll.specs.Left.{is_too_high_to_stop, time_on_left, time_on_so_far, total_output};

/// At 15 MW in both hours a unit that ramps by 5 MW an hour keeps each rule, from 20 MW, and is left with what it gives and
/// the hours since before the first one.
pub fn two_hours_by_example()
    ensures output { total_output slow_unit (on 5 0 0) ≡ mw 15 }
    ensures time { time_on_so_far slow_unit 1 1 ≡ 2 }
    ensures second { broken_rules (second_hour slow_unit (on_at (mw 15) 2) (mw 15) (on 5 0 0)) ≡ [] }
    ensures obeys { broken_rules (whole slow_unit (mw 15) (mw 15) (pos 0) (on 5 0 0) (on 5 0 0)) ≡ [] }
    ensures cost { printed_cost_of (whole slow_unit (mw 15) (mw 15) (pos 0) (on 5 0 0) (on 5 0 0)) ≡ dollars 300 }
{}

/// A second hour from the first output of all, 20 MW, allows 25 MW, to which the whole would ramp by 10 MW.
pub fn output_is_carried_by_example()
    ensures own { broken_rules (second_hour slow_unit (on_at (mw 20) 2) (mw 25) (on 15 0 0)) ≡ [] }
    ensures carried { broken_rules (second_hour slow_unit (on_at (mw 15) 2) (mw 25) (on 15 0 0)) ≡ RampUp ∷ [] }
    ensures whole { broken_rules (whole slow_unit (mw 15) (mw 25) (pos 0) (on 5 0 0) (on 15 0 0)) ≡ RampUp ∷ [] }
{}

/// Output and reserve of 20 MW are above a shut-down limit of 15 MW. The output alone isn't, so only the time that is left
/// holds the unit on.
pub fn stop_cap_is_kept_by_example()
    ensures high { is_too_high_to_stop low_stop_unit (on 5 5 0) ≡ true }
    ensures low { is_too_high_to_stop low_stop_unit (on 5 0 0) ≡ false }
    ensures time { time_on_left low_stop_unit (on 5 5 0) 1 1 ≡ 0 }
    ensures own { broken_rules (second_hour low_stop_unit (on_at (mw 15) 2) (pos 0) off) ≡ [] }
    ensures carried { broken_rules (second_hour low_stop_unit (on_at (mw 15) 0) (pos 0) off) ≡ InitialUp ∷ [] }
    ensures whole { broken_rules (whole low_stop_unit (mw 15) (pos 0) (mw 5) (on 5 5 0) off) ≡ StopCap ∷ [] }
{}

/// A unit that started in the first hour, with a minimum up time of two, stays on in the second.
pub fn times_are_carried_by_example()
    ensures time { time_on_so_far two_hour_unit 1 1 ≡ 1 }
    ensures own { broken_rules (second_hour two_hour_unit (on_at (mw 15) 2) (pos 0) off) ≡ [] }
    ensures carried { broken_rules (second_hour two_hour_unit (on_at (mw 15) 1) (pos 0) off) ≡ InitialUp ∷ [] }
    ensures whole { broken_rules (whole two_hour_unit (mw 15) (pos 0) (pos 0) (on 5 0 1) off) ≡ MinimumUp ∷ [] }
{}
