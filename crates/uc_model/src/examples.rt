//! Worked examples of the definitions, as contracts: the check computes each of them.

ghost use Rattle.std.specs.Prelude.{◌≡◌, List, [], ◌∷◌, true, false, Some, map, pos, neg_ℤ};
ghost use Rattle.uc_model.specs.Sums.{all_below};
ghost use Rattle.uc_model.specs.Commitment.{cap};
ghost use Rattle.uc_model.specs.StartCategory.{is_category_allowed, sigma};
ghost use Rattle.uc_model.specs.Rules.{Rule, RampDown, StopCap, ShedRange, ShortRange, rule_number};
ghost use Rattle.uc_model.specs.Hull.{segment_at, hull_cost};
ghost use Rattle.uc_model.specs.Examples.{mw, dollars, obeying, breaking, all_rules, broken_rules, two_category_unit, on_off_on, uneven_unit, one_stop, two_stops, weak_start_unit, pattern, stopping, printed_cost_of, bent_unit, rising_unit, falling_unit, rule_at_period, ramp_down_between_on_periods, stop_cap_in_stop_period, shed_below_nought, short_below_nought, short_above_need, shed_alone, shed_and_short, halved, half_missing, is_whole_in};

/// For each rule there is a schedule that breaks it and no other rule, and there is one that obeys all.
pub fn each_rule_is_told_apart()
    ensures numbers { map rule_number all_rules ≡ 1 ∷ 2 ∷ 3 ∷ 4 ∷ 5 ∷ 6 ∷ 7 ∷ 8 ∷ 9 ∷ 10 ∷ 11 ∷ 12 ∷ 13 ∷ 14 ∷ 15 ∷ 16 ∷ 17 ∷ [] }
    ensures obeying { broken_rules obeying ≡ [] }
    ensures breaking { (rule : Rule) → broken_rules (breaking rule) ≡ rule ∷ [] }
    ensures shed_low { broken_rules shed_below_nought ≡ ShedRange ∷ [] }
    ensures short_low { broken_rules short_below_nought ≡ ShortRange ∷ [] }
    ensures short_high { broken_rules short_above_need ≡ ShortRange ∷ [] }
{}

/// Demand and reserve that are missing at a price, and a schedule in half watts; parts of a micro-dollar are rounded up.
pub fn shortages_and_denominators_by_example()
    ensures shed { broken_rules shed_alone ≡ [] }
    ensures shed_cost { printed_cost_of shed_alone ≡ dollars 1950 }
    ensures both { broken_rules shed_and_short ≡ [] }
    ensures both_cost { printed_cost_of shed_and_short ≡ dollars 1600 }
    ensures halved { broken_rules halved ≡ [] }
    ensures halved_cost { printed_cost_of halved ≡ dollars 300 }
    ensures rounded_up { printed_cost_of half_missing ≡ pos 11 }
    ensures whole_watts { is_whole_in halved 1 ≡ true }
    ensures half_watts { is_whole_in half_missing 1 ≡ false }
    ensures in_halves { is_whole_in half_missing 2 ≡ true }
{}

/// Start categories by the stops and by the initial time off, and the least start cost by the last stop.
pub fn start_categories_by_example()
    // off for two hours initially: a start in the first period may be hot, one in the third is barred from it
    ensures hot { is_category_allowed two_category_unit on_off_on 1 0 ≡ true }
    ensures barred { is_category_allowed two_category_unit on_off_on 1 2 ≡ false }
    ensures cold { is_category_allowed two_category_unit on_off_on 2 2 ≡ true }
    ensures cold_cost { sigma two_category_unit (Some 1) 2 ≡ dollars 200 }

    // a start in the sixth period: the cheap second category wants a stop in the second or third
    ensures without_stop { is_category_allowed uneven_unit one_stop 2 5 ≡ false }
    ensures with_stop { is_category_allowed uneven_unit two_stops 2 5 ≡ true }
    ensures first { is_category_allowed uneven_unit one_stop 1 5 ≡ true }
    ensures least { sigma uneven_unit (Some 4) 5 ≡ dollars 10 }
{}

/// A cap below 0, and the hull's value and segment where the points aren't convex or the value isn't whole.
pub fn caps_and_hulls_by_example()
    ensures cap { cap 1 weak_start_unit (pattern (true ∷ [])) 0 ≡ neg_ℤ (mw 5) }
    ensures bent { hull_cost bent_unit.points 1 (mw 10) ≡ dollars 60 }
    ensures segment { segment_at bent_unit.points 1 (mw 10) ≡ Some (record { left = 0; right = 2 }) }
    ensures halves { hull_cost bent_unit.points 2 (mw 15) ≡ dollars 45 }
    ensures rounded_up { hull_cost rising_unit.points 1 (pos 1) ≡ pos 1 }
    ensures rounded_to_zero { hull_cost falling_unit.points 1 (pos 2) ≡ pos 0 }
{}

/// Ramps hold in the hour of a stop too, and the shut-down limit counts in the hour before it.
pub fn stops_by_example()
    ensures obeys { broken_rules stopping ≡ [] }
    ensures cost { printed_cost_of stopping ≡ dollars 150 }
    ensures stop_hour { rule_at_period (breaking RampDown) RampDown 1 ≡ false }
    ensures hour_before { rule_at_period (breaking RampDown) RampDown 0 ≡ true }

    // a test of ramps between on periods alone would pass the first of these schedules, and a shut-down
    // limit in the hour of the stop would refuse the second
    ensures between_on_periods { all_below 2 (ramp_down_between_on_periods (breaking RampDown)) ≡ true }
    ensures in_stop_period { stop_cap_in_stop_period stopping 1 ≡ false }
    ensures before_stop { rule_at_period stopping StopCap 0 ≡ true }
{}
