//! Worked examples of the definitions, as contracts: the check computes each of them.

ghost use Rattle.std.specs.Prelude.{◌≡◌, [], pos, neg_ℤ, ◌∷◌, true, false};
ghost use Rattle.uc_model.specs.Prelude.{cost, base_unit, two_category_unit, uneven_unit, mw, dollars};
ghost use Rattle.dual_model.specs.Fixings.{HasEmptyUnit};
ghost use Rattle.dual_model.specs.LeastStarts.{cost_by_least_starts};
ghost use Rattle.dual_model.specs.UnitValue.{IsUnitValue};
ghost use Rattle.dual_model.specs.ExactValue.{floored_cost, IsExactUnitValue};
ghost use Rattle.dual_model.specs.Term.{IsTerm};
ghost use Rattle.dual_model.specs.Tree.{root};
ghost use Rattle.dual_model.specs.Examples.{alone, windy, idle, restarting, two_units, mixed, shedding, lacking, energy, hour, ray, ramp_ray, zero_prices, mixed_prices, decided, IsRootValue, IsExactRootValue, IsValueAt, slow_unit, sinking_unit, concave_unit, stuck_unit, unstartable_unit, three_watts, scaled_dollars, MILLION};

/// Bounds on cost: a table's value is K times micro-dollars.
pub fn bounds_are_computed()
    // 10 dollars a MWh for a demand of 30 MW, which just covers the unit's cost
    ensures single { IsRootValue (alone base_unit 30 5) (energy (mw 10)) (scaled_dollars 300) }

    // the hull runs past the middle point
    ensures hull { IsRootValue (alone concave_unit 10 0) (energy (mw 6)) (scaled_dollars 60) }

    // a dearer unit beside the first
    ensures two { IsRootValue two_units (energy (mw 10)) (scaled_dollars 300) }

    // every kind of multiplier
    ensures mixed { IsRootValue mixed mixed_prices (scaled_dollars 159) }
{}

/// Shortages at a price: 60 MW and 5 MW of reserve of a unit of 50 MW.
pub fn shortages_are_computed()
    // at the price of unserved demand the bound meets the least cost, and above it falls by what may be unserved
    ensures met { IsRootValue shedding (hour MILLION (mw 100) (mw 90) []) (scaled_dollars 1950) }
    ensures passed { IsRootValue shedding (hour MILLION (mw 101) (mw 90) []) (scaled_dollars 1900) }
    ensures below { IsRootValue shedding (energy (mw 10)) (scaled_dollars 600) }

    // the same with a price for missing reserve
    ensures both { IsRootValue lacking (hour MILLION (mw 100) (mw 20) []) (scaled_dollars 1600) }
    ensures both_passed { IsRootValue lacking (hour MILLION (mw 100) (mw 21) []) (scaled_dollars 1600) }

    // the ray that told that 10 MW are short tells nothing any more
    ensures ray { IsRootValue shedding (ray (pos 1) (pos 0)) (neg_ℤ (mw 50)) }
{}

/// Rays: a value above 0 leaves no schedule.
pub fn rays_are_computed()
    // 60 MW are wanted of a unit of 50
    ensures short { IsRootValue (alone base_unit 60 5) (ray (pos 1) (pos 0)) (mw 10) }

    // 30 MW of a unit that ramps up by 5 MW from 20: only the ray of its ramp tells
    ensures demand { IsRootValue (alone slow_unit 30 5) (ray (pos 1) (pos 0)) (neg_ℤ (mw 20)) }
    ensures surplus { IsRootValue (alone slow_unit 30 5) (ray (neg_ℤ (pos 1)) (pos 0)) (neg_ℤ (mw 30)) }
    ensures both { IsRootValue (alone slow_unit 30 5) (ray (pos 1) (pos 1)) (neg_ℤ (mw 15)) }
    ensures reserve { IsRootValue (alone slow_unit 30 5) (ray (pos 0) (pos 1)) (neg_ℤ (mw 35)) }
    ensures ramp { IsRootValue (alone slow_unit 30 5) (ramp_ray (pos 1) (pos 1)) (mw 5) }

    // a reserve of 21 MW beside 30 of 50
    ensures reserve_short { IsRootValue (alone base_unit 30 21) (ray (pos 1) (pos 1)) (mw 1) }

    // a unit that can't start
    ensures no_start { IsRootValue (alone unstartable_unit 30 0) (ray (pos 1) (pos 0)) (mw 30) }

    // a renewable unit of 5 MW, which holds no reserve
    ensures wind_short { IsRootValue (windy 6 0) (ray (pos 1) (pos 0)) (mw 1) }
    ensures no_reserve { IsRootValue (windy 0 5) (ray (pos 0) (pos 1)) (mw 5) }
{}

/// Values at nodes at which the unit's pattern is decided.
pub fn decided_nodes_are_computed()
    // 5 MW are less than the minimum: off is too little, and on too much
    ensures off { IsValueAt (alone base_unit 5 0) (decided (false ∷ [])) (ray (pos 1) (pos 0)) (mw 5) }
    ensures on { IsValueAt (alone base_unit 5 0) (decided (true ∷ [])) (ray (neg_ℤ (pos 1)) (pos 0)) (mw 5) }
    ensures turned { IsValueAt (alone base_unit 5 0) (decided (false ∷ [])) (ray (neg_ℤ (pos 1)) (pos 0)) (neg_ℤ (mw 5)) }

    // two starts: one costs 50 dollars, and one 200, as the cheaper category is barred
    ensures barred { IsValueAt (idle two_category_unit 3) (decided (true ∷ false ∷ true ∷ [])) zero_prices (scaled_dollars 450) }

    // a start an hour after a stop costs 10 dollars by the last stop alone
    ensures last_stop { let on_but_fifth = true ∷ true ∷ true ∷ true ∷ false ∷ true ∷ [] in
        IsValueAt (idle uneven_unit 6) (decided on_but_fifth) zero_prices (scaled_dollars 510) }

    // a unit that must run, and may not
    ensures empty { HasEmptyUnit (alone stuck_unit 30 5) root }
{}

/// What a schedule costs by its category, and by least starts: that is the value of its node, `last_stop` above.
pub fn least_starts_are_computed()
    // five hours at 100 dollars, and a start at 50, or at 10 by the last stop alone
    ensures category { cost (idle uneven_unit 6) 1 restarting ≡ dollars 550 }
    ensures least { cost_by_least_starts (idle uneven_unit 6) 1 restarting ≡ dollars 510 }
{}

/// Terms of cells.
pub fn terms_are_computed()
    // 15 MW above the minimum at a price of 20 dollars a MWh
    ensures priced { IsTerm base_unit.points MILLION (neg_ℤ (mw 20)) (pos 0) (mw 15) (neg_ℤ (scaled_dollars 50)) }

    // the floor of -4/3, and that of -2/3
    ensures down { IsTerm (three_watts (pos 1)) (pos 1) (neg_ℤ (pos 1)) (pos 0) (pos 2) (neg_ℤ (pos 2)) }
    ensures below_nought { IsTerm (three_watts (neg_ℤ (pos 1))) (pos 1) (pos 0) (pos 0) (pos 2) (neg_ℤ (pos 1)) }
{}

/// Exact values: a unit at 20 MW that can fall by 5 MW can't be off, though its patterns say that it may.
pub fn exact_values_are_computed()
    ensures off { IsUnitValue (alone sinking_unit 30 0) root (zero_prices (alone sinking_unit 30 0)) 0 (pos 0) }
    ensures kept { IsExactUnitValue (alone sinking_unit 30 0) root (zero_prices (alone sinking_unit 30 0)) 0 (scaled_dollars 150) }

    // 5 MW are too little for it, which no ray without ramps tells of the value V
    ensures unpriced { IsRootValue (alone sinking_unit 5 0) (ray (neg_ℤ (pos 1)) (pos 0)) (neg_ℤ (mw 5)) }
    ensures exact { IsExactRootValue (alone sinking_unit 5 0) (ray (neg_ℤ (pos 1)) (pos 0)) (mw 10) }

    // a slope of 1/3 counts as 0 and one of -1/3 as -1, over each denominator
    ensures up { floored_cost (three_watts (pos 1)) (pos 1) 1 3 ≡ pos 0 }
    ensures down { floored_cost (three_watts (neg_ℤ (pos 1))) (pos 1) 1 3 ≡ neg_ℤ (pos 3) }
    ensures halves { floored_cost (three_watts (neg_ℤ (pos 1))) (pos 1) 2 3 ≡ neg_ℤ (pos 3) }
{}
