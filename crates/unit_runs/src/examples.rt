//! Worked examples of the definitions, as contracts: the check computes each of them.

ghost use Rattle.std.specs.Prelude.{◌≡◌, ◌==◌, nat_lt, None, Some, pos, neg_ℤ};
ghost use Rattle.unit_runs.specs.CostThrough.{run_cost};
ghost use Rattle.unit_runs.specs.Examples.{prices, resting, sinking};
ghost use Rattle.unit_runs.specs.Patterns.{run_hours};

/// The least values of runs of a unit that was on before at 10 W above its minimum, and of one that was off.
pub fn runs_are_computed()
    // it falls by 5 W at most, so that it can't stop at once; nor can it rise by less than that
    ensures kept { run_cost 1 (prices (pos 0) (pos 0)) sinking 0 1 ≡ Some (pos 150) }
    ensures stuck { run_cost 1 (prices (pos 0) (pos 0)) sinking 0 0 ≡ None }

    // an hour at 5 W above the minimum lets it stop, and so do two
    ensures stopped { run_cost 2 (prices (pos 0) (pos 0)) sinking 0 1 ≡ Some (pos 150) }
    ensures two { run_cost 2 (prices (pos 0) (pos 0)) sinking 0 2 ≡ Some (pos 250) }

    // a start gives 20 W at most, as output or as reserve: 300 for output that is paid 600, or 100 for reserve that is paid 60
    ensures output { run_cost 1 (prices (pos 20) (pos 0)) resting 0 1 ≡ Some (neg_ℤ (pos 300)) }
    ensures reserve { run_cost 1 (prices (pos 0) (pos 3)) resting 0 1 ≡ Some (pos 40) }

    // output lets the next hour give more, but before a stop it is 5 W at most
    ensures rising { run_cost 2 (prices (pos 20) (pos 0)) resting 0 2 ≡ Some (neg_ℤ (pos 800)) }
    ensures before_stop { run_cost 2 (prices (pos 20) (pos 0)) resting 0 1 ≡ Some (neg_ℤ (pos 150)) }
{}

/// The hours of a pattern's runs.
pub fn hours_are_computed()
    ensures first { run_hours 3 (λ t. t == 0) 0 ≡ 1 }
    ensures last { run_hours 3 (λ t. nat_lt 0 t) 1 ≡ 2 }
{}
