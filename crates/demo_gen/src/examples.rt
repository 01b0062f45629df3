//! Worked examples of the definition, as contracts: the check computes each of them.

ghost use Rattle.std.specs.Prelude.{◌≡◌, ◌/◌, ◌^◌};
ghost use Rattle.demo_gen.specs.Demo.{next_state, unit_numbers};

/// The numbers of the first unit and of the last one of the seed 0, and the high bits by which the first is drawn.
pub fn seed_0_by_example()
    ensures high_bits { next_state 0 / 2 ^ 33 ≡ 167951807 }
    ensures first { unit_numbers 0 0 ≡ record { minimum = 27; range = 125; time_up = 2; time_down = 5; low_cost = 15; high_cost = 17; start_cost = 1684 } }
    ensures last { unit_numbers 0 39 ≡ record { minimum = 35; range = 132; time_up = 8; time_down = 6; low_cost = 35; high_cost = 45; start_cost = 1498 } }
{}
