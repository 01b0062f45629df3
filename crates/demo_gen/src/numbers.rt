//! The numbers that are drawn of a thermal unit.

ghost use Rattle.std.specs.Prelude.{◌≡◌};
ghost use Rattle.demo_gen.specs.Demo.{numbers_from, state_after};

use crate::generator::Generator;

/// What is drawn of a thermal unit, in whole megawatts, hours and dollars.
#[derive(Clone, Copy)]
pub(crate) struct Numbers {
    /// The least output while on.
    pub minimum: u32,
    /// How much more is the greatest output.
    pub range: u32,
    pub time_up: u32,
    pub time_down: u32,
    /// The cost of a megawatt-hour in the lower half of the range, and in the upper one.
    pub low_cost: u32,
    pub high_cost: u32,
    /// The cost of a start after the minimum down time.
    pub start_cost: u32,
}

/// Draws the numbers of the next unit.
pub(crate) fn next_numbers(generator: &mut Generator) -> Numbers
    ensures numbers { result ≡ numbers_from generator.old.state }
    ensures state { generator.new.state ≡ state_after generator.old.state 7 }
{
    let minimum = 20 + generator.draw(31);
    let range = 40 + generator.draw(161);
    let time_up = 1 + generator.draw(8);
    let time_down = 1 + generator.draw(8);
    let low_cost = 10 + generator.draw(30);
    let high_cost = low_cost + 1 + generator.draw(10);
    let start_cost = 500 + generator.draw(1500);
    Numbers {
        minimum,
        range,
        time_up,
        time_down,
        low_cost,
        high_cost,
        start_cost,
    }
}
