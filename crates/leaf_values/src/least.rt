//! How large a value is to be.

ghost use Rattle.std.specs.Prelude.{◌↔◌, pos, ◌<ℤ◌, ◌≤ℤ◌, IsTrue};
ghost use Rattle.leaf_values.specs.Reached.{least_value};

use uc_model::floor_div;

/// A least value, as so many times a scale above 0. The product may have more than 128 bits.
#[derive(Clone, Copy)]
pub struct Least {
    pub times: i128,
    pub scale: i64,
}

impl Least {
    /// Whether a value is this or more.
    pub fn is_reached(&self, value: i128) -> bool
        requires { pos 0 <ℤ self.now.scale }
        ensures { IsTrue result ↔ (least_value self.now ≤ℤ value) }
    {
        floor_div(value, i128::from(self.scale)) >= self.times
    }
}
