//! Powers at prices.

ghost use Rattle.std.specs.Prelude.{◌≡◌, ◌≤◌, pos, ◌*ℤ◌, unsigned_abs};
ghost use Rattle.std.specs.Int.{int_max};
ghost use Rattle.uc_model.specs.Prelude.{IsPower};
ghost use Rattle.dual_model.specs.Prelude.{IsPrice};
ghost use Rattle.system_value.specs.Sizes.{MAX_CELL};

use uc_model::scaled;

/// The price times the power.
pub(crate) fn priced(price: i64, power: i64) -> i128
    requires price { IsPrice price }
    requires power { IsPower power }
    ensures value { result ≡ price *ℤ power }
    ensures size { unsigned_abs result ≤ MAX_CELL }
{
    scaled(price, power)
}

/// The power where it is above 0, else 0.
pub(crate) fn above_zero(power: i64) -> i64
    requires { IsPower power }
    ensures value { result ≡ int_max power (pos 0) }
    ensures size { IsPower result }
{
    power.max(0)
}
