//! The texts of whole numbers, as bytes in a buffer of the caller's.

ghost use Rattle.std.specs.Prelude.{◌≡◌};
ghost use Rattle.uc_model.specs.Decimal.{whole_text, signed_text};
ghost use Rattle.uc_model.specs.Money.{money_text};

use crate::money::write_money;
use itoa::Buffer;

/// The digits of a number, without leading zeros.
pub fn whole_digits(buffer: &mut Buffer, n: u64) -> &[u8]
    ensures { result.now ≡ whole_text n }
{
    buffer.format(n).as_bytes()
}

/// The digits of a number of any sign, with a minus where it is below nought.
pub fn signed_digits(buffer: &mut Buffer, n: i64) -> &[u8]
    ensures { result.now ≡ signed_text n }
{
    buffer.format(n).as_bytes()
}

/// Micro-dollars as dollars, or watts as megawatts, with six decimals.
pub fn money_digits(buffer: &mut [u8; 48], n: i128) -> &[u8]
    ensures { result.now ≡ money_text n }
{
    let length = write_money(n, buffer);
    &buffer[..length]
}
