//! The texts of money and power, with exactly six decimals.
ghost use Rattle.std.specs.Prelude.{◌≡◌, ◌+◌, ◌++◌, ◌≤◌, length, take};
ghost use Rattle.uc_model.specs.Decimal.{minus_text};
ghost use Rattle.uc_model.specs.Money.{millionths_text, money_text, six_digits};

use itoa::Buffer;

// A dollar in micro-dollars, and a megawatt in watts.
const MILLION: u32 = 1_000_000;

/// Writes `n` micro-dollars as dollars with six decimals into the front of the buffer, and returns
/// the length of the text, at most 41. What the buffer holds past the text is free.
pub fn write_money(n: i128, out: &mut [u8; 48]) -> usize
    ensures length { result ≡ length (money_text n) }
    ensures text { take result out.new ≡ money_text n }
    ensures short { result ≤ 41 }
{
    let start = write_minus(n, out);
    write_millionths(n.unsigned_abs(), out, start)
}

/// Writes `n` watts as megawatts with six decimals into the front of the buffer, and returns the
/// length of the text, at most 21. What the buffer holds past the text is free.
pub fn write_mw(n: i64, out: &mut [u8; 48]) -> usize
    ensures length { result ≡ length (money_text n) }
    ensures text { take result out.new ≡ money_text n }
    ensures short { result ≤ 21 }
{
    write_money(i128::from(n), out)
}

// Writes the minus of a number below nought, and returns how many bytes that took.
fn write_minus(n: i128, out: &mut [u8; 48]) -> usize
    ensures length { result ≡ length (minus_text n) }
    ensures text { take result out.new ≡ minus_text n }
{
    if n < 0 {
        out[0] = b'-';
        1
    } else {
        0
    }
}

// Writes the text of a size behind what stands before `start`, and returns where the text ends.
fn write_millionths(size: u128, out: &mut [u8; 48], start: usize) -> usize
    requires { start ≤ 1 }
    ensures length { result ≡ start + length (millionths_text size) }
    ensures text { take result out.new ≡ take start out.old ++ millionths_text size }
{
    let mut digits = Buffer::new();
    let whole = digits.format(size / u128::from(MILLION)).as_bytes();
    let point = start + whole.len();
    let end = point + 7;
    out[start..point].copy_from_slice(whole);
    out[point] = b'.';
    out[point + 1..end].copy_from_slice(&decimals((size % u128::from(MILLION)) as u32));
    end
}

// The last six digits, zeros too.
fn decimals(n: u32) -> [u8; 6]
    ensures { result ≡ six_digits n }
{
    let digit = |power: u32| b'0' + (n / power % 10) as u8;
    [
        digit(100_000),
        digit(10_000),
        digit(1_000),
        digit(100),
        digit(10),
        digit(1),
    ]
}
