//! Texts of numbers.

ghost use Rattle.std.specs.Prelude.{◌≡◌, ◌∷◌, ◌++◌, [], suc};
ghost use Rattle.uc_model.specs.Decimal.{whole_text, signed_text};
ghost use Rattle.uc_model.specs.Money.{money_text};
ghost use Rattle.outside.specs.Lines.{line};

use crate::out::Out;
use itoa::Buffer;
use uc_model::{money_digits, signed_digits, whole_digits};

/// Puts the digits of a number.
pub fn put_whole<O: Out>(out: &mut O, number: u64)
    ensures { O.emits (whole_text number) out.old out.new }
{
    out.put(whole_digits(&mut Buffer::new(), number));
}

// The digits of the place, from 1, of what stands at `index`, from 0.
fn place_digits(buffer: &mut Buffer, index: usize) -> &[u8]
    ensures { result.now ≡ whole_text (suc index) }
{
    buffer.format(index as u128 + 1).as_bytes()
}

/// Puts a number after the words that say its meaning.
pub fn put_count<O: Out>(out: &mut O, words: &[u8], number: u64)
    ensures { O.emits (words.now ++ whole_text number) out.old out.new }
{
    out.put(words);
    put_whole(out, number);
}

/// Puts the place, from 1, of what stands at `index`, from 0.
pub fn put_place<O: Out>(out: &mut O, index: usize)
    ensures { O.emits (whole_text (suc index)) out.old out.new }
{
    out.put(place_digits(&mut Buffer::new(), index));
}

/// Puts the digits of a number of any sign, with a minus where it is below nought.
pub fn put_signed<O: Out>(out: &mut O, number: &i64)
    ensures { O.emits (signed_text number.now) out.old out.new }
{
    out.put(signed_digits(&mut Buffer::new(), *number));
}

/// Puts micro-dollars as dollars, or watts as megawatts, with six decimals.
pub fn put_money<O: Out>(out: &mut O, amount: &i128)
    ensures { O.emits (money_text amount.now) out.old out.new }
{
    out.put(money_digits(&mut [0; 48], *amount));
}

/// The same of an amount that 64 bits hold.
pub fn put_amount<O: Out>(out: &mut O, amount: &i64)
    ensures { O.emits (money_text amount.now) out.old out.new }
{
    out.put(money_digits(&mut [0; 48], i128::from(*amount)));
}

/// Puts a line of one number, of which its words say the meaning.
pub fn put_whole_line<O: Out>(out: &mut O, words: &[u8], number: u64)
    ensures { O.emits (line words.now (whole_text number ∷ [])) out.old out.new }
{
    out.put(words);
    out.put(b" ");
    put_whole(out, number);
    out.put(b"\n");
}

/// Puts a line of one amount of money, of which its words say the meaning.
pub fn put_money_line<O: Out>(out: &mut O, words: &[u8], amount: &i128)
    ensures { O.emits (line words.now (money_text amount.now ∷ [])) out.old out.new }
{
    out.put(words);
    out.put(b" ");
    put_money(out, amount);
    out.put(b"\n");
}
