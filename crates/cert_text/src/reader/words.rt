//! Lines that are lists of words.

ghost use Rattle.std.specs.Prelude.{ℕ, List, Option, IfOk, Ok, Err};
ghost use Rattle.cert_text.specs.inside.Forms.{Gives, signed_at, cell_at, words_at, row_at};
ghost use Rattle.cert_text.specs.inside.Parts.{GivesPart, line_of, rows_of};

use super::lines::take_cell;
use super::numbers::{take_byte, take_signed, take_text};
use super::stop::Stop;
use std::alloc::Global;
use uc_model::{Cell, List, NoMemory};

/// A word of a list.
pub(crate) trait Word<X> {
    ghost form: { Self → List ℕ → Option (X × List ℕ) };

    /// The word at the front of bytes.
    fn take<'a>(&self, bytes: &'a [u8]) -> Option<(X, &'a [u8])>
        ensures { Gives (λ r. (r.0, r.1.now)) result (form self.now bytes.now) };
}

/// A price, of at most 18 digits.
#[derive(Clone, Copy)]
pub(crate) struct Price;

impl Word<i64> for Price {
    ghost form = { λ _. signed_at 18 };

    fn take<'a>(&self, bytes: &'a [u8]) -> Option<(i64, &'a [u8])> {
        take_signed(bytes, 18)
    }
}

/// A power in watts, of at most 15 digits.
#[derive(Clone, Copy)]
pub(crate) struct Watts;

impl Word<i64> for Watts {
    ghost form = { λ _. signed_at 15 };

    fn take<'a>(&self, bytes: &'a [u8]) -> Option<(i64, &'a [u8])> {
        take_signed(bytes, 15)
    }
}

/// A cell of the schedule.
#[derive(Clone, Copy)]
pub(crate) struct CellWord;

impl Word<Cell> for CellWord {
    ghost form = { λ _. cell_at };

    fn take<'a>(&self, bytes: &'a [u8]) -> Option<(Cell, &'a [u8])> {
        take_cell(bytes)
    }
}

// So many words, each behind a space, in place of what the list had; and the bytes behind them.
fn take_words<'a, X: Copy, W: Word<X>>(
    word: &W,
    count: u32,
    bytes: &'a [u8],
    words: &mut Vec<X>,
) -> Result<Option<&'a [u8]>, NoMemory>
    ensures { IfOk result (λ r. Gives (λ rest. (words.new.items, rest.now)) r
        (words_at count (W.form word.now) bytes.now)) }
{
    words.clear();
    let mut rest = bytes;
    for _ in 0..count {
        let Some(behind) = take_byte(rest, b' ') else {
            return Ok(None);
        };
        let Some(taken) = word.take(behind) else {
            return Ok(None);
        };
        words.push(taken.0)?;
        rest = taken.1;
    }
    Ok(Some(rest))
}

/// The words of a line with this first word, in place of what the list had; and the bytes behind the line.
pub(crate) fn take_row<'a, X: Copy, W: Word<X>>(
    first: &[u8],
    word: &W,
    count: u32,
    bytes: &'a [u8],
    words: &mut Vec<X>,
) -> Result<&'a [u8], Stop<'a>>
    ensures { GivesPart (λ rest. (words.new.items, rest.now)) result
        (line_of (row_at first.now count (W.form word.now)) bytes.now) }
{
    let Some(rest) = take_text(bytes, first) else {
        return Err(Stop::At(bytes));
    };
    let Some(rest) = take_words(word, count, rest, words)? else {
        return Err(Stop::At(bytes));
    };
    match take_byte(rest, b'\n') {
        Some(rest) => Ok(rest),
        None => Err(Stop::At(bytes)),
    }
}

/// So many lines of words, with the same first word.
pub(crate) fn take_rows<'a, X: Copy, W: Word<X>>(
    alloc: Global,
    first: &[u8],
    word: &W,
    count: u32,
    periods: u32,
    bytes: &'a [u8],
) -> Result<(Vec<List<X>>, &'a [u8]), Stop<'a>>
    ensures { GivesPart (λ r. (r.0.items, r.1.now)) result
        (rows_of first.now count periods (W.form word.now) bytes.now) }
{
    let mut rows = Vec::new(alloc);
    let mut rest = bytes;
    for _ in 0..count {
        let mut words = Vec::new(alloc);
        let behind = take_row(first, word, periods, rest, &mut words)?;
        rows.push(List::from_vec(words))?;
        rest = behind;
    }
    Ok((rows, rest))
}
