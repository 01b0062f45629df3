//! Changing the table before into the next one. The changes come in their order, so the ramp rows are gone along once.

ghost use Rattle.std.specs.Prelude.{◌≡◌, ◌<◌, ◌∷◌, [], ◌++◌, ◌&&◌, pos, not, false, true, None, length, slice_index_or, slice_set, option_map, IfOk, OnOk, MatchOption, Ok, Err};
ghost use Rattle.std.specs.Ordering.{int_eq};
ghost use Rattle.dual_model.specs.Prelude.{AreRising, row_of};
ghost use Rattle.table_list.specs.Changes.{is_before, is_none, placed, with_row};
ghost use Rattle.cert_text.specs.inside.Forms.{comes_behind, is_other, change_at};
ghost use Rattle.cert_text.specs.inside.Drafts.{drafted, so_far, LieBefore, starts_before, differs, IsPassed, IsRowSet, HasPrice, ArePriced, IsUnderway, IsMade};
ghost use Rattle.table_list.specs.TableChanges.{change_of};
ghost use Rattle.cert_text.specs.inside.Parts.{GivesPart, line_of, changed_part, sizes};

use super::changes::{comes_behind, take_change};
use super::draft::Draft;
use super::sizes::Size;
use super::stop::Stop;
use dual_model::RampRow;
use table_list::{Change, is_before, no_row};
use uc_model::NoMemory;

// Sets the price of period t, counted from 0, and answers whether it is another one than before.
fn set_price(prices: &mut Vec<i64>, t: usize, price: i64) -> bool
    requires { t < length prices.old.items }
    ensures other { result ≡ not (int_eq (slice_index_or prices.old.items t (pos 0)) price) }
    ensures set { prices.new.items ≡ slice_set prices.old.items t price }
{
    let other = prices[t] != price;
    prices[t] = price;
    other
}

// The first row and those behind it, where it comes before this row.
fn split_before<'b>(rows: &'b [RampRow], row: &RampRow) -> Option<(RampRow, &'b [RampRow])>
    ensures { MatchOption result (starts_before row.now rows.now ≡ false)
        (λ r. (rows.now ≡ r.0 ∷ r.1.now) × (is_before r.0 row.now ≡ true)) }
{
    match rows {
        [] => None,
        [first, behind @ ..] => {
            if is_before(first, row) {
                Some((*first, behind))
            } else {
                None
            }
        }
    }
}

// The rows that come before this row go behind those that are done. It answers the others.
fn pass_before<'b>(
    done: &mut Vec<RampRow>,
    left: &'b [RampRow],
    row: &RampRow,
) -> Result<&'b [RampRow], NoMemory>
    requires before { LieBefore done.old.items row.now }
    requires rising { AreRising left.now }
    ensures { IfOk result (λ rest. IsPassed done.old.items left.now row.now done.new.items rest.now) }
{
    let mut rest = left;
    while let Some((first, behind)) = split_before(rest, row) {
        done.push(first)?;
        rest = behind;
    }
    Ok(rest)
}

// The row of this one's unit and period, all 0 where there is none, and the rows behind it, of rising rows none of which comes
// before this one.
fn split_cell<'b>(left: &'b [RampRow], row: &RampRow) -> (RampRow, &'b [RampRow])
    requires front { starts_before row.now left.now ≡ false }
    requires rising { AreRising left.now }
    ensures old { result.0 ≡ row_of left.now row.now.g row.now.t }
    ensures behind { with_row left.now row.now ≡ placed row.now result.1.now }
    ensures rising { AreRising result.1.now }
{
    match left {
        [] => (no_row(row), left),
        [first, behind @ ..] => {
            if is_before(row, first) {
                (no_row(row), left)
            } else {
                (*first, behind)
            }
        }
    }
}

// The row has other numbers.
fn differs(old: &RampRow, row: &RampRow) -> bool
    ensures { result ≡ differs old.now row.now }
{
    old.up != row.up || old.down != row.down
}

fn is_none(row: &RampRow) -> bool
    ensures { result ≡ is_none row.now }
{
    row.up == 0 && row.down == 0
}

// The row goes behind the others, unless it is all 0.
fn push_some(rows: &mut Vec<RampRow>, row: &RampRow) -> Result<(), NoMemory>
    ensures { OnOk result (rows.new.items ≡ rows.old.items ++ placed row.now []) }
{
    if !is_none(row) {
        rows.push(*row)?;
    }
    Ok(())
}

// Puts a row in place of that of its unit and period, and answers the rows that are left behind it; nothing where it is the same.
fn set_row<'b>(
    done: &mut Vec<RampRow>,
    left: &'b [RampRow],
    row: &RampRow,
) -> Result<Option<&'b [RampRow]>, NoMemory>
    requires before { LieBefore done.old.items row.now }
    requires rising { AreRising left.now }
    ensures { IfOk result (λ r. MatchOption r (differs (row_of (done.old.items ++ left.now) row.now.g row.now.t) row.now ≡ false)
        (λ rest. IsRowSet done.old.items left.now row.now done.new.items rest.now)) }
{
    let rest = pass_before(done, left, row)?;
    let (old, behind) = split_cell(rest, row);
    if !differs(&old, row) {
        return Ok(None);
    }
    push_some(done, row)?;
    Ok(Some(behind))
}

// Makes a change of the table so far, and answers the ramp rows that are left then; nothing where the change doesn't come behind
// the last one, or says what the table has.
fn make_change<'b>(
    last: &Option<Change>,
    change: &Change,
    left: &'b [RampRow],
    draft: &mut Draft,
) -> Result<Option<&'b [RampRow]>, NoMemory>
    requires price { HasPrice (so_far draft.old left.now) (change_of change.now) }
    requires underway { IsUnderway draft.old left.now (option_map change_of last.now) }
    ensures { IfOk result (λ r. MatchOption r
        ((comes_behind (option_map change_of last.now) (change_of change.now) && is_other (so_far draft.old left.now) (change_of change.now)) ≡ false)
        (λ rest. IsMade draft.old left.now (option_map change_of last.now) (change_of change.now) draft.new rest.now)) }
{
    if !comes_behind(last, change) {
        return Ok(None);
    }
    match change {
        Change::Demand { t, price } => Ok(set_price(&mut draft.pi, *t, *price).then_some(left)),
        Change::Reserve { t, price } => Ok(set_price(&mut draft.mu, *t, *price).then_some(left)),
        Change::Ramps(row) => set_row(&mut draft.ramps, left, row),
    }
}

// The line of a change, which is made in the table so far; with the ramp rows that are left then.
fn take_made_change<'a, 'b>(
    size: &Size,
    last: &Option<Change>,
    bytes: &'a [u8],
    left: &'b [RampRow],
    draft: &mut Draft,
) -> Result<(Change, &'a [u8], &'b [RampRow]), Stop<'a>>
    requires priced { ArePriced size.now.periods draft.old }
    requires underway { IsUnderway draft.old left.now (option_map change_of last.now) }
    ensures read { GivesPart (λ r. (change_of r.0, r.1.now)) result
        (line_of (change_at (sizes size.now) (so_far draft.old left.now) (option_map change_of last.now)) bytes.now) }
    ensures made { IfOk result (λ r. IsMade draft.old left.now (option_map change_of last.now) (change_of r.0) draft.new r.2.now) }
{
    let Some((change, rest)) = take_change(bytes, size) else {
        return Err(Stop::At(bytes));
    };
    match make_change(last, &change, left, draft)? {
        Some(left) => Ok((change, rest, left)),
        None => Err(Stop::At(bytes)),
    }
}

/// So many changes of the table that the draft has but for its ramp rows, which are the old ones. The draft has the numbers of the
/// changed table then.
pub(crate) fn take_changes<'a>(
    size: &Size,
    count: u64,
    old: &[RampRow],
    bytes: &'a [u8],
    draft: &mut Draft,
) -> Result<&'a [u8], Stop<'a>>
    requires priced { ArePriced size.now.periods draft.old }
    requires rising { AreRising old.now }
    ensures { GivesPart (λ rest. (drafted draft.new draft.new.ramps.items, rest.now)) result
        (changed_part (sizes size.now) count (drafted draft.old old.now) None bytes.now) }
{
    draft.ramps.clear();
    let mut left = old;
    let mut last = None;
    let mut rest = bytes;
    for _ in 0..count {
        let (change, behind, others) = take_made_change(size, &last, rest, left, draft)?;
        last = Some(change);
        rest = behind;
        left = others;
    }
    draft.ramps.extend_from_slice(left)?;
    Ok(rest)
}
