//! The lines of a table that is told by its difference to the one before it.

ghost use Rattle.std.specs.Prelude.{◌≡◌, false, true, option_map};
ghost use Rattle.cert_text.specs.inside.Forms.{Gives, passing, next_at, price_at, written_change_at, is_within, comes_before, comes_behind};
ghost use Rattle.table_list.specs.TableChanges.{change_of};
ghost use Rattle.cert_text.specs.inside.Parts.{sizes};

use super::lines::take_row_numbers;
use super::numbers::{below, take_count_to, take_ordinal_to, take_signed_to, take_text};
use super::sizes::Size;
use dual_model::RampRow;
use table_list::{Change, is_before};

/// The first line of such a table.
#[derive(Clone, Copy)]
pub(crate) struct Next {
    /// The table's scale.
    pub(crate) k: u64,
    /// How many changes follow.
    pub(crate) changes: u64,
}

/// The scale, and how many changes follow.
#[tactic(auto, unfolding(crate::specs::inside::Forms::next_at))]
pub(crate) fn take_next_line(bytes: &[u8]) -> Option<(Next, &[u8])>
    ensures { Gives (λ r. ((r.0.k, r.0.changes), r.1.now)) result (next_at bytes.now) }
{
    let rest = take_text(bytes, b"next ")?;
    let (k, rest) = take_count_to(rest, b' ')?;
    let (changes, rest) = take_count_to(rest, b'\n')?;
    Some((Next { k, changes }, rest))
}

// A period and a price, up to the end of the line.
fn take_price(bytes: &[u8]) -> Option<((u64, i64), &[u8])>
    ensures { Gives (λ r. (r.0, r.1.now)) result (price_at bytes.now) }
{
    let (t, rest) = take_ordinal_to(bytes, b' ')?;
    let (price, rest) = take_signed_to(rest, 18, b'\n')?;
    Some(((t, price), rest))
}

/// A change of a number that a table of that size has.
#[tactic(auto, unfolding(crate::specs::inside::Forms::written_change_at))]
pub(crate) fn take_change<'a>(bytes: &'a [u8], size: &Size) -> Option<(Change, &'a [u8])>
    ensures { Gives (λ r. (change_of r.0, r.1.now)) result
        (passing (is_within (sizes size.now)) written_change_at bytes.now) }
{
    if let Some(rest) = take_text(bytes, b"p ") {
        let ((t, price), rest) = take_price(rest)?;
        let t = below(t, size.periods)? as usize;
        return Some((Change::Demand { t, price }, rest));
    }
    if let Some(rest) = take_text(bytes, b"m ") {
        let ((t, price), rest) = take_price(rest)?;
        let t = below(t, size.periods)? as usize;
        return Some((Change::Reserve { t, price }, rest));
    }
    let rest = take_text(bytes, b"r ")?;
    let ((g, t), (up, down), rest) = take_row_numbers(rest)?;
    let g = below(g, size.thermal)?;
    let t = below(t, size.periods)?;
    Some((Change::Ramps(RampRow { g, t, up, down }), rest))
}

// Changes come in the order of demand, reserve and ramps, each by period, those of ramps by unit first.
fn comes_before(first: &Change, second: &Change) -> bool
    ensures { result ≡ comes_before (change_of first.now) (change_of second.now) }
{
    match first {
        Change::Demand { t, .. } => match second {
            Change::Demand { t: later, .. } => t < later,
            _ => true,
        },
        Change::Reserve { t, .. } => match second {
            Change::Demand { .. } => false,
            Change::Reserve { t: later, .. } => t < later,
            Change::Ramps(_) => true,
        },
        Change::Ramps(row) => match second {
            Change::Ramps(later) => is_before(row, later),
            _ => false,
        },
    }
}

/// A change comes behind another one, or is the first.
pub(crate) fn comes_behind(last: &Option<Change>, change: &Change) -> bool
    ensures { result ≡ comes_behind (option_map change_of last.now) (change_of change.now) }
{
    match last {
        None => true,
        Some(last) => comes_before(last, change),
    }
}
