//! The lines of a table that is told by its difference to the one before it.

ghost use Rattle.std.specs.Prelude.{◌≡◌, ◌∷◌, [], ◌+◌, ◌≤◌, ℕ, ℤ, suc, length, flat_map, option_to_list};
ghost use Rattle.std.specs.Option.{option_map_or};
ghost use Rattle.outside.specs.Lines.{line};
ghost use Rattle.uc_model.specs.Decimal.{whole_text, signed_text};
ghost use Rattle.table_list.specs.Changes.{Change as ToldChange, price_changes, row_changes, table_changes};
ghost use Rattle.cert_text.specs.CertificateText.{next_line, change_line};
ghost use Rattle.table_list.specs.Passing.{price_change};
ghost use Rattle.cert_text.specs.inside.WrittenParts.{price_part, told_count, row_line, next_part, changes_part};
ghost use Rattle.table_list.specs.TableChanges.{change_of, changes_of};

use crate::table::put_row;
use dual_model::{RampRow, Table};
use outside::{Out, put_count, put_place, put_signed};
use table_list::{Change, Prices, pass};

// ---- prices

// A line of one price, after its first word; its period counts from 1 in the text.
fn put_price<O: Out>(out: &mut O, first: &[u8], t: usize, price: i64)
    ensures { O.emits (line first.now (whole_text (suc t) ∷ signed_text price ∷ [])) out.old out.new }
{
    out.put(first);
    out.put(b" ");
    put_place(out, t);
    out.put(b" ");
    put_signed(out, &price);
    out.put(b"\n");
}

fn put_new_price<O: Out>(out: &mut O, prices: Prices, t: usize, price: i64)
    ensures { O.emits (change_line (price_change prices t price)) out.old out.new }
{
    match prices {
        Prices::Demand => put_price(out, b"p", t, price),
        Prices::Reserve => put_price(out, b"m", t, price),
    }
}

// The price in period t, where it is another than before.
fn put_price_change<O: Out>(out: &mut O, prices: Prices, t: usize, old: i64, new: i64)
    ensures { O.emits (price_part (price_change prices) t old new) out.old out.new }
{
    if old != new {
        put_new_price(out, prices, t, new);
    }
}

// The prices that are others than before.
fn put_price_changes<O: Out>(out: &mut O, prices: Prices, olds: &[i64], news: &[i64])
    ensures { O.emits (flat_map change_line (price_changes (price_change prices) 0 olds.now news.now)) out.old out.new }
{
    for t in 0..olds.len().min(news.len()) {
        put_price_change(out, prices, t, olds[t], news[t]);
    }
}

// How many lines tell a price.
fn told_count(old: i64, new: i64) -> u64
    ensures count { result ≡ told_count old new }
    ensures few { result ≤ 1 }
{
    if old == new { 0 } else { 1 }
}

// How many prices are others than before.
fn price_change_count(olds: &[i64], news: &[i64]) -> u64
    ensures count { (change : ℕ → ℤ → ToldChange) → result ≡ length (price_changes change 0 olds.now news.now) }
    ensures few { result ≤ length news.now }
{
    let mut count = 0;
    for t in 0..olds.len().min(news.len()) {
        count += told_count(olds[t], news[t]);
    }
    count
}

// ---- rows of ramp multipliers

// The row to be told, where there is one.
fn put_row_change<O: Out>(out: &mut O, change: &Option<RampRow>)
    ensures { O.emits (option_map_or row_line change.now []) out.old out.new }
{
    if let Some(row) = change {
        put_row(out, b"r", row);
    }
}

// The rows that are others than before.
fn put_row_changes<O: Out>(out: &mut O, before: &[RampRow], after: &[RampRow])
    ensures { O.emits (flat_map row_line (row_changes before.now after.now)) out.old out.new }
{
    let mut olds = before;
    let mut news = after;
    while let Some(passed) = pass(olds, news) {
        put_row_change(out, &passed.change);
        olds = passed.olds;
        news = passed.news;
    }
}

// How many lines tell a row.
fn told_rows(change: &Option<RampRow>) -> u64
    ensures count { result ≡ length (option_to_list change.now) }
    ensures few { result ≤ 1 }
{
    match change {
        Some(_) => 1,
        None => 0,
    }
}

// How many rows are others than before.
fn row_change_count(before: &[RampRow], after: &[RampRow]) -> u64
    ensures count { result ≡ length (row_changes before.now after.now) }
    ensures few { result ≤ length before.now + length after.now }
{
    let mut count = 0;
    let mut olds = before;
    let mut news = after;
    while let Some(passed) = pass(olds, news) {
        count += told_rows(&passed.change);
        olds = passed.olds;
        news = passed.news;
    }
    count
}

// ---- tables

// How many numbers of a table are others than before.
fn change_count(before: &Table, table: &Table) -> u64
    ensures { result ≡ length (table_changes before.now table.now) }
{
    let demand = price_change_count(before.pi(), table.pi());
    let reserve = price_change_count(before.mu(), table.mu());
    demand + reserve + row_change_count(before.ramps(), table.ramps())
}

// The scale, and how many changes follow.
fn put_next_line<O: Out>(out: &mut O, k: i64, changes: u64)
    ensures { O.emits (next_line k changes) out.old out.new }
{
    out.put(b"next ");
    put_signed(out, &k);
    put_count(out, b" ", changes);
    out.put(b"\n");
}

/// A table behind another one, told by what differs. The two are compared twice, so that no memory is taken.
pub(crate) fn put_next<O: Out>(out: &mut O, before: &Table, table: &Table)
    ensures { O.emits (next_part before.now table.now) out.old out.new }
{
    put_next_line(out, table.k(), change_count(before, table));
    put_price_changes(out, Prices::Demand, before.pi(), table.pi());
    put_price_changes(out, Prices::Reserve, before.mu(), table.mu());
    put_row_changes(out, before.ramps(), table.ramps());
}

// A change.
fn put_change<O: Out>(out: &mut O, change: &Change)
    ensures { O.emits (change_line (change_of change.now)) out.old out.new }
{
    match change {
        Change::Demand { t, price } => put_price(out, b"p", *t, *price),
        Change::Reserve { t, price } => put_price(out, b"m", *t, *price),
        Change::Ramps(row) => put_row(out, b"r", row),
    }
}

// Changes in their order.
fn put_changes<O: Out>(out: &mut O, changes: &[Change])
    ensures { O.emits (flat_map change_line (changes_of changes.now)) out.old out.new }
{
    for change in changes {
        put_change(out, change);
    }
}

/// A table of this scale behind another one, told by these changes.
pub(crate) fn put_told_by<O: Out>(out: &mut O, k: i64, changes: &[Change])
    ensures { O.emits (changes_part k (changes_of changes.now)) out.old out.new }
{
    put_next_line(out, k, changes.len() as u64);
    put_changes(out, changes);
}
