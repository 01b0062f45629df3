//! Tables.

ghost use Rattle.std.specs.Prelude.{◌≡◌, None, IfOk, IfErr, OnOk, IfSome, Ok, Err, option_copied};
ghost use Rattle.cert_text.specs.Grammar.{AreSizes};
ghost use Rattle.cert_text.specs.CertificateText.{told_from};
ghost use Rattle.cert_text.specs.inside.Drafts.{IsDrafted, IsToldBehind};
ghost use Rattle.table_list.specs.TableChanges.{last_table};
ghost use Rattle.cert_text.specs.inside.Parts.{GivesPart, StopsAs, ramp_rows_part, ramps_part, numbers_part, table_part, next_part, told_part, tables_part, sizes};

use super::changes::take_next_line;
use super::draft::Draft;
use super::lines::{take_count_line, take_ramp};
use super::sizes::Size;
use super::stop::Stop;
use super::update::take_changes;
use super::words::{Price, take_row};
use crate::cert::Version;
use dual_model::{RampRow, Table};
use std::alloc::Global;
use table_list::TableList;

// So many rows of ramp multipliers, in place of what the list had.
fn take_ramp_rows<'a>(
    size: &Size,
    count: u64,
    bytes: &'a [u8],
    rows: &mut Vec<RampRow>,
) -> Result<&'a [u8], Stop<'a>>
    ensures { GivesPart (λ rest. (rows.new.items, rest.now)) result
        (ramp_rows_part (sizes size.now) count None bytes.now) }
{
    rows.clear();
    let mut rest = bytes;
    let mut before = None;
    for _ in 0..count {
        let Some((row, behind)) = take_ramp(rest, size, &before) else {
            return Err(Stop::At(rest));
        };
        rows.push(row)?;
        before = Some(row);
        rest = behind;
    }
    Ok(rest)
}

// The rows of ramp multipliers with their count, in place of what the list had.
#[tactic(auto, unfolding(crate::specs::inside::Parts::ramps_part, crate::specs::inside::Forms::ramp_count_at))]
fn take_ramps<'a>(
    size: &Size,
    bytes: &'a [u8],
    rows: &mut Vec<RampRow>,
) -> Result<&'a [u8], Stop<'a>>
    ensures { GivesPart (λ rest. (rows.new.items, rest.now)) result (ramps_part (sizes size.now) bytes.now) }
{
    let (count, rest) = take_count_line(bytes, b"ramps ").ok_or(Stop::At(bytes))?;
    take_ramp_rows(size, count, rest, rows)
}

// The numbers of a table that is told whole, in place of what was there.
#[tactic(auto, unfolding(crate::specs::inside::Parts::numbers_part, crate::specs::inside::Forms::scale_at))]
fn take_numbers<'a>(size: &Size, bytes: &'a [u8], draft: &mut Draft) -> Result<&'a [u8], Stop<'a>>
    ensures numbers { GivesPart (λ rest. ((draft.new.k, (draft.new.pi.items, (draft.new.mu.items, draft.new.ramps.items))), rest.now)) result
        (numbers_part (sizes size.now) bytes.now) }
    ensures units { OnOk result (draft.new.units ≡ size.now.thermal) }
{
    draft.units = size.thermal;
    let (k, rest) = take_count_line(bytes, b"table ").ok_or(Stop::At(bytes))?;
    draft.k = k;
    let rest = take_row(b"pi", &Price, size.periods, rest, &mut draft.pi)?;
    let rest = take_row(b"mu", &Price, size.periods, rest, &mut draft.mu)?;
    take_ramps(size, rest, &mut draft.ramps)
}

// A table that is told whole. The draft has its numbers then.
fn take_table<'a>(
    alloc: Global,
    size: &Size,
    bytes: &'a [u8],
    draft: &mut Draft,
) -> Result<(Table, &'a [u8]), Stop<'a>>
    requires { AreSizes (sizes size.now) }
    ensures read { GivesPart (λ r. (r.0, r.1.now)) result (table_part (sizes size.now) bytes.now) }
    ensures drafted { IfOk result (λ r. IsDrafted (sizes size.now) draft.new r.0) }
{
    let rest = take_numbers(size, bytes, draft)?;
    let table = draft.table(alloc)?;
    Ok((table, rest))
}

// A table that is told by its difference to this one, of which the draft has the numbers. The draft has those of the new one then.
fn take_next<'a>(
    alloc: Global,
    size: &Size,
    before: &Table,
    bytes: &'a [u8],
    draft: &mut Draft,
) -> Result<(Table, &'a [u8]), Stop<'a>>
    requires sizes { AreSizes (sizes size.now) }
    requires before { IsDrafted (sizes size.now) draft.old before.now }
    ensures read { GivesPart (λ r. (r.0, r.1.now)) result (next_part (sizes size.now) before.now bytes.now) }
    ensures drafted { IfOk result (λ r. IsDrafted (sizes size.now) draft.new r.0) }
{
    let Some((next, rest)) = take_next_line(bytes) else {
        return Err(Stop::At(bytes));
    };
    draft.k = next.k;
    let rest = take_changes(size, next.changes, before.ramps(), rest, draft)?;
    let table = draft.table(alloc)?;
    Ok((table, rest))
}

// The table of which the next one tells its difference: the last one, but in the first version.
fn told_from(version: Version, tables: &TableList) -> Option<&Table>
    ensures { option_copied result ≡ told_from version (last_table tables.now) }
{
    match version {
        Version::First => None,
        Version::Second | Version::Third => tables.last(),
    }
}

// The table behind these. The draft has the numbers of the last one, and then those of the new one.
fn take_told<'a>(
    alloc: Global,
    size: &Size,
    tables: &TableList,
    bytes: &'a [u8],
    draft: &mut Draft,
) -> Result<(Table, &'a [u8]), Stop<'a>>
    requires sizes { AreSizes (sizes size.now) }
    requires last { IfSome (last_table tables.now) (IsDrafted (sizes size.now) draft.old) }
    ensures read { GivesPart (λ r. (r.0, r.1.now)) result
        (told_part (sizes size.now) (told_from size.now.version (last_table tables.now)) bytes.now) }
    ensures drafted { IfOk result (λ r. IsDrafted (sizes size.now) draft.new r.0) }
{
    match told_from(size.version, tables) {
        None => take_table(alloc, size, bytes, draft),
        Some(before) => take_next(alloc, size, before, bytes, draft),
    }
}

// The tables with a told one more behind them. The draft has the numbers of the last one.
fn push_told<'a>(
    alloc: Global,
    size: &Size,
    tables: TableList,
    bytes: &'a [u8],
    draft: &mut Draft,
) -> Result<(TableList, &'a [u8]), Stop<'a>>
    requires sizes { AreSizes (sizes size.now) }
    requires last { IfSome (last_table tables) (IsDrafted (sizes size.now) draft.old) }
    ensures pushed { IfOk result (λ r. IsToldBehind (sizes size.now) tables bytes.now draft.new r.0 r.1.now) }
    ensures stop { IfErr result (λ stop. StopsAs stop (told_part (sizes size.now) (told_from size.now.version (last_table tables)) bytes.now)) }
{
    let (table, rest) = take_told(alloc, size, &tables, bytes, draft)?;
    let tables = tables.push(alloc, table)?;
    Ok((tables, rest))
}

/// The tables, as many as the size says.
pub(crate) fn take_tables<'a>(
    alloc: Global,
    size: &Size,
    bytes: &'a [u8],
) -> Result<(TableList, &'a [u8]), Stop<'a>>
    requires { AreSizes (sizes size.now) }
    ensures { GivesPart (λ r. (r.0, r.1.now)) result
        (tables_part (sizes size.now) size.now.tables None bytes.now) }
{
    let mut tables = TableList::new(alloc);
    let mut draft = Draft::new(alloc);
    let mut rest = bytes;
    for _ in 0..size.tables {
        let (told, behind) = push_told(alloc, size, tables, rest, &mut draft)?;
        tables = told;
        rest = behind;
    }
    Ok((tables, rest))
}
