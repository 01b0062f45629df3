//! The lines of tables one behind the other: the first is told whole, and each later one by its difference to the one before it.

ghost use Rattle.std.specs.Prelude.{◌<◌, [], None, All, length, map, option_copied};
ghost use Rattle.std.specs.Option.{option_map_or};
ghost use Rattle.branch_tree.specs.Prelude.{table_at};
ghost use Rattle.cert_text.specs.inside.WrittenParts.{table_part, told_part, tables_part};

use crate::changes::{put_next, put_told_by};
use crate::table::put_table;
use dual_model::Table;
use outside::Out;
use table_list::TableList;

// A table behind that one, where there is one.
fn put_told<O: Out>(out: &mut O, before: Option<&Table>, table: &Table)
    ensures { O.emits (told_part (option_copied before.entry) table.now) out.old out.new }
{
    match before {
        Some(before) => put_next(out, before, table),
        None => put_table(out, table),
    }
}

// The first table, where there is one.
fn put_first<O: Out>(out: &mut O, first: Option<&Table>)
    ensures { O.emits (option_map_or table_part (option_copied first.entry) []) out.old out.new }
{
    if let Some(table) = first {
        put_table(out, table);
    }
}

/// The tables in their order.
pub(crate) fn put_tables<O: Out>(out: &mut O, tables: &TableList)
    ensures { O.emits (tables_part None tables.now) out.old out.new }
{
    put_first(out, tables.first());
    for number in 1..tables.len() {
        put_told_by(out, tables.scale(number), tables.changes(number));
    }
}

/// The tables of these numbers, from 0, in the order of the numbers.
pub(crate) fn put_numbered<O: Out>(out: &mut O, tables: &[Table], numbers: &[u32])
    requires { All (λ i. i < length tables.now) numbers.now }
    ensures { O.emits (tables_part None (map (table_at tables.now) numbers.now)) out.old out.new }
{
    let mut before = None;
    for number in numbers {
        let table = &tables[*number as usize];
        put_told(out, before, table);
        before = Some(table);
    }
}
