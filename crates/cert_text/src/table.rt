//! The lines of a price table that is told whole.

ghost use Rattle.std.specs.Prelude.{◌∷◌, [], suc};
ghost use Rattle.outside.specs.Lines.{line};
ghost use Rattle.uc_model.specs.Decimal.{whole_text, signed_text};
ghost use Rattle.cert_text.specs.CertificateText.{scale_line, ramp_line};
ghost use Rattle.cert_text.specs.inside.WrittenParts.{table_part};

use crate::schedule::Signed;
use dual_model::{RampRow, Table};
use outside::{Form, Out, put_count, put_each, put_list_line, put_signed, put_whole_line};

/// A line of a row of ramp multipliers, after its first word; unit and period count from 1 in the text.
pub(crate) fn put_row<O: Out>(out: &mut O, first: &[u8], row: &RampRow)
    ensures { O.emits (line first.now (whole_text (suc row.now.g) ∷ whole_text (suc row.now.t) ∷ signed_text row.now.up ∷ signed_text row.now.down ∷ [])) out.old out.new }
{
    out.put(first);
    put_count(out, b" ", u64::from(row.g) + 1);
    put_count(out, b" ", u64::from(row.t) + 1);
    out.put(b" ");
    put_signed(out, &row.up);
    out.put(b" ");
    put_signed(out, &row.down);
    out.put(b"\n");
}

// A row of ramp multipliers.
#[derive(Clone, Copy)]
struct Ramp;

impl Form<RampRow> for Ramp {
    ghost text = { λ _ row. ramp_line row };

    fn put_value<O: Out>(&self, row: &RampRow, out: &mut O) {
        put_row(out, b"ramp", row);
    }
}

fn put_scale<O: Out>(out: &mut O, k: i64)
    ensures { O.emits (scale_line k) out.old out.new }
{
    out.put(b"table ");
    put_signed(out, &k);
    out.put(b"\n");
}

/// A whole table.
pub(crate) fn put_table<O: Out>(out: &mut O, table: &Table)
    ensures { O.emits (table_part table.now) out.old out.new }
{
    let rows = table.ramps();
    put_scale(out, table.k());
    put_list_line(out, b"pi", &Signed, table.pi());
    put_list_line(out, b"mu", &Signed, table.mu());
    put_whole_line(out, b"ramps", rows.len() as u64);
    put_each(out, &Ramp, rows);
}
