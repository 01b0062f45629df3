//! How the values of a list are put, one after another.

ghost use Rattle.std.specs.Prelude.{ℕ, List as Sequence, flat_map};
ghost use Rattle.std.specs.List.{zip};
ghost use Rattle.outside.specs.Lines.{words_of, list_line};

use crate::out::Out;
use uc_model::List;

/// A form in which values are put.
pub trait Form<T> {
    ghost text: { Self → T → Sequence ℕ };

    /// Puts a value in this form.
    fn put_value<O: Out>(&self, value: &T, out: &mut O)
        ensures { O.emits (text self.now value.now) out.old out.new };
}

/// Puts each value in this form.
pub fn put_each<T, F: Form<T>, O: Out>(out: &mut O, form: &F, values: &[T])
    ensures { O.emits (flat_map (F.text form.now) values.now) out.old out.new }
{
    for value in values {
        form.put_value(value, out);
    }
}

/// Puts each value in this form, after a space.
fn put_words<T, F: Form<T>, O: Out>(out: &mut O, form: &F, values: &[T])
    ensures { O.emits (words_of (F.text form.now) values.now) out.old out.new }
{
    for value in values {
        out.put(b" ");
        form.put_value(value, out);
    }
}

/// Puts a line of these values in this form, after its first word.
pub fn put_list_line<T, F: Form<T>, O: Out>(out: &mut O, first: &[u8], form: &F, values: &[T])
    ensures { O.emits (list_line first.now (F.text form.now) values.now) out.old out.new }
{
    out.put(first);
    put_words(out, form, values);
    out.put(b"\n");
}

/// A form in which pairs are put.
pub trait PairForm<A, B> {
    ghost text: { Self → A × B → Sequence ℕ };

    /// Puts a pair in this form.
    fn put_pair<O: Out>(&self, first: &A, second: &B, out: &mut O)
        ensures { O.emits (text self.now (first.now, second.now)) out.old out.new };
}

/// Puts each first value with the second one at its place in this form, up to the end of the shorter list.
pub fn put_pairs<A, B, F: PairForm<A, B>, O: Out>(
    out: &mut O,
    form: &F,
    firsts: &[A],
    seconds: &[B],
)
    ensures { O.emits (flat_map (F.text form.now) (zip firsts.now seconds.now)) out.old out.new }
{
    for index in 0..firsts.len().min(seconds.len()) {
        form.put_pair(&firsts[index], &seconds[index], out);
    }
}

/// The line of a row's values in a form, after its first word.
#[derive(Drop)]
pub struct RowLine<'a, F> {
    pub first: &'a [u8],
    pub form: F,
}

impl<'a, T, F: Form<T>> Form<List<T>> for RowLine<'a, F> {
    ghost text = { λ line row. list_line line.first.now (F.text line.form) row };

    fn put_value<O: Out>(&self, row: &List<T>, out: &mut O) {
        put_list_line(out, self.first, &self.form, row.as_slice());
    }
}
