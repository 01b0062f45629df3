//! The names of units.

ghost use Rattle.std.specs.Prelude.{◌≡◌, ◌<◌};
ghost use Rattle.report.specs.Names.{hex_digit, escaped, unit_words};

use outside::{Form, Out, put_each};

// The byte of a hexadecimal digit.
fn hex_byte(digit: u8) -> u8
    requires { digit < 16 }
    ensures { result ≡ hex_digit digit }
{
    if digit < 10 {
        b'0' + digit
    } else {
        b'a' + (digit - 10)
    }
}

// A byte of a name, with its escape.
#[derive(Clone, Copy)]
struct Escaped;

impl Form<u8> for Escaped {
    ghost text = { λ _ byte. escaped byte };

    fn put_value<O: Out>(&self, byte: &u8, out: &mut O) {
        let byte = *byte;
        if byte == b'"' {
            out.put(b"\\\"");
        } else if byte == b'\\' {
            out.put(b"\\\\");
        } else if byte < 32 {
            out.put(&[
                b'\\',
                b'u',
                b'0',
                b'0',
                hex_byte(byte / 16),
                hex_byte(byte % 16),
            ]);
        } else {
            out.put(&[byte]);
        }
    }
}

// The name of a unit in double quotes, after the unit's kind.
#[tactic(auto, unfolding(crate::specs::Names::unit_words))]
pub(crate) fn put_unit<O: Out>(out: &mut O, kind: &[u8], name: &str)
    ensures { O.emits (unit_words kind.now name.now) out.old out.new }
{
    out.put(kind);
    out.put(b" \"");
    put_each(out, &Escaped, name.as_bytes());
    out.put(b"\"");
}
