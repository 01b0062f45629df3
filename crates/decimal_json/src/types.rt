ghost use Rattle.std.specs.Prelude.{◌≡◌};
ghost use Rattle.decimal_json.specs.declared.types.JsonFault.TheVariants.{NoMemory};

use std::alloc::{AllocError, AllocFailed};

/// A number with each of its digits. Its value is the digits, read as one whole, times ten to the exponent.
#[derive(Drop)]
pub struct Number {
    pub negative: bool,
    /// Each from 0 to 9, those before the point and those after it.
    pub digits: Vec<u8>,
    /// Of the last digit. One beyond 10^9 in size stands as 10^9 with its sign.
    pub exponent: i64,
}

/// A member of an object.
#[cycle(json)]
#[derive(Drop)]
pub struct Pair {
    pub key: String,
    pub value: Json,
}

/// A JSON value (RFC 8259, section 3). An object keeps its members in the order of the file.
#[cycle(json)]
#[derive(Drop)]
pub enum Json {
    Null,
    Bool(bool),
    Number(Number),
    Text(String),
    Array(Vec<Json>),
    Object(Vec<Pair>),
}

/// Why no value was read.
#[derive(Clone, Copy, Debug, PartialEq, Eq)]
pub enum JsonFault {
    /// The bytes are refused at a place, counted from 0. The kinds:
    /// 1 they aren't UTF-8, and `at` is the length of the longest prefix that is;
    /// 2 they are no JSON, and `at` is the length of the longest prefix that some JSON text begins with;
    /// 3 at `at` stands a bracket that opens level 65;
    /// 4 at `at` stands the first quote of a key that the object already has;
    /// 5 at `at` stands the backslash of a surrogate escape without its partner.
    At { at: usize, kind: u8 },
    NoMemory,
}

impl From<AllocError> for JsonFault {
    ghost from_gives = { λ _ e. e ≡ NoMemory };

    fn from(_: AllocError) -> Self {
        JsonFault::NoMemory
    }
}

impl<T: Drop> From<AllocFailed<T>> for JsonFault {
    ghost from_gives = { λ _ e. e ≡ NoMemory };

    fn from(_: AllocFailed<T>) -> Self {
        JsonFault::NoMemory
    }
}

/// What stands at a place can't go on to a JSON text.
pub(crate) fn no_json(at: usize) -> JsonFault
    ensures { result ≡ JsonFault.At at 2 }
{
    JsonFault::At { at, kind: 2 }
}
