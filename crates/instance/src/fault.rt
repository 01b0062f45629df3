//! Why a value has no instance.

ghost use Rattle.std.specs.Prelude.{◌≡◌, ◌+◌, ◌<◌};
ghost use Rattle.instance.specs.declared.fault.Fault.TheVariants.{NoMemory};
ghost use Rattle.instance.specs.FirstFault.{MAX_PERIODS, whole, entry_of, refusal};

use std::alloc::{AllocError, AllocFailed};
use uc_model::{Field, FieldRefusal};

pub(crate) const MISSING: u8 = 1;

pub(crate) const OTHER_KIND: u8 = 2;

pub(crate) const NOT_WHOLE: u8 = 3;

pub(crate) const PAST_LIMIT: u8 = 4;

pub(crate) const OUT_OF_RANGE: u8 = 5;

pub(crate) const TOO_SHORT: u8 = 6;

pub(crate) const TOO_MANY: u8 = 7;

pub(crate) const ROUNDED: u8 = 8;

pub(crate) const NO_UNIT: u8 = 0;

pub(crate) const THERMAL: u8 = 1;

pub(crate) const RENEWABLE: u8 = 2;

/// Why a value was not read: what refuses it, or want of memory.
#[derive(Debug, Drop)]
pub enum Fault<R> {
    Refused(R),
    NoMemory,
}

/// Why a JSON value has no instance, or none was made: the first fault in the order of the fields.
pub type InstanceFault = Fault<FieldRefusal>;

impl<R> From<AllocError> for Fault<R> {
    ghost from_gives = { λ _ e. e ≡ NoMemory };

    fn from(_: AllocError) -> Self {
        Fault::NoMemory
    }
}

impl<R, T: Drop> From<AllocFailed<T>> for Fault<R> {
    ghost from_gives = { λ _ e. e ≡ NoMemory };

    fn from(_: AllocFailed<T>) -> Self {
        Fault::NoMemory
    }
}

/// A field of a record, or an entry of a field that is an array, from 1; 0 is the field itself.
#[derive(Clone, Copy)]
pub(crate) struct Place {
    pub(crate) field: Field,
    pub(crate) entry: u32,
}

impl Place {
    /// A field itself.
    pub(crate) fn whole(field: Field) -> Self
        ensures { result ≡ whole field }
    {
        Place { field, entry: 0 }
    }

    /// The entry of a field at an index.
    pub(crate) fn entry(field: Field, index: usize) -> Self
        requires { index < MAX_PERIODS }
        ensures { result ≡ entry_of field (index + 1) }
    {
        Place {
            field,
            entry: index as u32 + 1,
        }
    }

    /// A fault here.
    pub(crate) fn refused(self, code: u8) -> PlacedFault
        ensures { result ≡ Fault.Refused (refusal code self) }
    {
        Fault::Refused(Refusal { code, place: self })
    }
}

/// What refuses a record, apart from the unit that it is in.
#[derive(Clone, Copy)]
pub(crate) struct Refusal {
    pub(crate) code: u8,
    pub(crate) place: Place,
}

/// Why a part of a record was not read.
pub(crate) type PlacedFault = Fault<Refusal>;
