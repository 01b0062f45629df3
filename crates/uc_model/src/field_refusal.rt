//! Why a value has no instance: the first field at fault.

use crate::field::Field;
use crate::list::Name;

/// The first fault of a value that is no instance, in the order of the fields.
#[derive(Debug, Drop)]
pub struct FieldRefusal {
    /// What is wrong with the field, printed as I`code`:
    /// 1 it is missing;
    /// 2 it is of another JSON kind than wanted;
    /// 3 it isn't whole;
    /// 4 it is past a limit in size or of a time;
    /// 5 it is outside its range;
    /// 6 the array is shorter than the number of periods;
    /// 7 there are too many periods, units or rows;
    /// 8 it is rounded, where only exact numbers are taken;
    /// 9 at the prices given, all shortages together may cost more than their limit. It names no field.
    pub code: u8,
    /// 0 where the field is in no unit, 1 where it is in a thermal one, and 2 in a renewable one.
    pub kind_of_unit: u8,
    /// The unit's name, empty where there is none.
    pub unit: Name,
    pub field: Field,
    /// The place in an array, from 1, or 0 where the fault is at no entry.
    pub entry: u32,
}
