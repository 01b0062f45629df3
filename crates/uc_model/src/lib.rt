//! The unit commitment model: instances, schedules, the rules M1 to M17, costs and the lower hull,
//! and the arithmetic on whole numbers and the texts of money that every crate above uses.
//!
//! Power is whole watts and money whole micro-dollars.
#![tactic(auto)]

pub mod arithmetic;
pub mod division;
pub mod examples;
pub mod field;
pub mod field_refusal;
pub mod instance;
pub mod laws;
pub mod limits;
pub mod list;
pub mod memory;
pub mod money;
pub mod pattern;
pub mod refusal;
pub mod schedule;
pub mod shares;
pub mod stuck;
pub mod terms;
pub mod texts;
pub mod thermal;
pub mod tolerance;

pub use arithmetic::{difference, product, scaled, sum};
pub use division::{ceil_div, floor_div};
pub use field::Field;
pub use field_refusal::FieldRefusal;
pub use instance::{Instance, Point, Renewable, StartRow, Thermal};
pub use list::{List, Name};
pub use memory::NoMemory;
pub use money::{write_money, write_mw};
pub use pattern::Pattern;
pub use refusal::Refusal;
pub use schedule::{Cell, Printed};
pub use shares::{LEAST_DIVIDED_SHARE, WHOLE_SHARE};
pub use stuck::{Stuck, Why};
pub use terms::Terms;
pub use texts::{money_digits, signed_digits, whole_digits};
