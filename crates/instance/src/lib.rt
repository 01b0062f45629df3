//! The instance that a file in the pglib-uc format stands for.
#![tactic(auto)]

mod fault;
mod from_bytes;
mod from_value;
mod key;
mod laws;
mod object;
mod placed;
mod reader;
mod rounding;
mod scaled;
mod shortages;

pub use fault::{Fault, InstanceFault};
pub use from_bytes::{ReadFault, read_instance};
pub use from_value::from_json;
pub use laws::{
    a_value_has_an_instance_or_a_fault, held_exponents_change_no_instance,
    held_exponents_say_the_same, instances_of_values_are_lawful, numbers_of_a_short_text_are_short,
    numbers_that_say_the_same_are_held_the_same,
};
pub use rounding::{exact_instances_have_no_rounded_number, scaled_numbers_are_the_nearest};
pub use shortages::penalize;
