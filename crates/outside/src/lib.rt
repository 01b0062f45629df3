//! The outside of a run: the files that it reads and writes, its standard output and error, and the
//! gate that its workers pass.
//!
//! A run reaches all of these through the traits [`Files`], [`Sink`] and [`Gate`] alone, so what it
//! read and wrote, and where a fault came from, is said in terms of their states.
//!
//! Texts are put piece by piece into an [`Out`]: a [`Latch`] over a writer.
#![tactic(auto, unfolding(crate::specs::Lines::line, crate::specs::Lines::list_line))]

mod count;
mod device;
mod devices;
mod fault;
mod files;
mod forms;
mod gate;
mod latch;
mod lent;
mod numbers;
mod out;
mod reading;
mod sink;
mod sink_writer;
mod slot;
mod slot_writer;
mod writer;

pub use count::{counted, counted_write, next_count};
pub use device::Device;
pub use devices::Devices;
pub use fault::Failed;
pub use files::Files;
pub use forms::{Form, PairForm, RowLine, put_each, put_list_line, put_pairs};
pub use gate::{Gate, OpenGate};
pub use latch::Latch;
pub use lent::Lent;
pub use numbers::{
    put_amount, put_count, put_money, put_money_line, put_place, put_signed, put_whole,
    put_whole_line,
};
pub use out::Out;
pub use reading::{SlurpFault, slurp};
pub use sink::Sink;
pub use sink_writer::SinkWriter;
pub use slot::{Slot, Stage};
pub use slot_writer::SlotWriter;
pub use writer::{Writer, write_all};
