//! The files and the streams of the system. They are the trusted edge: they tell no content.
#![tactic(auto)]

mod draft;
mod stream_sink;
mod system;

pub use stream_sink::StreamSink;
pub use system::{Access, SystemFile, SystemFiles, system_files};
