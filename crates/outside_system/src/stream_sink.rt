ghost use Rattle.std.specs.Prelude.{◌≡◌};
ghost use Rattle.outside_system.specs.System.{untold_sink};

use outside::{Failed, Sink, counted, counted_write};
use std::io::Write;

/// A writer of std as a sink, as standard output (`rt.stdout()`) and standard error (`rt.stderr()`).
///
/// It tells no content. Each error of the writer is counted, an interrupted call too, and so is a
/// write that takes no byte of a piece that has some.
#[derive(Drop)]
pub struct StreamSink<W: Write + Drop> {
    writer: W,
    faults: u64,
}

impl<W: Write + Drop> StreamSink<W> {
    /// A sink into the writer, with no fault counted.
    pub fn new(writer: W) -> Self
        ensures { ⟦<StreamSink<W> as Sink>⟧.state result ≡ untold_sink 0 }
    {
        StreamSink { writer, faults: 0 }
    }

    /// The writer, with what waits in it.
    pub fn into_writer(self) -> W
        ensures { result ≡ self.writer }
    {
        self.writer
    }

    /// The count of faults.
    pub fn faults(&self) -> u64
        ensures { result ≡ (⟦<StreamSink<W> as Sink>⟧.state self.now).faults }
    {
        self.faults
    }
}

impl<W: Write + Drop> Sink for StreamSink<W> {
    ghost state = { λ sink. untold_sink sink.faults };

    fn write(&mut self, piece: &[u8]) -> Result<usize, Failed> {
        let written = self.writer.write(piece);
        counted_write(written, piece, &mut self.faults)
    }

    fn flush(&mut self) -> Result<(), Failed> {
        let flushed = self.writer.flush();
        counted(flushed, &mut self.faults)
    }
}
