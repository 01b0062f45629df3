ghost use Rattle.std.specs.Prelude.{◌≡◌, refl};
ghost use Rattle.std.proofs.Common.{◌∙◌};
ghost use Rattle.outside.specs.Sinks.{sink_view};

use crate::fault::Failed;
use crate::sink::Sink;
use crate::writer::Writer;

/// A writer into a sink that was lent. When it is let go, the sink is as the last write left it.
#[derive(Drop)]
pub struct SinkWriter<'a, S: Sink> {
    pub sink: &'a mut S,
}

impl<'a, S: Sink> SinkWriter<'a, S> {
    /// A writer into the sink.
    pub fn new(sink: &'a mut S) -> Self
        ensures same_reference { result.sink.ghost_name ≡ sink.entry.ghost_name }
        ensures sink { result.sink.now ≡ sink.old }
    {
        SinkWriter { sink }
    }
}

impl<'a, S: Sink> Writer for SinkWriter<'a, S> {
    ghost state = { λ w. sink_view (S.state w.sink.now) };

    ghost same_else = { λ a b. (b.sink.ghost_name ≡ a.sink.ghost_name)
        × ((S.state b.sink.now).flushed ≡ (S.state a.sink.now).flushed) };

    ghost same_else_itself = { λ w. (refl, refl) };

    ghost same_else_through = { λ a b c h k. (k.0 ∙ h.0, k.1 ∙ h.1) };

    fn write(&mut self, piece: &[u8]) -> Result<usize, Failed> {
        self.sink.write(piece)
    }
}
