//! A writer that was lent.

ghost use Rattle.std.specs.Prelude.{◌≡◌, refl};
ghost use Rattle.std.proofs.Common.{◌∙◌};

use crate::fault::Failed;
use crate::writer::Writer;

/// A writer into one that was lent. When it is let go, that one is as the last write left it.
#[derive(Drop)]
pub struct Lent<'a, W: Writer> {
    pub writer: &'a mut W,
}

impl<'a, W: Writer> Lent<'a, W> {
    /// A writer into this one.
    pub fn new(writer: &'a mut W) -> Self
        ensures same_reference { result.writer.ghost_name ≡ writer.entry.ghost_name }
        ensures writer { result.writer.now ≡ writer.old }
    {
        Lent { writer }
    }
}

impl<'a, W: Writer> Writer for Lent<'a, W> {
    ghost state = { λ lent. W.state lent.writer.now };

    ghost same_else = { λ a b. (b.writer.ghost_name ≡ a.writer.ghost_name) × W.same_else a.writer.now b.writer.now };

    ghost same_else_itself = { λ lent. (refl, W.same_else_itself lent.writer.now) };

    ghost same_else_through = { λ a b c h k. (k.0 ∙ h.0, W.same_else_through a.writer.now b.writer.now c.writer.now h.1 k.1) };

    fn write(&mut self, piece: &[u8]) -> Result<usize, Failed> {
        self.writer.write(piece)
    }
}
