//! A writer whose first fault is kept.

ghost use Rattle.std.specs.Prelude.{◌≡◌, true, false, OnOk, OnErr};

use crate::fault::Failed;
use crate::out::Out;
use crate::writer::{Writer, write_all};

/// A writer that is asked once, at the end, whether a piece failed. After the first fault nothing
/// is written.
#[derive(Drop)]
pub struct Latch<W> {
    pub writer: W,
    pub failed: bool,
}

impl<W: Writer> Latch<W> {
    /// A latch of which no piece failed yet.
    pub fn new(writer: W) -> Self
        ensures { result ≡ record { writer = writer; failed = false } }
    {
        Latch {
            writer,
            failed: false,
        }
    }

    /// `Failed` where a piece failed.
    pub fn outcome(&self) -> Result<(), Failed>
        ensures ok { OnOk result (self.now.failed ≡ false) }
        ensures failed { OnErr result (self.now.failed ≡ true) }
    {
        if self.failed { Err(Failed) } else { Ok(()) }
    }
}

impl<W: Writer> Out for Latch<W> {
    ghost use Rattle.outside.specs.Latching.{Emits};
    ghost use Rattle.outside.specs.Emitting.{emits-nothing, emits-two};

    ghost emits = { λ text a b. Emits W.state W.same_else text a.failed b.failed a.writer b.writer };

    ghost emits_nothing = { λ text a is. emits-nothing W.state W.same_else W.same_else_itself text a.failed a.writer is };

    ghost emits_two = { λ text p q a b c x y is. emits-two W.state W.same_else W.same_else_through text p q a.failed b.failed c.failed a.writer b.writer c.writer x y is };

    fn put(&mut self, piece: &[u8]) {
        if !self.failed {
            self.failed = write_all(&mut self.writer, piece).is_err();
        }
    }
}
