ghost use Rattle.std.specs.Prelude.{◌≡◌, refl};
ghost use Rattle.std.proofs.Common.{◌∙◌, subst};
ghost use Rattle.outside.specs.Slots.{Open, SameBeside, same_beside-itself, same_beside-through, slot_view};

use crate::fault::Failed;
use crate::files::Files;
use crate::slot::Slot;
use crate::writer::Writer;

/// A writer into an open slot of files that were lent. When it is let go, the files are as the
/// last write left them.
#[derive(Drop)]
pub struct SlotWriter<'a, F: Files> {
    pub files: &'a mut F,
    pub slot: Slot,
    ghost is_open: { (F.state files.now slot).stage ≡ Open },
}

impl<'a, F: Files> SlotWriter<'a, F> {
    /// A writer into a slot that is open.
    pub fn new(files: &'a mut F, slot: Slot) -> Self
        requires { (F.state files.old slot).stage ≡ Open }
        ensures same_reference { result.files.ghost_name ≡ files.entry.ghost_name }
        ensures files { result.files.now ≡ files.old }
        ensures slot { result.slot ≡ slot }
    {
        SlotWriter { files, slot }
    }
}

impl<'a, F: Files> Writer for SlotWriter<'a, F> {
    ghost state = { λ w. slot_view (F.state w.files.now w.slot) };

    ghost same_else = { λ a b. (b.files.ghost_name ≡ a.files.ghost_name) × (b.slot ≡ a.slot)
        × SameBeside a.slot (F.state a.files.now) (F.state b.files.now) };

    ghost same_else_itself = { λ w. (refl, refl, same_beside-itself w.slot (F.state w.files.now)) };

    ghost same_else_through = { λ a b c h k. (
      k.0 ∙ h.0,
      k.1 ∙ h.1,
      same_beside-through a.slot (F.state a.files.now) (F.state b.files.now) (F.state c.files.now) h.2
          (subst (λ slot. SameBeside slot (F.state b.files.now) (F.state c.files.now)) h.1 k.2),
    ) };

    fn write(&mut self, piece: &[u8]) -> Result<usize, Failed> {
        self.files.write(self.slot, piece)
    }
}
