ghost use Rattle.std.specs.Prelude.{◌≡◌, ◌<◌, ◌≤◌, length, take, IfOk, OnOk, OnErr};
ghost use Rattle.outside.specs.Slots.{Open, Slot, Unopened, SlotState, opened, unread, finished, IsAtEnd, HasNothingWritten, Writes, CountsFault, SameBut};

use crate::fault::Failed;
use crate::slot::Slot;

/// The files of a run, one behind each [`Slot`].
///
/// What a caller may know of a slot is its `state`: the [`Stage`](crate::Stage) that it has
/// reached, its count of faults, and, where the implementation tells them, the name that it expects
/// with whether it was opened by that name, the bytes that reads have left, and the bytes written.
///
/// What an implementation keeps to, and what every caller relies on:
///
/// - **Stages.** A slot is opened once, while it is unopened. The other calls are made while it is
///   open. A slot stays finished. To an unopened slot no byte was written.
/// - **Faults.** A call answers [`Failed`] only where the slot's count rose in it, or stands at its
///   last value, 2^64 - 1; no count falls. A call that fails changes nothing but that count. A call
///   that answers `Ok` changes no count.
/// - **Content.** Name and bytes are told (`Some`) or not (`None`), each of them by itself. Whether
///   the name and the bytes to read are told never changes. An implementation may cease to tell
///   the bytes written (where it can't keep them, say), and then never tells them again.
/// - **Other slots.** No call on a slot changes anything of another one.
///
/// Told or not, a read answers at most the length of its buffer, and a write at most the length of
/// its piece.
pub trait Files {
    ghost state: { Self → Slot → SlotState };

    /// Opens a slot by a name.
    ///
    /// `Ok` makes the slot open, and its name is the expected one exactly where the bytes of both
    /// are equal. `Failed` leaves it unopened.
    fn open_slot(&mut self, slot: Slot, name: &str) -> Result<(), Failed>
        requires { (state self.old slot).stage ≡ Unopened }
        ensures ok { OnOk result (state self.new slot ≡ opened name.now (state self.old slot)) }
        ensures failed { OnErr result (CountsFault (state self.old slot) (state self.new slot)) }
        ensures others { SameBut slot (state self.old) (state self.new) };

    /// Reads from an open slot.
    ///
    /// `Ok(n)` says that the next n bytes of the slot were taken, and that they are the first n
    /// of the buffer. It is `Ok(0)` for a buffer that isn't empty only at the end, where no byte is
    /// left. The buffer keeps its length. What it contains behind the first n bytes, and what it
    /// contains after `Failed`, is left open.
    fn read(&mut self, slot: Slot, buf: &mut [u8]) -> Result<usize, Failed>
        requires { (state self.old slot).stage ≡ Open }
        ensures bound { IfOk result (λ n. n ≤ length buf.new) }
        ensures ok { IfOk result (λ n. state self.old slot ≡ unread (take n buf.new) (state self.new slot)) }
        ensures at_end { IfOk result (λ n. n ≡ 0 → 0 < length buf.new → IsAtEnd (state self.new slot)) }
        ensures failed { OnErr result (CountsFault (state self.old slot) (state self.new slot)) }
        ensures others { SameBut slot (state self.old) (state self.new) };

    /// Writes to an open slot.
    ///
    /// `Ok(n)` says that the first n bytes of the piece were appended to the bytes written. Of a
    /// piece that isn't empty at least one byte is taken: where the device takes none, that is a
    /// fault.
    fn write(&mut self, slot: Slot, piece: &[u8]) -> Result<usize, Failed>
        requires { (state self.old slot).stage ≡ Open }
        ensures bound { IfOk result (λ n. n ≤ length piece.now) }
        ensures some { IfOk result (λ n. 0 < length piece.now → 0 < n) }
        ensures ok { IfOk result (λ n. Writes (take n piece.now) (state self.old slot) (state self.new slot)) }
        ensures failed { OnErr result (CountsFault (state self.old slot) (state self.new slot)) }
        ensures others { SameBut slot (state self.old) (state self.new) };

    /// Finishes an open slot. `Ok` makes it finished; `Failed` leaves it open.
    fn finish(&mut self, slot: Slot) -> Result<(), Failed>
        requires { (state self.old slot).stage ≡ Open }
        ensures ok { OnOk result (state self.new slot ≡ finished (state self.old slot)) }
        ensures failed { OnErr result (CountsFault (state self.old slot) (state self.new slot)) }
        ensures others { SameBut slot (state self.old) (state self.new) };

    // To an unopened slot no byte was written.
    ghost unopened_is_unwritten: { (files : Self) (slot : Slot) → (state files slot).stage ≡ Unopened → HasNothingWritten (state files slot) };
}
