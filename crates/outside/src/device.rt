ghost use Rattle.std.specs.Prelude.{◌≡◌, ◌<◌, ◌≤◌, length, take, IfOk, OnOk, OnErr};
ghost use Rattle.outside.specs.Slots.{Open, Unopened, SlotState, opened, unread, finished, IsAtEnd, HasNothingWritten, Writes, CountsFault};

use crate::fault::Failed;

/// What stands behind one slot. [`Devices`](crate::Devices) makes [`Files`](crate::Files) of three.
///
/// Each call is that of `Files` of its name, without the slot, and keeps to the same rules.
pub trait Device {
    ghost state: { Self → SlotState };

    /// Opens the device by a name.
    fn open(&mut self, name: &str) -> Result<(), Failed>
        requires { (state self.old).stage ≡ Unopened }
        ensures ok { OnOk result (state self.new ≡ opened name.now (state self.old)) }
        ensures failed { OnErr result (CountsFault (state self.old) (state self.new)) };

    /// Reads the next bytes into the front of the buffer, and answers how many: 0 for a buffer that
    /// isn't empty only at the end.
    fn read(&mut self, buf: &mut [u8]) -> Result<usize, Failed>
        requires { (state self.old).stage ≡ Open }
        ensures bound { IfOk result (λ n. n ≤ length buf.new) }
        ensures ok { IfOk result (λ n. state self.old ≡ unread (take n buf.new) (state self.new)) }
        ensures at_end { IfOk result (λ n. n ≡ 0 → 0 < length buf.new → IsAtEnd (state self.new)) }
        ensures failed { OnErr result (CountsFault (state self.old) (state self.new)) };

    /// Appends the first bytes of a piece, and answers how many: at least one of a piece that isn't
    /// empty.
    fn write(&mut self, piece: &[u8]) -> Result<usize, Failed>
        requires { (state self.old).stage ≡ Open }
        ensures bound { IfOk result (λ n. n ≤ length piece.now) }
        ensures some { IfOk result (λ n. 0 < length piece.now → 0 < n) }
        ensures ok { IfOk result (λ n. Writes (take n piece.now) (state self.old) (state self.new)) }
        ensures failed { OnErr result (CountsFault (state self.old) (state self.new)) };

    /// Finishes the device.
    fn finish(&mut self) -> Result<(), Failed>
        requires { (state self.old).stage ≡ Open }
        ensures ok { OnOk result (state self.new ≡ finished (state self.old)) }
        ensures failed { OnErr result (CountsFault (state self.old) (state self.new)) };

    // To an unopened device no byte was written.
    ghost unopened_is_unwritten: { (device : Self) → (state device).stage ≡ Unopened → HasNothingWritten (state device) };
}
