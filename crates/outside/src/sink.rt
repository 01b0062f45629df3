ghost use Rattle.std.specs.Prelude.{◌≡◌, ◌<◌, ◌≤◌, length, take, IfOk, OnOk, OnErr};
ghost use Rattle.outside.specs.Sinks.{SinkState, SinkWrites, SinkCountsFault, flushed};

use crate::fault::Failed;

/// What takes bytes, as standard output does.
///
/// What a caller may know of a sink is its `state`: its count of faults, and, where the
/// implementation tells them, the bytes written and those of them that are flushed.
///
/// What an implementation keeps to, and what every caller relies on:
///
/// - A call answers [`Failed`] only where the count rose in it, or stands at its last value,
///   2^64 - 1; the count never falls. A call that fails changes nothing but the count. A call that
///   answers `Ok` leaves the count as it is.
/// - Bytes are told (`Some`) or not (`None`). An implementation may cease to tell the bytes written,
///   and then never tells them again.
pub trait Sink {
    ghost state: { Self → SinkState };

    /// Appends the first bytes of a piece to those written, and answers how many: told or not, at
    /// most the length of the piece, and at least one of a piece that isn't empty. Where the device
    /// takes none, that is a fault.
    fn write(&mut self, piece: &[u8]) -> Result<usize, Failed>
        ensures bound { IfOk result (λ n. n ≤ length piece.now) }
        ensures some { IfOk result (λ n. 0 < length piece.now → 0 < n) }
        ensures ok { IfOk result (λ n. SinkWrites (take n piece.now) (state self.old) (state self.new)) }
        ensures failed { OnErr result (SinkCountsFault (state self.old) (state self.new)) };

    /// `Ok` makes all that was written flushed.
    fn flush(&mut self) -> Result<(), Failed>
        ensures ok { OnOk result (state self.new ≡ flushed (state self.old)) }
        ensures failed { OnErr result (SinkCountsFault (state self.old) (state self.new)) };
}
