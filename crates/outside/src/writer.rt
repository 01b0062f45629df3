ghost use Rattle.std.specs.Prelude.{◌≡◌, ◌<◌, ◌≤◌, length, take, IfOk, OnOk, OnErr};
ghost use Rattle.outside.specs.Sinks.{WriterState, WriterWrites, WriterCountsFault, WritesFront};

use crate::fault::Failed;

/// What takes bytes and does nothing else: the `write` of a [`Sink`](crate::Sink) alone, its count
/// of faults and the bytes written. So what only writes runs over a slot as over a sink
/// ([`SlotWriter`](crate::SlotWriter), [`SinkWriter`](crate::SinkWriter)).
///
/// The rules are those of a sink. Beside them, `same_else` says of two states of a writer that all
/// is the same but the bytes written and the count: a writer over files that were lent says by it
/// that it still writes to the same slot of the same files, of which nothing else changed. What
/// only writes promises it of the writer that it was handed.
pub trait Writer {
    ghost state: { Self → WriterState };

    ghost same_else: { Self → Self → Type 0 };

    /// Appends the first bytes of a piece to those written, and answers how many: told or not, at
    /// most the length of the piece, and at least one of a piece that isn't empty.
    fn write(&mut self, piece: &[u8]) -> Result<usize, Failed>
        ensures bound { IfOk result (λ n. n ≤ length piece.now) }
        ensures some { IfOk result (λ n. 0 < length piece.now → 0 < n) }
        ensures ok { IfOk result (λ n. WriterWrites (take n piece.now) (state self.old) (state self.new)) }
        ensures failed { OnErr result (WriterCountsFault (state self.old) (state self.new)) }
        ensures rest { same_else self.old self.new };

    ghost same_else_itself: { (writer : Self) → same_else writer writer };

    ghost same_else_through: { (a b c : Self) → same_else a b → same_else b c → same_else a c };
}

/// Writes all of a piece, in as many calls of `write` as it takes. It takes no memory.
///
/// `Failed` comes only where the writer's count rose, and a front of the piece is written then.
pub fn write_all<W: Writer>(writer: &mut W, piece: &[u8]) -> Result<(), Failed>
    ensures ok { OnOk result (WriterWrites piece.now (W.state writer.old) (W.state writer.new)) }
    ensures failed { OnErr result (WritesFront piece.now (W.state writer.old) (W.state writer.new)) }
    ensures rest { W.same_else writer.old writer.new }
{
    let mut done = 0;
    while done < piece.len() {
        done += writer.write(&piece[done..])?;
    }
    Ok(())
}
