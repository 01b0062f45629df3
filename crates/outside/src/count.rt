ghost use Rattle.std.specs.Prelude.{◌≡◌, ◌<◌, ◌≤◌, Ok, length, IfOk, IsErr, OnErr};
ghost use Rattle.outside.specs.Counts.{HasRisen, one_more};

use crate::fault::Failed;
use std::io;

/// The count after one more fault: one more, or the last value, at which it stays.
pub fn next_count(count: u64) -> u64
    ensures value { result ≡ one_more count }
    ensures rose { HasRisen count result }
{
    count.saturating_add(1)
}

/// What the system answered. An error is counted, and nothing else.
pub fn counted<T: Drop>(outcome: io::Result<T>, faults: &mut u64) -> Result<T, Failed>
    ensures ok { IfOk result (λ value. (outcome ≡ Ok value) × (faults.new ≡ faults.old)) }
    ensures failed { OnErr result (HasRisen faults.old faults.new) }
    ensures one { OnErr result (faults.new ≡ one_more faults.old) }
    ensures cause { OnErr result (IsErr outcome) }
{
    match outcome {
        Ok(value) => Ok(value),
        Err(_) => {
            *faults = next_count(*faults);
            Err(Failed)
        }
    }
}

/// What the system answered to a write of a piece. An error is counted, and so is a write that
/// takes no byte of a piece that has some.
pub fn counted_write(
    outcome: io::Result<usize>,
    piece: &[u8],
    faults: &mut u64,
) -> Result<usize, Failed>
    ensures ok { IfOk result (λ n. (outcome ≡ Ok n) × (faults.new ≡ faults.old)) }
    ensures some { IfOk result (λ n. 0 < length piece.now → 0 < n) }
    ensures failed { OnErr result (HasRisen faults.old faults.new) }
    ensures one { OnErr result (faults.new ≡ one_more faults.old) }
    ensures cause { OnErr result (IfOk outcome (λ n. (n ≡ 0) × (0 < length piece.now))) }
{
    let taken = counted(outcome, faults)?;
    if taken == 0 && !piece.is_empty() {
        *faults = next_count(*faults);
        return Err(Failed);
    }
    Ok(taken)
}
