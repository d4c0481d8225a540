//! Where bytes go.
ghost use Rattle.std.specs.Prelude.{◌≡◌, ◌<◌, ◌≤◌, length, take, is_ok, IfOk, OnErr};
ghost use Rattle.fx_base.specs.Causes.{CountsFault};
ghost use Rattle.fx_io.specs.Told.{TakesAll, TakesFront};
ghost use Rattle.fx_io.specs.Seen.{SinkSeen, HasTaken};

use super::Failed;

/// Where bytes go. Its calls take no memory of the caller's.
pub trait Sink {
    /// All that is seen of the sink: the bytes that it has taken, and its faults.
    ghost seen: { Self → SinkSeen };

    /// Takes the first bytes of `piece` and says how many they are: at least one of a piece that
    /// has any. `Failed` may have taken some, and is counted.
    fn write(&mut self, piece: &[u8]) -> Result<usize, Failed>
        ensures count { IfOk result (λ n. n ≤ length piece.now) }
        ensures moves { 0 < length piece.now → IfOk result (λ n. 0 < n) }
        ensures takes { IfOk result
            (λ n. TakesAll (seen self.old).text (seen self.new).text (take n piece.now)) }
        ensures front { OnErr result
            (TakesFront (seen self.old).text (seen self.new).text piece.now) }
        ensures faults { CountsFault (is_ok result) (seen self.old).faults (seen self.new).faults };

    /// How many calls have failed; it stops at `u64::MAX`.
    fn faults(&self) -> u64
        ensures { result ≡ (seen self.now).faults };
}

/// Writes all of the text, in as few calls as the sink allows: each call is handed all that is
/// left. Takes no memory. After `Failed` the sink has taken a front of the text.
pub fn write_whole<K: Sink>(out: &mut K, text: &[u8]) -> Result<(), Failed>
    ensures taken { HasTaken (K.seen out.old) (K.seen out.new) text.now (is_ok result) }
{
    let mut rest = text;
    while !rest.is_empty() {
        match out.write(rest) {
            Ok(count) => {
                let (_, after) = rest.split_at(count);
                rest = after;
            }
            Err(failed) => return Err(failed),
        }
    }
    Ok(())
}
