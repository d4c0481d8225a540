//! Where bytes come from.
ghost use Rattle.std.specs.Prelude.{◌≡◌, ◌≢◌, ◌+◌, ◌<◌, ◌≤◌, length, take, is_ok, IfOk, OnErr, IsErrOf, Err};
ghost use Rattle.std.specs.Io.KnownBytes.{IsAtEnd};
ghost use Rattle.fx_base.specs.Causes.{Rose, CountsFault};
ghost use Rattle.fx_io.specs.Told.{Gives, GivesCount, GivesAtMost};
ghost use Rattle.fx_io.specs.Seen.{SourceSeen, SourceGoesOn, GivesWhole};

use super::Failed;
use fx_item::Bytes;
use std::alloc::Global;
use thiserror::Error;

/// How many bytes `read_whole` asks for at a time.
const PIECE: usize = 16_384;

/// Where bytes come from. Its calls take no memory.
pub trait Source {
    /// All that is seen of the source: the bytes that are left, and its faults.
    ghost seen: { Self → SourceSeen };

    /// Puts the next bytes at the front of `into` and says how many they are; 0 is the end.
    /// `Failed` takes nothing, and is counted.
    fn read(&mut self, into: &mut [u8]) -> Result<usize, Failed>
        requires { 0 < length into.old }
        ensures count { IfOk result (λ n. n ≤ length into.new) }
        ensures gives { IfOk result
            (λ n. Gives (seen self.old).left (seen self.new).left (take n into.new)) }
        ensures ended { IfOk result (λ n. n ≡ 0 → IsAtEnd (seen self.new).left) }
        ensures kept { OnErr result ((seen self.new).left ≡ (seen self.old).left) }
        ensures faults { CountsFault (is_ok result) (seen self.old).faults (seen self.new).faults };

    /// How many calls have failed; it stops at `u64::MAX`.
    fn faults(&self) -> u64
        ensures { result ≡ (seen self.now).faults };
}

/// Why a source was not read to its end.
#[derive(Clone, Copy, Debug, PartialEq, Eq, Error)]
pub enum ReadAllFault {
    /// A call of the source failed.
    #[error("a call of the source failed")]
    Failed,
    /// The source gave more bytes than the limit.
    #[error("the source gave too many bytes")]
    TooMuch,
    /// There was no memory for the bytes.
    #[error("out of memory")]
    OutOfMemory,
}

/// All bytes of the source to its end, at most `limit` of them. Takes `limit + 1` bytes at most,
/// also where it is refused; those bytes are then lost. Its memory grows by doubling, so the time
/// is that of the number of bytes.
pub fn read_whole<S: Source>(alloc: Global, src: &mut S, limit: u32) -> Result<Bytes, ReadAllFault>
    ensures whole { IfOk result (λ text. GivesWhole (S.seen src.old) (S.seen src.new) limit text) }
    ensures too_much { IsErrOf result ReadAllFault.TooMuch
        → GivesCount (S.seen src.old).left (S.seen src.new).left (limit + 1) }
    ensures failed_within { IsErrOf result ReadAllFault.Failed
        → GivesAtMost (S.seen src.old).left (S.seen src.new).left limit }
    ensures most { GivesAtMost (S.seen src.old).left (S.seen src.new).left (limit + 1) }

    // The count rises where a call fails, and nowhere else.
    ensures failed { IsErrOf result ReadAllFault.Failed
        → Rose (S.seen src.old).faults (S.seen src.new).faults }
    ensures unfailed { result ≢ Err ReadAllFault.Failed
        → (S.seen src.new).faults ≡ (S.seen src.old).faults }
    ensures goes { SourceGoesOn (S.seen src.old) (S.seen src.new) }
{
    let most = limit as usize;
    let mut text = Vec::new(alloc);
    let mut buffer = [0u8; PIECE];
    while text.len() <= most {
        let room = (most + 1 - text.len()).min(PIECE);
        let Ok(count) = src.read(&mut buffer[..room]) else {
            return Err(ReadAllFault::Failed);
        };
        if count == 0 {
            return Ok(Bytes::new(text));
        }
        if text.extend_from_slice(&buffer[..count]).is_err() {
            return Err(ReadAllFault::OutOfMemory);
        }
    }
    Err(ReadAllFault::TooMuch)
}
