//! The freed blocks that wait, in the order of their numbers.
ghost use Rattle.std.specs.Prelude.{◌≡◌, ◌+◌, ◌^◌, ◌<◌, ◌∷◌, [], All, length, IfSome, IsNone};
ghost use Rattle.std.specs.VecDeque.{deque_capacity};
ghost use Rattle.fx_alloc.specs.declared.uses.Use.TheVariants.{Free};
ghost use Rattle.fx_alloc.specs.Uses.{put_all};
ghost use Rattle.fx_alloc.specs.Space.{settled_blocks, left_waiting};
ghost use Rattle.fx_alloc.specs.Inside.{waiting_blocks, TakesSettled};

use crate::hints::note;
use crate::uses::{Use, Waiting};
use std::collections::VecDeque;

// Takes the first block that waits, if its number is not above this one.
fn take_settled(waiting: &mut VecDeque<Waiting>, number: u64) -> Option<u32>
    ensures some { IfSome result (TakesSettled number waiting.old.items waiting.new.items) }
    ensures none { IsNone result → settled_blocks number waiting.old.items ≡ [] }
    ensures left { IsNone result → left_waiting number waiting.old.items ≡ waiting.new.items }
    ensures capacity { deque_capacity waiting.new ≡ deque_capacity waiting.old }
{
    match waiting.front() {
        Some(first) if first.number <= number => {}
        _ => return None,
    }
    waiting.pop_front().map(|first| first.block)
}

/// Takes all blocks that wait for a number up to this one, and makes them free. Costs these blocks.
pub(crate) fn settle(
    uses: &mut [Use],
    hints: &mut [u64],
    waiting: &mut VecDeque<Waiting>,
    number: u64,
) -> u32
    requires below { All (λ b. b < length uses.old) (waiting_blocks waiting.old.items) }
    requires few { length waiting.old.items < 2 ^ 32 }
    ensures uses { uses.new ≡ put_all Free (settled_blocks number waiting.old.items) uses.old }
    ensures waiting { waiting.new.items ≡ left_waiting number waiting.old.items }
    ensures capacity { deque_capacity waiting.new ≡ deque_capacity waiting.old }
    ensures count { result ≡ length (settled_blocks number waiting.old.items) }
{
    let mut count = 0;
    while let Some(block) = take_settled(waiting, number) {
        uses[block as usize] = Use::Free;
        note(hints, block as usize, Use::Free);
        count += 1;
    }
    count
}
