//! Blocks of one use, linked one to another.
ghost use Rattle.std.specs.Prelude.{◌≡◌, ◌^◌, ◌<◌, All, false, length, map};
ghost use Rattle.fx_alloc.specs.Uses.{put_all, blocks_from, is_drawn_by};
ghost use Rattle.fx_alloc.specs.Space.{turned};
ghost use Rattle.fx_alloc.specs.Inside.{IsDrawn};
ghost use Rattle.fx_alloc.specs.Uses.{AreUsed};

use crate::hints::note;
use crate::uses::Use;

/// The first block of a chain, and how many it has.
#[derive(Clone, Copy, Debug, PartialEq, Eq)]
pub(crate) struct Chain {
    pub(crate) head: u32,
    pub(crate) len: u32,
}

/// Gives each block of a chain another use. Costs the blocks of the chain.
pub(crate) fn turn(uses: &mut [Use], hints: &mut [u64], links: &[u32], chain: Chain, to: Use)
    requires uses { All (λ b. b < length uses.old) (blocks_from links.now chain.head chain.len) }
    requires links { length links.now ≡ length uses.old }
    ensures { uses.new ≡ put_all to (blocks_from links.now chain.head chain.len) uses.old }
{
    let mut block = chain.head;
    let mut left = chain.len;
    while left > 0 {
        uses[block as usize] = to;
        note(hints, block as usize, to);
        block = links[block as usize];
        left -= 1;
    }
}

/// Gives what was drawn from a seat another use. Costs the blocks that were drawn.
pub(crate) fn release(
    uses: &mut [Use],
    hints: &mut [u64],
    links: &[u32],
    chain: Chain,
    seat: usize,
    to: Use,
)
    requires drawn { IsDrawn uses.old links.now chain.head chain.len seat }
    requires links { length links.now ≡ length uses.old }
    requires other { is_drawn_by seat to ≡ false }
    ensures { uses.new ≡ map (turned seat to) uses.old }
{
    let _seat = seat;
    turn(uses, hints, links, chain, to);
}

/// Makes free blocks layer blocks, and a chain of them.
pub(crate) fn chain_up(uses: &mut [Use], links: &mut [u32], blocks: &[u32]) -> Chain
    requires free { AreUsed Use.Free uses.old blocks.now }
    requires links { length links.old ≡ length uses.old }
    requires small { length uses.old < 2 ^ 32 }
    requires few { length blocks.now < 2 ^ 32 }
    ensures uses { uses.new ≡ put_all Use.Layer blocks.now uses.old }
    ensures chain { AreUsed Use.Layer uses.new (blocks_from links.new result.head result.len) }
    ensures len { result.len ≡ length blocks.now }
{
    let mut chain = Chain { head: 0, len: 0 };
    for block in blocks {
        let at = *block as usize;
        uses[at] = Use::Layer;
        links[at] = chain.head;
        chain = Chain {
            head: *block,
            len: chain.len + 1,
        };
    }
    chain
}
