//! The allocator and its calls.
ghost use Rattle.std.specs.Prelude.{◌≡◌, ℕ, ◌+◌, ◌*◌, ◌^◌, ◌<◌, ◌≤◌, ◌↔◌, ◌++◌, ◌∷◌, [], All, length, IfOk, IfErr, IfSome, IsOk, IsTrue, IsNone, OnOk, OnErr, MatchBool, MatchOption, slice_set};
ghost use Rattle.fx_alloc.specs.Uses.{use_at, put_all, StandOnce};
ghost use Rattle.fx_alloc.specs.Holders.{held_seat, vacant_seat};
ghost use Rattle.fx_alloc.specs.Space.{PassesCounts, IsOver, IsFree, CanReserve, HasSeat, CanSit, beyond_of, nodes_with, attributes_with, blocks_with, bound_with, free_count, laid_of, left_aside, HoldsBlock, opened, freeing, settling, seat_given, reserved, drawing, holder_ended, holder_at, settled_blocks, left_waiting, IsLatest, HasAside, laying, CanSetAside, setting_aside, no_need, IsSwitched, IsPinned, IsUnpinned, HasPin};
ghost use Rattle.fx_alloc.specs.Inside.{IsSoundSpace};

use crate::chain::{Chain, chain_up, release, turn};
use crate::hints::{new_hints, note};
use crate::holders::{
    Holder, SEATS, VACANT, all_attributes, all_drawn, all_held, all_nodes, find_seat, find_vacant,
    with_drawn, with_need,
};
use crate::layers::{end_pin, pin_free, take_all_back};
use crate::pins::Pins;
use crate::uses::{Use, Waiting, new_uses, next_free};
use crate::waiting::settle;
use fx_item::{Beyond, MAX_GIVEN, Need, Sizes, layer_bound};
use std::alloc::{AllocError, Global};
use std::collections::VecDeque;
use std::marker::Model;

/// Why there is no room for a need.
#[derive(Clone, Copy, Debug, PartialEq, Eq)]
pub struct Short {
    /// Whether the counts alone leave no room: their bound or the ids fail. Else blocks are not
    /// free yet.
    pub counted: bool,
    pub beyond: Beyond,
}

/// The uses of a disk's blocks, and what numbers hold.
#[derive(Drop)]
pub struct Space {
    ring: u32,
    nodes: u32,
    attributes: u32,
    given: u64,
    uses: Vec<Use>,
    // of each block whether a draw looks at it, 64 a word
    hints: Vec<u64>,
    // of a drawn block, a layer's or a laid one the next of its chain
    links: Vec<u32>,
    free: u32,
    live: u32,
    pinned: u32,
    holders: Vec<Holder>,
    // of each seat the block that it drew last
    heads: Vec<u32>,
    layers: Chain,
    laid: Chain,
    waiting: VecDeque<Waiting>,
    aside: Option<u32>,
    pins: Pins,
    // where the next draw looks first
    last: u32,
}

impl Model for Space {
    ghost use Rattle.std.specs.Prelude.{◌-◌};
    ghost use Rattle.std.specs.VecDeque.{deque_len, deque_capacity};
    ghost use Rattle.fx_alloc.specs.Space.{Space};

    ghost Value = { Space };

    ghost use Rattle.std.specs.Prelude.{◌≡◌};
    ghost use Rattle.fx_alloc.specs.Inside.{IsSpace};
    ghost use Rattle.fx_alloc.specs.Layers.{FitPins};

    ghost view = { λ a. record {
      ring = a.ring;
      nodes = a.nodes;
      attributes = a.attributes;
      given = a.given;
      uses = a.uses.items;
      holders = a.holders.items;
      waiting = a.waiting.items;
      room = deque_capacity a.waiting - deque_len a.waiting;
      aside = a.aside;
      pins = a.pins;
    } };

    ghost invariant = { λ a. IsSpace a.uses.items a.links.items a.ring a.given a.free a.live
        a.pinned a.holders.items a.heads.items a.layers a.laid a.waiting.items a.aside
        × FitPins a.uses.items a.pins };
}

impl Space {
    /// The allocator of a disk of so many blocks with a ring of so many: these blocks are live and
    /// those are layers', and all others past the ring are free. `sizes` are those of the tree and
    /// the graveyard; of these the nodes and attributes are kept, and the blocks are counted.
    /// Nothing is held. Costs a few passes over the disk, and some seven bytes of memory for each
    /// block.
    pub fn new(
        alloc: Global,
        blocks: u32,
        ring: u32,
        live: &[u32],
        layers: &[u32],
        sizes: Sizes,
    ) -> Result<Space, AllocError>
        requires ring { ring + 2 ≤ blocks }
        requires places { All (λ b. (ring + 2 ≤ b) × (b < blocks)) (live.now ++ layers.now) }
        requires apart { StandOnce (live.now ++ layers.now) }
        ensures { IfOk result (λ space. space ≡
            record (opened blocks ring live.now layers.now sizes) { room = space.room }) }
    {
        let mut uses = new_uses(alloc, blocks, ring, live)?;
        let mut links = vec![in alloc; 0; blocks as usize]?;
        let layers = chain_up(uses.as_mut_slice(), links.as_mut_slice(), layers);
        let hints = new_hints(alloc, uses.as_slice())?;
        let pins = Pins::new(alloc);
        Ok(Space {
            ring,
            nodes: sizes.nodes,
            attributes: sizes.attributes,
            given: 0,
            uses,
            hints,
            links,
            free: blocks - (ring + 2) - live.len() as u32 - layers.len,
            live: live.len() as u32,
            pinned: 0,
            holders: vec![in alloc; VACANT; usize::from(SEATS)]?,
            heads: vec![in alloc; 0; usize::from(SEATS)]?,
            layers,
            laid: Chain { head: 0, len: 0 },
            waiting: VecDeque::new(alloc),
            aside: None,
            pins,
            last: 0,
        })
    }

    // All nodes, with those of an asked need.
    fn nodes_with(&self, need: Need) -> u64
        ensures value { result ≡ nodes_with self.now need }
        ensures few { result < 2 ^ 36 }
    {
        u64::from(self.nodes) + all_nodes(self.holders.as_slice()) + u64::from(need.nodes)
    }

    // All attributes, with those of an asked need.
    fn attributes_with(&self, need: Need) -> u64
        ensures value { result ≡ attributes_with self.now need }
        ensures few { result < 2 ^ 36 }
    {
        let count = u64::from(self.attributes);
        count + all_attributes(self.holders.as_slice()) + u64::from(need.attributes)
    }

    // All data blocks, with those of an asked need.
    fn blocks_with(&self, need: Need) -> u64
        ensures value { result ≡ blocks_with self.now need }
        ensures few { result < 2 ^ 40 }
    {
        let holders = self.holders.as_slice();
        let held = all_held(holders) + all_drawn(holders);
        u64::from(self.live) + held + u64::from(need.blocks)
    }

    // The bound on the layer blocks, with an asked need.
    fn bound_with(&self, need: Need) -> u64
        ensures value { result ≡ bound_with self.now need }
        ensures few { result < 2 ^ 48 }
    {
        layer_bound(
            self.nodes_with(need),
            self.attributes_with(need),
            self.blocks_with(need),
        )
    }

    // Whether the counts and the ids leave room.
    fn is_counted(&self, need: Need) -> bool
        ensures { MatchBool result (PassesCounts self.now need) (IsOver self.now need) }
    {
        let blocks = self.blocks_with(need) + self.waiting.len() as u64 + u64::from(self.pinned);
        let wanted = blocks + 3 * self.bound_with(need) + 3 * u64::from(self.ring) + 2;
        wanted <= self.uses.len() as u64 && self.given + u64::from(need.nodes) <= MAX_GIVEN
    }

    // Blocks set aside and not yet laid.
    fn left_aside(&self) -> u32
        ensures { result ≡ left_aside self.now.aside (laid_of self.now) }
    {
        match self.aside {
            Some(count) => count.saturating_sub(self.laid.len),
            None => 0,
        }
    }

    // Whether blocks are free for a need and for the layers to come.
    fn is_free(&self, need: Need) -> bool
        ensures { IsTrue result ↔ IsFree self.now need }
    {
        let bound = self.bound_with(need);
        let kept = match self.aside {
            Some(_) => bound,
            None => 2 * bound,
        };
        let held = all_held(self.holders.as_slice()) + u64::from(self.left_aside());
        held + u64::from(need.blocks) + kept <= u64::from(self.free)
    }

    /// What a block is used for. A block past the disk is the system's.
    pub fn use_of(&self, block: u32) -> Use
        ensures { result ≡ use_at self.now.uses block }
    {
        match self.uses.get(block as usize) {
            Some(kind) => *kind,
            None => Use::System,
        }
    }

    /// Whether the number has a seat, or there is one for it. Costs the seats.
    pub fn can_sit(&self, who: u32) -> bool
        ensures { IsTrue result ↔ CanSit self.now who }
    {
        let holders = self.holders.as_slice();
        find_seat(holders, who).is_some() || find_vacant(holders).is_some()
    }

    /// Whether the number may still draw a block. Costs the seats.
    pub fn may_draw(&self, who: u32) -> bool
        ensures { IsTrue result ↔ HoldsBlock self.now who }
    {
        match find_seat(self.holders.as_slice(), who) {
            Some(seat) => self.holders[seat].held > 0,
            None => false,
        }
    }

    /// Whether no block waits for a greater number.
    pub fn is_latest(&self, number: u64) -> bool
        ensures { IsTrue result ↔ IsLatest number self.now.waiting }
    {
        match self.waiting.back() {
            Some(last) => last.number <= number,
            None => true,
        }
    }

    /// The blocks that are free.
    pub fn free(&self) -> u32
        ensures { result ≡ free_count self.now }
    {
        self.free
    }

    /// What is so of every allocator: what is held is free, each block has one use and is counted
    /// once, and what waits is what was freed, in the order of the numbers. For those who prove:
    /// the function does nothing.
    pub fn sound(&self)
        ensures { IsSoundSpace self.now }
    {
        self.pins.sound();
    }

    /// What the counts hold beyond the committed tree.
    pub fn beyond(&self) -> Beyond
        ensures { result ≡ beyond_of self.now }
    {
        let holders = self.holders.as_slice();
        Beyond {
            nodes: all_nodes(holders),
            attributes: all_attributes(holders),
            blocks: all_held(holders) + all_drawn(holders),
            waiting: self.waiting.len() as u64 + u64::from(self.pinned),
            given: self.given,
        }
    }

    /// Gives the number a seat, unless it has one. At most [`SEATS`] numbers have seats at once. A
    /// seat ends with [`Space::undo`] and [`Space::take_over`]. Takes no memory.
    pub fn slot(&mut self, who: u32)
        requires { CanSit self.old who }
        ensures seat_given { MatchOption (held_seat self.old.holders who)
            (IfSome (vacant_seat self.old.holders)
            (λ seat. self.new ≡ seat_given self.old who seat))
            (λ _. self.new ≡ self.old) }
        ensures seat { HasSeat self.new who }
    {
        match find_seat(self.holders.as_slice(), who) {
            Some(_) => {}
            None => {
                if let Some(seat) = find_vacant(self.holders.as_slice()) {
                    self.holders[seat] = Holder {
                        who,
                        sits: true,
                        ..VACANT
                    };
                }
            }
        }
    }

    // Why there is no room for a need, if there is none.
    fn find_short(&self, need: Need) -> Option<Short>
        ensures none { IsNone result ↔ CanReserve self.now need }
        ensures counted { IfSome result (λ short. MatchBool short.counted (IsOver self.now need)
            (PassesCounts self.now need)) }
        ensures beyond { IfSome result (λ short. short.beyond ≡ beyond_of self.now) }
    {
        if need == Need::default() {
            return None;
        }
        let counted = !self.is_counted(need);
        if counted || !self.is_free(need) {
            let beyond = self.beyond();
            return Some(Short { counted, beyond });
        }
        None
    }

    /// Adds a need to what the number holds, and gives out as many ids as it has nodes. `Short`
    /// exactly where the need is not nothing and one of the three tests of room fails. Takes no
    /// memory.
    pub fn reserve(&mut self, who: u32, need: Need) -> Result<(), Short>
        requires { HasSeat self.old who }
        ensures ok { IsOk result ↔ CanReserve self.old need }
        ensures reserved { OnOk result (IfSome (held_seat self.old.holders who)
            (λ seat. self.new ≡ reserved self.old need seat)) }
        ensures counted { IfErr result (λ short. MatchBool short.counted (IsOver self.old need)
            (PassesCounts self.old need)) }
        ensures beyond { IfErr result (λ short. short.beyond ≡ beyond_of self.old) }
        ensures err { OnErr result (self.new ≡ self.old) }
    {
        if let Some(short) = self.find_short(need) {
            return Err(short);
        }
        let Some(seat) = find_seat(self.holders.as_slice(), who) else {
            unreachable!()
        };
        let holder = with_need(self.holders[seat], need);
        self.given += u64::from(need.nodes);
        self.holders[seat] = holder;
        Ok(())
    }

    /// Draws a free block for the number: the first one from the last draw on. Takes no memory.
    pub fn draw(&mut self, who: u32) -> u32
        requires { HoldsBlock self.old who }
        ensures free { use_at self.old.uses result ≡ Use.Free }
        ensures drawn { IfSome (held_seat self.old.holders who)
            (λ seat. self.new ≡ drawing self.old result seat) }
    {
        let Some(seat) = find_seat(self.holders.as_slice(), who) else {
            unreachable!()
        };
        let at = next_free(
            self.uses.as_slice(),
            self.hints.as_slice(),
            self.last as usize,
        );
        let block = at as u32;
        let holder = with_drawn(self.holders[seat]);
        let before = self.heads[seat];
        self.uses[at] = Use::Drawn(seat as u8);
        note(self.hints.as_mut_slice(), at, Use::Drawn(seat as u8));
        self.links[at] = before;
        self.heads[seat] = block;
        self.holders[seat] = holder;
        self.free -= 1;
        self.last = block + 1;
        block
    }

    // The bound on the layer blocks, if as many blocks are free, those that are laid counted as
    // free.
    fn bound_to_set_aside(&self) -> Option<u64>
        ensures some { IfSome result (λ bound. (bound ≡ bound_with self.now no_need)
            × CanSetAside self.now) }
        ensures none { IsNone result ↔ (CanSetAside self.now → ⊥) }
    {
        let bound = self.bound_with(Need::default());
        let free = u64::from(self.free) + u64::from(self.laid.len);
        if all_held(self.holders.as_slice()) + bound <= free {
            return Some(bound);
        }
        None
    }

    /// Sets as many free blocks aside as the layers may take; a checkpoint that is open begins
    /// anew, and what it had laid is free. `Short` exactly where fewer are free. Takes no memory.
    /// Costs the blocks that were laid.
    pub fn aside(&mut self) -> Result<(), Short>
        ensures ok { IsOk result ↔ CanSetAside self.old }
        ensures aside { OnOk result (self.new ≡ setting_aside self.old) }
        ensures counted { IfErr result (λ short. MatchBool short.counted
            (IsOver self.old no_need) (PassesCounts self.old no_need)) }
        ensures beyond { IfErr result (λ short. short.beyond ≡ beyond_of self.old) }
        ensures err { OnErr result (self.new ≡ self.old) }
    {
        let Some(bound) = self.bound_to_set_aside() else {
            let counted = !self.is_counted(Need::default());
            let beyond = self.beyond();
            return Err(Short { counted, beyond });
        };
        let laid = self.laid;
        turn(
            self.uses.as_mut_slice(),
            self.hints.as_mut_slice(),
            self.links.as_slice(),
            laid,
            Use::Free,
        );
        self.laid = Chain { head: 0, len: 0 };
        self.free += laid.len;
        self.aside = Some(bound as u32);
        Ok(())
    }

    /// Whether a block is set aside for the open checkpoint and not yet laid.
    pub fn has_aside(&self) -> bool
        ensures { IsTrue result ↔ HasAside self.now }
    {
        self.left_aside() > 0
    }

    /// Lays one of the blocks set aside for the layers of the open checkpoint: the first free one
    /// from the last draw on. Takes no memory.
    pub fn layer_block(&mut self) -> u32
        requires { HasAside self.old }
        ensures free { use_at self.old.uses result ≡ Use.Free }
        ensures laid { self.new ≡ laying self.old result }
    {
        let at = next_free(
            self.uses.as_slice(),
            self.hints.as_slice(),
            self.last as usize,
        );
        let block = at as u32;
        let before = self.laid;
        self.uses[at] = Use::Laid;
        note(self.hints.as_mut_slice(), at, Use::Laid);
        self.links[at] = before.head;
        self.laid = Chain {
            head: block,
            len: before.len + 1,
        };
        self.free -= 1;
        self.last = block + 1;
        block
    }

    /// The blocks laid are the layers' from now on, and those of the layers in `stay` stay theirs.
    /// The other layer blocks are free, but for those that pins keep; and what was set aside and
    /// not laid is free for others. Takes no memory. Costs the layer blocks, and the blocks that
    /// pins keep.
    pub fn switched(&mut self, stay: &[u32])
        requires { All (λ b. use_at self.old.uses b ≡ Use.Layer) stay.now }
        ensures { IsSwitched self.old self.new stay.now }
    {
        let (old, laid) = (self.layers, self.laid);
        let uses = self.uses.as_mut_slice();
        let hints = self.hints.as_mut_slice();
        let links = self.links.as_mut_slice();
        turn(uses, hints, links, old, Use::Free);
        turn(uses, hints, links, laid, Use::Layer);
        let layers = take_all_back(uses, hints, links, laid, stay);
        let pinned = pin_free(uses, hints, self.pins.kept());
        self.free = self.free + old.len + laid.len - layers.len - pinned;
        self.pinned += pinned;
        self.layers = layers;
        self.laid = Chain { head: 0, len: 0 };
        self.aside = None;
        self.pins.replaced();
    }

    /// Whether a pin is present.
    pub fn has_pin(&self, pin: u64) -> bool
        ensures { IsTrue result ↔ HasPin self.now pin }
    {
        self.pins.has(pin as usize)
    }

    /// Keeps the present layer blocks until [`Space::unpin`], also where they are replaced. The
    /// number is one that no present pin has. On an error nothing has changed. Costs the layer
    /// blocks where the present layers have no pin yet; later pins of the same layers cost nothing
    /// more.
    pub fn pin(&mut self) -> Result<u64, AllocError>
        ensures ok { IfOk result (λ pin. IsPinned self.old self.new pin) }
        ensures others { self.new ≡ record self.old { pins = self.new.pins } }
        ensures err { OnErr result (self.new ≡ self.old) }
    {
        self.pins.sound();
        let pin = self.pins.pin(self.links.as_slice(), self.layers)?;
        Ok(pin as u64)
    }

    /// Ends a pin: replaced layer blocks that no other pin keeps are free. Takes no memory. Costs
    /// the blocks that pins keep where it was the last pin of its layers, and else nothing more.
    pub fn unpin(&mut self, pin: u64)
        requires { HasPin self.old pin }
        ensures { IsUnpinned self.old self.new pin }
    {
        let uses = self.uses.as_mut_slice();
        let hints = self.hints.as_mut_slice();
        let freed = end_pin(uses, hints, &mut self.pins, pin as usize);
        self.free += freed;
        self.pinned -= freed;
    }

    /// Ends what the number holds, and its seat: what it drew is free. Takes no memory. Costs the
    /// blocks that it drew.
    pub fn undo(&mut self, who: u32)
        ensures { MatchOption (held_seat self.old.holders who) (self.new ≡ self.old)
            (λ seat. self.new ≡ holder_ended self.old Use.Free seat) }
    {
        if let Some(seat) = find_seat(self.holders.as_slice(), who) {
            let drawn = Chain {
                head: self.heads[seat],
                len: self.holders[seat].drawn,
            };
            release(
                self.uses.as_mut_slice(),
                self.hints.as_mut_slice(),
                self.links.as_slice(),
                drawn,
                seat,
                Use::Free,
            );
            self.holders[seat] = VACANT;
            self.free += drawn.len;
        }
    }

    /// Ends what the number holds, and its seat: what it drew is live. `sizes` are those of the
    /// tree and the graveyard from now on; of these the nodes and attributes are kept, and the
    /// blocks are counted. Takes no memory. Costs the blocks that the number drew.
    pub fn take_over(&mut self, who: u32, sizes: Sizes)
        requires { HasSeat self.old who }
        ensures { IfSome (held_seat self.old.holders who) (λ seat. self.new ≡
            record (holder_ended self.old Use.Live seat)
            { nodes = sizes.nodes; attributes = sizes.attributes }) }
    {
        let Some(seat) = find_seat(self.holders.as_slice(), who) else {
            unreachable!()
        };
        let drawn = Chain {
            head: self.heads[seat],
            len: self.holders[seat].drawn,
        };
        release(
            self.uses.as_mut_slice(),
            self.hints.as_mut_slice(),
            self.links.as_slice(),
            drawn,
            seat,
            Use::Live,
        );
        self.holders[seat] = VACANT;
        self.live += drawn.len;
        self.nodes = sizes.nodes;
        self.attributes = sizes.attributes;
    }

    /// Makes place for so many more blocks that wait. On an error the places are as they were.
    pub fn room(&mut self, blocks: u32) -> Result<(), AllocError>
        ensures ok { OnOk result (blocks ≤ self.new.room) }
        ensures space { self.new ≡ record self.old { room = self.new.room } }
        ensures room { self.old.room ≤ self.new.room }
    {
        self.waiting.reserve(blocks as usize)
    }

    /// A live block was freed by the transaction with this number, the latest so far. It is free
    /// once that transaction is settled. Takes no memory.
    pub fn freed(&mut self, block: u32, number: u64)
        requires live { use_at self.old.uses block ≡ Use.Live }
        requires room { 0 < self.old.room }
        requires latest { IsLatest number self.old.waiting }
        ensures { self.new ≡ freeing self.old block number }
    {
        self.uses[block as usize] = Use::Freed;
        self.live -= 1;
        self.waiting.push_back_reserved(Waiting { block, number });
    }

    /// The blocks that transactions up to this number freed are free. Takes no memory. Costs these
    /// blocks.
    pub fn settled(&mut self, number: u64)
        ensures settled { self.new ≡ record (settling self.old number) { room = self.new.room } }
        ensures room { self.new.room ≡
            self.old.room + length (settled_blocks number self.old.waiting) }
    {
        let count = settle(
            self.uses.as_mut_slice(),
            self.hints.as_mut_slice(),
            &mut self.waiting,
            number,
        );
        self.free += count;
    }
}

#[cfg(test)]
mod tests;
