//! The numbers that hold reservations, and what they hold.
ghost use Rattle.std.specs.Prelude.{◌≡◌, ◌+◌, ◌<◌, ◌^◌, sum_by};
ghost use Rattle.fx_alloc.specs.Holders.{held_seat, vacant_seat, needing, having_drawn};

use fx_item::Need;

/// How many numbers may hold reservations at once.
pub const SEATS: u8 = 32;

/// What the number on a seat holds.
#[derive(Clone, Copy, Debug, PartialEq, Eq)]
pub struct Holder {
    pub who: u32,
    /// Whether the number has the seat.
    pub sits: bool,
    pub nodes: u64,
    pub attributes: u64,
    /// Blocks that it may still draw.
    pub held: u64,
    /// Blocks that it has drawn.
    pub drawn: u32,
}

pub(crate) const VACANT: Holder = Holder {
    who: 0,
    sits: false,
    nodes: 0,
    attributes: 0,
    held: 0,
    drawn: 0,
};

/// The seat of a number.
pub(crate) fn find_seat(holders: &[Holder], who: u32) -> Option<usize>
    ensures { result ≡ held_seat holders.now who }
{
    holders
        .iter()
        .position(|holder| holder.sits && holder.who == who)
}

/// The first seat that nobody has.
pub(crate) fn find_vacant(holders: &[Holder]) -> Option<usize>
    ensures { result ≡ vacant_seat holders.now }
{
    holders.iter().position(|holder| !holder.sits)
}

/// The nodes of all needs.
pub(crate) fn all_nodes(holders: &[Holder]) -> u64
    requires { sum_by (λ h. h.nodes) holders.now < 2 ^ 64 }
    ensures { result ≡ sum_by (λ h. h.nodes) holders.now }
{
    holders.iter().map(|holder| holder.nodes).sum()
}

/// The attributes of all needs.
pub(crate) fn all_attributes(holders: &[Holder]) -> u64
    requires { sum_by (λ h. h.attributes) holders.now < 2 ^ 64 }
    ensures { result ≡ sum_by (λ h. h.attributes) holders.now }
{
    holders.iter().map(|holder| holder.attributes).sum()
}

/// The blocks that all numbers may still draw.
pub(crate) fn all_held(holders: &[Holder]) -> u64
    requires { sum_by (λ h. h.held) holders.now < 2 ^ 64 }
    ensures { result ≡ sum_by (λ h. h.held) holders.now }
{
    holders.iter().map(|holder| holder.held).sum()
}

/// The blocks that all numbers have drawn.
pub(crate) fn all_drawn(holders: &[Holder]) -> u64
    requires { sum_by (λ h. h.drawn) holders.now < 2 ^ 64 }
    ensures { result ≡ sum_by (λ h. h.drawn) holders.now }
{
    holders.iter().map(|holder| u64::from(holder.drawn)).sum()
}

/// A holder with one more need.
pub(crate) fn with_need(holder: Holder, need: Need) -> Holder
    requires nodes { holder.nodes < 2 ^ 48 }
    requires attributes { holder.attributes < 2 ^ 48 }
    requires held { holder.held < 2 ^ 48 }
    ensures { result ≡ needing holder need }
{
    Holder {
        nodes: holder.nodes + u64::from(need.nodes),
        attributes: holder.attributes + u64::from(need.attributes),
        held: holder.held + u64::from(need.blocks),
        ..holder
    }
}

/// A holder that drew one of the blocks that it held.
pub(crate) fn with_drawn(holder: Holder) -> Holder
    requires held { 0 < holder.held }
    requires drawn { holder.drawn + 1 < 2 ^ 32 }
    ensures { result ≡ having_drawn holder }
{
    Holder {
        held: holder.held - 1,
        drawn: holder.drawn + 1,
        ..holder
    }
}
