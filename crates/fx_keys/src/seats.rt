//! The numbers that hold a key or may take one, each with its keys.
ghost use Rattle.std.specs.Prelude.{◌≡◌, ◌<◌, ◌++◌, [], ◌∷◌, Some, None, OnOk, OnErr};
ghost use Rattle.std.specs.List.{All};
ghost use Rattle.std.specs.declared.cmp.Ordering.TheVariants.{Less};
ghost use Rattle.smallvec.specs.SmallVec.{HasRoomFor};
ghost use Rattle.fx_item.specs.LockKey.{key_cmp};
ghost use Rattle.fx_keys.specs.Holdings.{mode_in};
ghost use Rattle.fx_keys.specs.Seats.{SeatIs, grants_of, seat_of, left_by, RaisesAt};
ghost use Rattle.fx_keys.specs.Seats.{blockers, is_blocking, IsLeastOf};
ghost use Rattle.fx_keys.specs.Seats.{with_room, with_places, with_hold};

use crate::conflict::conflicts;
use crate::holdings::Holdings;
use crate::table::MAX_NUMBERS;
use fx_item::{LockKey, Mode};
use smallvec::SmallVec;
use std::alloc::{AllocError, Global};
use std::default::MadeWith;

/// A number that holds a key or may take one.
#[derive(Drop)]
pub(crate) struct Seat {
    pub(crate) who: u32,
    pub(crate) holdings: Holdings,
}

impl MadeWith<Global> for Seat {
    fn made_with(alloc: Global) -> Seat {
        Seat {
            who: 0,
            holdings: Holdings::new(alloc),
        }
    }
}

/// Where the number stands in the list.
pub(crate) fn seat_at(seats: &[Seat], who: u32) -> Option<usize>
    ensures { SeatIs seats.now who result }
{
    seats.iter().position(|seat| seat.who == who)
}

/// Whether the hold of another number keeps one from holding the key in this mode.
fn is_in_the_way(holdings: &Holdings, key: LockKey, mode: Mode) -> bool
    ensures { result ≡ is_blocking key mode holdings.now }
{
    match holdings.mode(key) {
        Some(held) => conflicts(held, mode),
        None => false,
    }
}

/// The least of the other numbers that keep `who` from holding the key in this mode. Costs a binary search among the
/// keys of each of them.
pub(crate) fn least_in_the_way(seats: &[Seat], who: u32, key: LockKey, mode: Mode) -> Option<u32>
    ensures { IsLeastOf (blockers who key mode seats.now) result }
{
    seats
        .iter()
        .filter(|seat| seat.who != who && is_in_the_way(&seat.holdings, key, mode))
        .map(|seat| seat.who)
        .min()
}

/// Puts a number with its first places at the end of the list.
fn admit(seats: &mut SmallVec<Seat, MAX_NUMBERS>, who: u32, count: u32) -> Result<(), AllocError>
    requires { HasRoomFor seats.old 1 }
    ensures ok { OnOk result (seats.new.items ≡ seats.old.items ++ with_room who count ∷ []) }
    ensures err { OnErr result (seats.new.items ≡ seats.old.items) }
    ensures capacity { seats.new.capacity ≡ seats.old.capacity }
{
    let mut holdings = Holdings::new(*seats.allocator());
    holdings.reserve(count)?;
    seats.push_reserved(Seat { who, holdings });
    Ok(())
}

/// So many more places for the number, or nothing has changed. With none a number does not come into the list.
pub(crate) fn reserve(
    seats: &mut SmallVec<Seat, MAX_NUMBERS>,
    who: u32,
    count: u32,
) -> Result<(), AllocError>
    requires { seat_of seats.old.items who ≡ None → HasRoomFor seats.old 1 }
    ensures ok { OnOk result (seats.new.items ≡ with_places who count seats.old.items) }
    ensures err { OnErr result (seats.new.items ≡ seats.old.items) }
    ensures capacity { seats.new.capacity ≡ seats.old.capacity }
{
    if count == 0 {
        return Ok(());
    }
    match seat_at(seats.as_slice(), who) {
        Some(at) => seats.as_mut_slice()[at].holdings.reserve(count),
        None => admit(seats, who, count),
    }
}

/// The number holds one more key, above all of its others.
pub(crate) fn grant(seats: &mut SmallVec<Seat, MAX_NUMBERS>, who: u32, key: LockKey, mode: Mode)
    requires place { 0 < (grants_of seats.old.items who).places }
    requires above { All (λ h. key_cmp h.key key ≡ Less) (grants_of seats.old.items who).holds }
    ensures items { seats.new.items ≡ with_hold who key mode seats.old.items }
    ensures capacity { seats.new.capacity ≡ seats.old.capacity }
{
    if let Some(at) = seat_at(seats.as_slice(), who) {
        seats.as_mut_slice()[at].holdings.grant(key, mode);
    }
}

/// The number's hold of the key is one for a write.
pub(crate) fn raise(seats: &mut SmallVec<Seat, MAX_NUMBERS>, who: u32, key: LockKey)
    requires { mode_in (grants_of seats.old.items who).holds key ≡ Some Mode.Change }
    ensures items { RaisesAt who key seats.old.items seats.new.items }
    ensures capacity { seats.new.capacity ≡ seats.old.capacity }
{
    if let Some(at) = seat_at(seats.as_slice(), who) {
        seats.as_mut_slice()[at].holdings.raise(key);
    }
}

/// The number goes from the list, and its memory is given back.
pub(crate) fn forget(seats: &mut SmallVec<Seat, MAX_NUMBERS>, who: u32)
    ensures items { seats.new.items ≡ left_by who seats.old.items }
    ensures capacity { seats.new.capacity ≡ seats.old.capacity }
{
    seats.retain(|seat| seat.who != who);
}
