//! The calls one after another: against worked answers, and against a plain list of holds.
ghost use Rattle.std.specs.Prelude.{◌≡◌, ◌≢◌, ℕ, ◌<◌, Some, IsTrue};
ghost use Rattle.std.specs.List.{All};
ghost use Rattle.std.specs.declared.cmp.Ordering.TheVariants.{Less};
ghost use Rattle.fx_item.specs.LockKey.{key_cmp};
ghost use Rattle.fx_keys.specs.Holdings.{mode_in};
ghost use Rattle.fx_keys.specs.Seats.{grants_of};
ghost use Rattle.fx_keys.specs.Table.{HasSeatFor, IsAboveKeysOf, IsNextToRaise, mode_of, room_of};

use super::*;
use crate::conflict::conflicts;
use crate::holdings::tests as own;
use crate::seats::seat_at;
use std::process::Abort;
use std::test::Fail;

/// How many further keys the number may take.
fn places(seats: &[Seat], who: u32) -> usize
    ensures { result ≡ (grants_of seats.now who).places }
{
    match seat_at(seats, who) {
        Some(at) => own::places(&seats[at].holdings),
        None => 0,
    }
}

/// Whether each key of the number's is below this one.
fn is_above(seats: &[Seat], who: u32, key: LockKey) -> bool
    ensures { IsTrue result → All (λ h. key_cmp h.key key ≡ Less) (grants_of seats.now who).holds }
{
    match seat_at(seats, who) {
        Some(at) => own::are_below(&seats[at].holdings, key),
        None => true,
    }
}

/// Whether no key of the number's is below this one.
fn is_first(seats: &[Seat], who: u32, key: LockKey) -> bool
    ensures { IsTrue result → All (λ h. key_cmp h.key key ≢ Less) (grants_of seats.now who).holds }
{
    match seat_at(seats, who) {
        Some(at) => own::are_from(&seats[at].holdings, key),
        None => true,
    }
}

/// Whether the number holds the key for a change.
fn is_changing(seats: &[Seat], who: u32, key: LockKey) -> bool
    ensures { IsTrue result → mode_in (grants_of seats.now who).holds key ≡ Some Mode.Change }
{
    match seat_at(seats, who) {
        Some(at) => matches!(seats[at].holdings.mode(key), Some(Mode::Change)),
        None => false,
    }
}

/// Whether the mode can be asked for.
fn is_askable(mode: Mode) -> bool
    ensures { IsTrue result → mode ≢ Mode.Write }
{
    match mode {
        Mode::Write => false,
        Mode::Share | Mode::Change | Mode::Read => true,
    }
}

/// Whether each number may have room.
fn has_seat(table: &KeyTable) -> bool
    ensures { IsTrue result → (who : ℕ) → HasSeatFor table.now who }
{
    table.seats.len() < MAX_NUMBERS
}

/// Whether the number may ask for the key.
fn may_ask(table: &KeyTable, who: u32, key: LockKey) -> bool
    ensures room { IsTrue result → 0 < room_of table.now who }
    ensures order { IsTrue result → IsAboveKeysOf table.now who key }
{
    places(table.seats.as_slice(), who) > 0 && is_above(table.seats.as_slice(), who, key)
}

/// Whether the number may raise its hold of the key.
fn may_raise(table: &KeyTable, who: u32, key: LockKey) -> bool
    ensures held { IsTrue result → mode_of table.now who key ≡ Some Mode.Change }
    ensures order { IsTrue result → IsNextToRaise table.now who key }
{
    is_changing(table.seats.as_slice(), who, key) && is_first(table.seats.as_slice(), who, key)
}

/// The ask of a number that has room.
fn ask_in_room(rt: &impl Abort, table: &mut KeyTable, who: u32, key: LockKey, mode: Mode) -> Asked {
    assert!(rt; may_ask(table, who, key));
    assert!(rt; is_askable(mode));
    table.ask(who, key, mode)
}

/// Room for one hold, and then the ask.
fn ask(
    rt: &impl Abort,
    table: &mut KeyTable,
    who: u32,
    key: LockKey,
    mode: Mode,
) -> Result<Asked, AllocError> {
    assert!(rt; has_seat(table));
    table.room(who, 1)?;
    Ok(ask_in_room(rt, table, who, key, mode))
}

fn raise(rt: &impl Abort, table: &mut KeyTable, who: u32, key: LockKey) -> Asked {
    assert!(rt; may_raise(table, who, key));
    table.raise(who, key)
}

fn key(id: u64) -> LockKey {
    LockKey { store: 1, id }
}

#[test]
fn a_reader_and_a_writer(rt: HostRuntime) -> Result<(), Fail> {
    let mut table = KeyTable::new(rt.alloc());
    let k = key(7);
    assert_eq!(rt; ask(&rt, &mut table, 1, k, Mode::Change)?, Asked::Held);
    assert_eq!(rt; ask(&rt, &mut table, 2, k, Mode::Share)?, Asked::Busy(1));
    assert_eq!(rt; ask(&rt, &mut table, 3, k, Mode::Read)?, Asked::Held);
    assert_eq!(rt; raise(&rt, &mut table, 1, k), Asked::Busy(3));
    table.drop_all(3);
    assert_eq!(rt; raise(&rt, &mut table, 1, k), Asked::Held);
    assert_eq!(rt; ask(&rt, &mut table, 3, k, Mode::Read)?, Asked::Busy(1));
    Ok(())
}

#[test]
fn two_walkers_and_a_change(rt: HostRuntime) -> Result<(), Fail> {
    let mut table = KeyTable::new(rt.alloc());
    let k = key(7);
    assert_eq!(rt; ask(&rt, &mut table, 1, k, Mode::Share)?, Asked::Held);
    assert_eq!(rt; ask(&rt, &mut table, 2, k, Mode::Share)?, Asked::Held);
    assert_eq!(rt; ask(&rt, &mut table, 3, k, Mode::Change)?, Asked::Busy(1));
    table.drop_all(1);
    assert_eq!(rt; ask(&rt, &mut table, 3, k, Mode::Change)?, Asked::Busy(2));
    Ok(())
}

#[test]
fn all_pairs_of_modes(rt: HostRuntime) {
    let modes = [Mode::Share, Mode::Change, Mode::Write, Mode::Read];
    let table = [
        [false, true, true, false],
        [true, true, true, false],
        [true, true, true, true],
        [false, false, true, false],
    ];
    for (row, held) in table.iter().zip(modes.iter()) {
        for (expected, asked) in row.iter().zip(modes.iter()) {
            assert_eq!(rt; conflicts(*held, *asked), *expected);
        }
    }
}

#[test]
fn thirty_two_share_a_key(rt: HostRuntime) -> Result<(), Fail> {
    let mut table = KeyTable::new(rt.alloc());
    for who in 1..33u32 {
        assert_eq!(rt;
            ask(&rt, &mut table, who, key(7), Mode::Share)?,
            Asked::Held
        );
    }
    assert!(rt; !has_seat(&table));
    table.drop_all(5);
    assert!(rt; has_seat(&table));
    assert_eq!(rt;
        ask(&rt, &mut table, 33, key(7), Mode::Change)?,
        Asked::Busy(1)
    );
    Ok(())
}

/// A hold in a plain list.
#[derive(Clone, Copy)]
struct Hold {
    who: u32,
    key: LockKey,
    mode: Mode,
}

/// The answer by a look at every hold.
fn expected(holds: &[Hold], who: u32, key: LockKey, mode: Mode) -> Asked {
    let mut answer = Asked::Held;
    for hold in holds {
        let in_the_way = hold.who != who && hold.key == key && conflicts(hold.mode, mode);
        let least = match answer {
            Asked::Held => true,
            Asked::Busy(other) => hold.who < other,
        };
        if in_the_way && least {
            answer = Asked::Busy(hold.who);
        }
    }
    answer
}

#[test]
fn as_a_plain_list_answers(rt: HostRuntime) -> Result<(), Fail> {
    let mut table = KeyTable::new(rt.alloc());
    let mut holds: Vec<Hold> = Vec::new(rt.alloc());
    let mut random = 1u64;
    for _ in 0..600 {
        random = random
            .wrapping_mul(6364136223846793005)
            .wrapping_add(1442695040888963407);
        let who = ((random >> 33) % 6 + 1) as u32;
        let at = key((random >> 40) % 9);
        let mode = match (random >> 50) % 3 {
            0 => Mode::Share,
            1 => Mode::Change,
            _ => Mode::Read,
        };
        assert!(rt; has_seat(&table));
        table.room(who, 1)?;
        if may_ask(&table, who, at) {
            assert!(rt; is_askable(mode));
            let answer = table.ask(who, at, mode);
            assert_eq!(rt; answer, expected(holds.as_slice(), who, at, mode));
            if answer == Asked::Held {
                holds.push(Hold { who, key: at, mode })?;
            }
        } else {
            table.drop_all(who);
            holds.retain(|hold| hold.who != who);
        }
    }
    Ok(())
}

/// A change of all keys by one number, beside a reader of some: each ask is a search, and a departure looks at no key.
#[test]
fn twenty_thousand_keys_of_one_number(rt: HostRuntime) -> Result<(), Fail> {
    let mut table = KeyTable::new(rt.alloc());
    assert!(rt; has_seat(&table));
    table.room(1, 20_000)?;
    for id in 0..20_000u64 {
        assert_eq!(rt;
            ask_in_room(&rt, &mut table, 1, key(id), Mode::Change),
            Asked::Held
        );
    }
    assert_eq!(rt; ask(&rt, &mut table, 2, key(7), Mode::Read)?, Asked::Held);
    assert_eq!(rt;
        ask(&rt, &mut table, 2, key(19_999), Mode::Share)?,
        Asked::Busy(1)
    );
    table.drop_all(1);
    assert_eq!(rt;
        ask(&rt, &mut table, 2, key(19_999), Mode::Share)?,
        Asked::Held
    );
    Ok(())
}
