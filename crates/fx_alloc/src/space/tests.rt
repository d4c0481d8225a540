use super::*;
use std::alloc::Global;
use std::process::Abort;

const SIZES: Sizes = Sizes {
    nodes: 2,
    attributes: 0,
    blocks: 0,
};

// A disk of 1,088 blocks with a ring of 256, on which two nodes and no block lie.
fn disk(alloc: Global) -> Result<Space, AllocError> {
    Space::new(alloc, 1088, 256, &[], &[], SIZES)
}

fn ask(rt: &impl Abort, space: &mut Space, who: u32, blocks: u32) -> Result<(), Short> {
    assert!(rt; space.can_sit(who));
    space.slot(who);
    space.reserve(
        who,
        Need {
            nodes: 0,
            attributes: 0,
            blocks,
        },
    )
}

fn draw_one(rt: &impl Abort, space: &mut Space, who: u32) -> u32 {
    assert!(rt; space.may_draw(who));
    space.draw(who)
}

// So many draws give blocks one after another, from a first one on.
fn draw_in_a_row(rt: &impl Abort, space: &mut Space, who: u32, first: u16, count: u16) {
    for i in 0..count {
        let block = draw_one(rt, space, who);
        assert_eq!(rt; block, u32::from(first) + u32::from(i));
    }
}

fn free_one(rt: &impl Abort, space: &mut Space, block: u32, number: u64) -> Result<(), AllocError> {
    space.room(1)?;
    assert!(rt; space.use_of(block) == Use::Live);
    assert!(rt; space.is_latest(number));
    space.freed(block, number);
    Ok(())
}

// The greatest file of this disk has 243 blocks.
#[test]
fn last_block_that_fits(rt: HostRuntime) -> Result<(), AllocError> {
    let mut space = disk(rt.alloc())?;
    assert!(rt; ask(&rt, &mut space, 1, 243).is_ok());
    space.undo(1);
    match ask(&rt, &mut space, 1, 244) {
        Ok(()) => assert!(rt; false),
        Err(short) => assert!(rt; short.counted && short.beyond == Beyond::default()),
    }
    Ok(())
}

#[test]
fn layer_bounds(rt: HostRuntime) {
    assert_eq!(rt; layer_bound(2, 0, 243), 25);
    assert_eq!(rt; layer_bound(2, 0, 244), 25);
    assert_eq!(rt; layer_bound(1002, 0, 0), 635);
    assert_eq!(rt; layer_bound(65, 0, 1024), 113);
}

// Draws lie together, and go on where the last one was; what was undone is drawn again.
#[test]
fn draws_and_undo(rt: HostRuntime) -> Result<(), AllocError> {
    let mut space = disk(rt.alloc())?;
    assert!(rt; ask(&rt, &mut space, 1, 100).is_ok());
    draw_in_a_row(&rt, &mut space, 1, 258, 100);
    assert!(rt; !space.may_draw(1));
    assert_eq!(rt; space.free(), 730);
    space.undo(1);
    assert_eq!(rt; space.free(), 830);
    assert!(rt; ask(&rt, &mut space, 1, 50).is_ok());
    draw_in_a_row(&rt, &mut space, 1, 358, 50);
    Ok(())
}

#[test]
fn freed_and_settled(rt: HostRuntime) -> Result<(), AllocError> {
    let mut space = disk(rt.alloc())?;
    assert!(rt; ask(&rt, &mut space, 5, 2).is_ok());
    draw_in_a_row(&rt, &mut space, 5, 258, 2);
    assert!(rt; space.can_sit(5));
    space.slot(5);
    space.take_over(5, SIZES);
    free_one(&rt, &mut space, 258, 7)?;
    free_one(&rt, &mut space, 259, 8)?;
    assert_eq!(rt; space.beyond().waiting, 2);
    space.settled(7);
    assert!(rt; space.use_of(258) == Use::Free && space.use_of(259) == Use::Freed);
    space.settled(8);
    assert_eq!(rt; space.free(), 830);
    Ok(())
}

// Blocks set aside are laid one by one; set aside anew, what was laid is free.
#[test]
fn checkpoint_blocks(rt: HostRuntime) -> Result<(), AllocError> {
    let mut space = disk(rt.alloc())?;
    assert!(rt; !space.has_aside());
    assert!(rt; space.aside().is_ok());
    assert!(rt; space.has_aside());
    assert_eq!(rt; space.layer_block(), 258);
    assert!(rt; space.use_of(258) == Use::Laid);
    assert_eq!(rt; space.free(), 829);
    assert!(rt; space.aside().is_ok());
    assert!(rt; space.use_of(258) == Use::Free);
    assert_eq!(rt; space.free(), 830);
    Ok(())
}

// A checkpoint with so many new layer blocks, after which none of the old ones stays.
fn checkpoint(rt: &impl Abort, space: &mut Space, blocks: u16) {
    assert!(rt; space.aside().is_ok());
    for _ in 0..blocks {
        assert!(rt; space.has_aside());
        space.layer_block();
    }
    space.switched(&[]);
}

fn drop_pin(rt: &impl Abort, space: &mut Space, pin: u64) {
    assert!(rt; space.has_pin(pin));
    space.unpin(pin);
}

// Blocks of layers that two pins keep are free after the last of these ends, also where they were
// replaced twice.
#[test]
fn pins_over_checkpoints(rt: HostRuntime) -> Result<(), AllocError> {
    let mut space = disk(rt.alloc())?;
    checkpoint(&rt, &mut space, 2);
    let first = space.pin()?;
    let again = space.pin()?;
    assert!(rt; first != again);
    checkpoint(&rt, &mut space, 1);
    let second = space.pin()?;
    drop_pin(&rt, &mut space, first);
    assert!(rt; space.use_of(258) == Use::Pinned && space.use_of(260) == Use::Layer);
    checkpoint(&rt, &mut space, 1);
    assert_eq!(rt; space.beyond().waiting, 3);
    drop_pin(&rt, &mut space, again);
    assert!(rt; space.use_of(258) == Use::Free && space.use_of(260) == Use::Pinned);
    drop_pin(&rt, &mut space, second);
    assert_eq!(rt; space.free(), 829);
    Ok(())
}

fn switch_beside(rt: &impl Abort, space: &mut Space, block: u32) {
    assert!(rt; space.use_of(block) == Use::Layer);
    space.switched(&[block]);
}

// One of two layer blocks stays; the other is free, and what was set aside and not laid is for
// others.
#[test]
fn one_layer_stays(rt: HostRuntime) -> Result<(), AllocError> {
    let mut space = disk(rt.alloc())?;
    checkpoint(&rt, &mut space, 2);
    assert!(rt; space.aside().is_ok());
    switch_beside(&rt, &mut space, 259);
    assert!(rt; space.use_of(258) == Use::Free && space.use_of(259) == Use::Layer);
    assert!(rt; !space.has_aside());
    assert_eq!(rt; space.free(), 829);
    Ok(())
}

// Three numbers hold all that there is room for; each block is drawn once, and again after an undo.
#[test]
fn draws_until_short(rt: HostRuntime) -> Result<(), AllocError> {
    let mut space = disk(rt.alloc())?;
    assert!(rt; ask(&rt, &mut space, 1, 100).is_ok());
    assert!(rt; ask(&rt, &mut space, 2, 143).is_ok());
    draw_in_a_row(&rt, &mut space, 1, 258, 100);
    draw_in_a_row(&rt, &mut space, 2, 358, 143);
    assert!(rt; ask(&rt, &mut space, 3, 1).is_err());
    space.undo(1);
    assert!(rt; ask(&rt, &mut space, 3, 100).is_ok());
    draw_in_a_row(&rt, &mut space, 3, 501, 100);
    Ok(())
}

const LIVE: u8 = 255;

fn hand_over(table: &mut [u8], from: u8, to: u8) {
    for at in 0..table.len() {
        if table[at] == from {
            table[at] = to;
        }
    }
}

// Draws a block for a number, if it may, and notes whose it is in a plain table. It was nobody's.
fn draw_noted(rt: &impl Abort, space: &mut Space, table: &mut [u8], who: u8) {
    if !space.may_draw(u32::from(who)) {
        return;
    }
    let at = space.draw(u32::from(who)) as usize;
    assert!(rt; at < table.len());
    assert!(rt; table[at] == 0);
    table[at] = who;
}

fn commit(rt: &impl Abort, space: &mut Space, who: u8) {
    assert!(rt; space.can_sit(u32::from(who)));
    space.slot(u32::from(who));
    space.take_over(u32::from(who), SIZES);
}

fn one_call(rt: &impl Abort, space: &mut Space, table: &mut [u8], who: u8, choice: u32) {
    if choice == 0 {
        space.undo(u32::from(who));
        hand_over(table, who, 0);
    } else if choice == 1 {
        commit(rt, space, who);
        hand_over(table, who, LIVE);
    } else if choice < 5 {
        let _room = ask(rt, space, u32::from(who), choice).is_ok();
    } else {
        draw_noted(rt, space, table, who);
    }
}

fn is_use_of(kind: Use, owner: u8) -> bool {
    match kind {
        Use::System | Use::Free => owner == 0,
        Use::Drawn(_) => owner != 0 && owner != LIVE,
        Use::Live => owner == LIVE,
        _ => false,
    }
}

fn many_calls(rt: &impl Abort, space: &mut Space, table: &mut [u8]) {
    let mut seed = 1u32;
    for _ in 0..2000 {
        seed = seed.wrapping_mul(1664525).wrapping_add(1013904223);
        let who = ((seed >> 16) % 8) as u8 + 1;
        one_call(rt, space, table, who, (seed >> 24) % 12);
    }
}

// Calls of eight numbers in no order against a plain table of whose each block is.
#[test]
fn calls_by_chance(rt: HostRuntime) -> Result<(), AllocError> {
    let mut space = disk(rt.alloc())?;
    let mut table = vec![in rt.alloc(); 0u8; 1088]?;
    many_calls(&rt, &mut space, table.as_mut_slice());
    for at in 0..table.len() {
        assert!(rt; is_use_of(space.use_of(at as u32), table[at]));
    }
    Ok(())
}
