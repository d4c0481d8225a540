//! What holds of allocators, for those who prove: the functions do nothing.
ghost use Rattle.fx_alloc.specs.SpaceLaws.{CountsAgree, DrawsAreFree};
ghost use Rattle.fx_alloc.specs.SpaceFacts.{OpenedRoom, SeatRoom, ReservedRoom, DrawnRoom, UndoneRoom, TakenRoom, FreedRoom, SettledRoom, AsideRoom, LaidRoom, SwitchedRoom, PinnedRoom, UnpinnedRoom, SpaceIsWhole, CheckpointsBegin, CountsDecide, DrawsLast, CheckpointsLast};

/// The counts and the ids leave room exactly where the rule over plain numbers does, with the sizes
/// as they are counted and with what [`Space::beyond`](crate::Space::beyond) answers.
pub fn counts_agree()
    ensures { CountsAgree }
{}

/// For a number that may still draw, a block is free.
pub fn draws_are_free()
    ensures { DrawsAreFree }
{}

/// After a mount of a sound image the facts on room hold.
pub fn room_after_mount()
    ensures { OpenedRoom }
{}

/// What the calls on what a number holds keep of the facts on room.
pub fn room_of_numbers()
    ensures slot { SeatRoom }
    ensures reserve { ReservedRoom }
    ensures draw { DrawnRoom }
    ensures undo { UndoneRoom }
    ensures take_over { TakenRoom }
{}

/// What the calls on freed blocks keep of the facts on room.
pub fn room_of_freed()
    ensures freed { FreedRoom }
    ensures settled { SettledRoom }
{}

/// What the calls on layers and pins keep of the facts on room.
pub fn room_of_layers()
    ensures aside { AsideRoom }
    ensures layer_block { LaidRoom }
    ensures switched { SwitchedRoom }
    ensures pin { PinnedRoom }
    ensures unpin { UnpinnedRoom }
{}

/// What is in use, held or set aside has place, of whatever image. With the facts on room a
/// checkpoint is refused only where blocks are kept for pins alone; and with no checkpoint open the
/// counts alone decide.
pub fn room_suffices()
    ensures whole { SpaceIsWhole }
    ensures begin { CheckpointsBegin }
    ensures decide { CountsDecide }
{}

/// What was reserved can be drawn, and what was set aside can be laid, whichever free blocks are
/// given.
pub fn promises_last()
    ensures draws { DrawsLast }
    ensures layers { CheckpointsLast }
{}
