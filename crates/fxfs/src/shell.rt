//! The command `shell`.
ghost use Rattle.std.specs.Prelude.{◌≡◌, ◌+◌, ◌≤◌, [], length, IfOk, IfErr, vec_capacity};
ghost use Rattle.fx_disk.specs.Seen.{GoesOn};
ghost use Rattle.fx_io.specs.Told.{GivesAtMost};
ghost use Rattle.fx_io.specs.Seen.{SourceGoesOn, SinkGoesOn};
ghost use Rattle.fx_plain.specs.Tree.{Tree};
ghost use Rattle.fx_history.specs.Transcript.{EndsNext};
ghost use Rattle.fx_store.specs.Line.{flushes};
ghost use Rattle.fx_store.specs.Mounted.{EndsSync, KeepsLive, KeepsMount, LeavesSettled, Opens, SameMount, TakesRing, TellsFaults};
ghost use Rattle.fxfs.specs.Stop.{status_of, stop_of};
ghost use Rattle.fxfs.specs.Outside.{IsStopped, ended, outside};
ghost use Rattle.fxfs.specs.Lines.{Spells, IsNoScript, KeepsSession, Lasts, SettlesIf, Tells, TellsEnd, TellsUnsynced};
ghost use Rattle.fxfs.specs.Shell.{AreLines, AreRunTo, ShellEnds, syncs_in};

use crate::ended::{Ended, Stop};
use crate::line::write_stop;
use fx_disk::Disk;
use fx_history::{History, Outcome, Outcomes, result_text};
use fx_io::{ReadAllFault, Sink, Source, read_whole, write_whole};
use fx_mount::{MountFault, Store, StoreEnd, Unmounted, mount};
use fx_script::{Line, ScriptFault, SentLine, Tasks, read_script};
use std::alloc::Global;

/// The most bytes of a script.
pub const MAX_INPUT: u32 = 16_777_216;

/// Reads the source to its end and its script, mounts the disk, does the lines one after another on
/// the tree that its journal leads to, flushes what they made, and writes a result line for each
/// line to the sink. Where that fails it writes the line that tells why, behind the result lines
/// where the disk failed after them. `Ended` says which it was, the first cause in this order.
///
/// The memory for the outcomes is taken before the mount, so lines are never left half run; that
/// for a line's task is taken and given back while the line is done. Costs the bytes of the script,
/// of the results and of what the lines do, what a mount costs, and a write for each journal block
/// that the commits fill or leave unfinished at a sync.
pub fn shell_call<D: Disk, S: Source, K: Sink>(
    alloc: Global,
    disk: D,
    src: &mut S,
    out: &mut K,
) -> Ended<D>
    ensures status { result.status ≡ status_of result.stop }
    ensures ends { ShellEnds (outside (D.seen disk) (S.seen src.old) (K.seen out.old))
        (outside (D.seen result.disk) (S.seen src.new) (K.seen out.new))
        (ended result.stop result.base result.history result.outcomes) }
{
    let tasks = match read_tasks(alloc, src) {
        Ok(tasks) => tasks,
        Err(stop) => return stopped(alloc, disk, out, stop),
    };
    let Ok(room) = Vec::with_capacity(alloc, tasks.len() as usize) else {
        return stopped(alloc, disk, out, Stop::OutOfMemory);
    };
    match mount(alloc, disk) {
        Ok(store) => finish(alloc, store, &tasks, room, out),
        Err(Unmounted { disk, fault }) => stopped(alloc, disk, out, mount_stop(fault)),
    }
}

/// The lines of the script that the source gives.
fn read_tasks<S: Source>(alloc: Global, src: &mut S) -> Result<Tasks, Stop>
    ensures ok { IfOk result (Spells (S.seen src.old) (S.seen src.new)) }
    ensures err { IfErr result (IsNoScript (S.seen src.old) (S.seen src.new)) }
    ensures most { GivesAtMost (S.seen src.old).left (S.seen src.new).left (MAX_INPUT + 1) }
    ensures goes { SourceGoesOn (S.seen src.old) (S.seen src.new) }
{
    let bytes = match read_whole(alloc, src, MAX_INPUT) {
        Ok(bytes) => bytes,
        Err(ReadAllFault::Failed) => return Err(Stop::Read),
        Err(ReadAllFault::TooMuch) => return Err(Stop::TooMuchInput),
        Err(ReadAllFault::OutOfMemory) => return Err(Stop::OutOfMemory),
    };
    match read_script(bytes, false) {
        Ok(tasks) => Ok(tasks),
        Err(ScriptFault::BadLine { number, fault }) => Err(Stop::BadLine { number, fault }),
    }
}

/// The cause where a disk was not mounted.
fn mount_stop(fault: MountFault) -> Stop
    ensures { result ≡ stop_of fault }
{
    match fault {
        MountFault::Device => Stop::Device,
        MountFault::OutOfMemory => Stop::OutOfMemory,
        _ => Stop::NotMounted(fault),
    }
}

/// Writes the line that tells why the command stopped before any line was run.
pub(crate) fn stopped<D: Disk, K: Sink>(alloc: Global, disk: D, out: &mut K, stop: Stop) -> Ended<D>
    ensures status { result.status ≡ status_of stop }
    ensures stop { result.stop ≡ stop }
    ensures disk { result.disk ≡ disk }
    ensures stopped { IsStopped (K.seen out.old) (K.seen out.new)
        (ended result.stop result.base result.history result.outcomes) }
    ensures goes { SinkGoesOn (K.seen out.old) (K.seen out.new) }
{
    // Where the line cannot be written the status stays what it is.
    let _told = write_stop(out, stop);
    Ended::idle(alloc, stop, disk)
}

/// Does the lines on a disk that was just mounted, flushes it, and writes the results.
fn finish<D: Disk, K: Sink>(
    alloc: Global,
    store: Store<D>,
    tasks: &Tasks,
    room: Vec<Outcome>,
    out: &mut K,
) -> Ended<D>
    requires fresh { store.history ≡ [] }
    requires none_waits { store.waiting ≡ 0 }
    requires empty { room.items ≡ [] }
    requires room { length tasks.now ≤ vec_capacity room }
    ensures status { result.status ≡ status_of result.stop }
    ensures base { result.base ≡ store.base }
    ensures ends { (opening : Tree) → Opens store.txns opening →
        AreRunTo store opening (D.seen store.disk) (D.seen result.disk)
        (K.seen out.old) (K.seen out.new) tasks.now
        (ended result.stop result.base result.history result.outcomes) }
    ensures leaves { LeavesSettled (D.seen result.disk) store result.history }
    ensures disk { GoesOn (D.seen store.disk) (D.seen result.disk) }
    ensures sink { SinkGoesOn (K.seen out.old) (K.seen out.new) }
{
    let mut store = store;
    let outcomes = run(alloc, &mut store, tasks, room);
    let Closed {
        is_flushed,
        disk,
        base,
        history,
    } = close(store);
    let stop = tell_end(alloc, is_flushed, tasks, outcomes.as_slice(), out);
    Ended {
        status: stop.status(),
        stop,
        disk,
        base,
        history,
        outcomes,
    }
}

/// Does a line that was checked. Its task is built for this call alone; where there is no memory
/// for it nothing is done.
fn run_line<D: Disk>(alloc: Global, store: &mut Store<D>, line: &SentLine<'_>) -> Outcome
    ensures ends { (opening : Tree) → Opens store.old.txns opening →
        EndsNext opening store.old.base store.old.history store.new.history
        line.now result.at result.kind }
    ensures takes { TakesRing store.old store.new result.kind }
    ensures syncs { line.now.line ≡ Line.Sync →
        EndsSync (D.seen store.old.disk) (D.seen store.new.disk) store.old store.new result.kind }
    ensures faults { TellsFaults (D.seen store.old.disk) (D.seen store.new.disk) result.kind }
    ensures keeps { KeepsMount (flushes line.now.line)
        (D.seen store.old.disk) (D.seen store.new.disk) store.old store.new }
{
    let Ok(task) = line.task(alloc) else {
        return store.out_of_memory();
    };
    store.exec(alloc, task)
}

/// Does the lines in their order, in the room for their outcomes.
fn run<D: Disk>(alloc: Global, store: &mut Store<D>, tasks: &Tasks, room: Vec<Outcome>) -> Outcomes
    requires fresh { store.old.history ≡ [] }
    requires empty { room.items ≡ [] }
    requires room { length tasks.now ≤ vec_capacity room }
    ensures one_each { length result ≡ length tasks.now }
    ensures lines { (opening : Tree) → Opens store.old.txns opening →
        AreLines opening (D.seen store.old.disk) (D.seen store.new.disk)
        store.old store.new tasks.now result }

    // A commit takes one block at most, which waits until one call writes it, and a line `sync`
    // makes one call more at most.
    ensures most { (D.seen store.new.disk).calls + store.new.waiting ≤ (D.seen store.old.disk).calls
        + store.old.waiting + length store.new.history + syncs_in tasks.now }

    ensures mount { SameMount store.old store.new }
    ensures disk { GoesOn (D.seen store.old.disk) (D.seen store.new.disk) }
{
    let mut items = room;
    for line in tasks.lines() {
        let outcome = run_line(alloc, store, &line);
        items.push_reserved(outcome);
    }
    Outcomes::new(items)
}

/// Flushes what the lines made, and tells whether that was done.
fn flush<D: Disk>(store: &mut Store<D>) -> bool
    ensures lasts { (opening : Tree) → Opens store.old.txns opening →
        Lasts result (D.seen store.old.disk).calls (D.seen store.old.disk).faults store.old.from
        opening store.old.base store.new.history [] (D.seen store.new.disk) }
    ensures settles { SettlesIf result (D.seen store.new.disk).calls
        store.old.history store.new.history }
    ensures keeps { KeepsLive (D.seen store.old.disk) (D.seen store.new.disk)
        store.old store.new result }
{
    let Ok(_) = store.sync() else {
        return false;
    };
    true
}

/// A disk that is no longer mounted, with its commits, and whether all that was made was flushed.
#[derive(Debug, Drop)]
struct Closed<D> {
    is_flushed: bool,
    disk: D,
    base: u64,
    history: History,
}

/// Flushes what the lines made, and gives the disk back.
fn close<D: Disk>(store: Store<D>) -> Closed<D>
    ensures base { result.base ≡ store.base }
    ensures lasts { (opening : Tree) → Opens store.txns opening →
        Lasts result.is_flushed (D.seen store.disk).calls (D.seen store.disk).faults store.from
        opening store.base result.history [] (D.seen result.disk) }

    // Where the disk was flushed the history is settled, and else as it was.
    ensures session { KeepsSession store.base store.history result.history }
    ensures leaves { LeavesSettled (D.seen result.disk) store result.history }
    ensures most { (D.seen result.disk).calls ≤ (D.seen store.disk).calls + store.waiting + 1 }
    ensures disk { GoesOn (D.seen store.disk) (D.seen result.disk) }
{
    let mut store = store;
    let is_flushed = flush(&mut store);
    let StoreEnd {
        disk,
        base,
        history,
    } = store.end();
    Closed {
        is_flushed,
        disk,
        base,
        history,
    }
}

/// Writes what the lines did and whether the disk was flushed, and gives the cause.
fn tell_end<K: Sink>(
    alloc: Global,
    is_flushed: bool,
    tasks: &Tasks,
    outcomes: &[Outcome],
    out: &mut K,
) -> Stop
    requires { length outcomes.now ≡ length tasks.now }
    ensures tells { TellsEnd is_flushed (K.seen out.old) (K.seen out.new)
        tasks.now outcomes.now result }
    ensures goes { SinkGoesOn (K.seen out.old) (K.seen out.new) }
{
    if is_flushed {
        return tell(alloc, tasks, outcomes, out);
    }
    tell_unsynced(alloc, tasks, outcomes, out)
}

/// Writes the result lines, once all lines were run and the disk was flushed, and gives the cause.
fn tell<K: Sink>(alloc: Global, tasks: &Tasks, outcomes: &[Outcome], out: &mut K) -> Stop
    requires { length outcomes.now ≡ length tasks.now }
    ensures tells { Tells (K.seen out.old) (K.seen out.new) tasks.now outcomes.now result }
    ensures goes { SinkGoesOn (K.seen out.old) (K.seen out.new) }
{
    let Ok(text) = result_text(alloc, tasks, outcomes) else {
        let _told = write_stop(out, Stop::OutOfMemory);
        return Stop::OutOfMemory;
    };
    match write_whole(out, text.as_bytes()) {
        Ok(()) => Stop::Done,
        Err(_) => Stop::Write,
    }
}

/// Writes the result lines and the stop line, once all lines were run and the disk failed after
/// them, and gives the cause.
fn tell_unsynced<K: Sink>(alloc: Global, tasks: &Tasks, outcomes: &[Outcome], out: &mut K) -> Stop
    requires { length outcomes.now ≡ length tasks.now }
    ensures device { result ≡ Stop.Device }
    ensures tells { TellsUnsynced (K.seen out.old) (K.seen out.new) tasks.now outcomes.now }
    ensures goes { SinkGoesOn (K.seen out.old) (K.seen out.new) }
{
    let Ok(text) = result_text(alloc, tasks, outcomes) else {
        let _told = write_stop(out, Stop::Device);
        return Stop::Device;
    };
    let Ok(()) = write_whole(out, text.as_bytes()) else {
        return Stop::Device;
    };
    let _told = write_stop(out, Stop::Device);
    Stop::Device
}
