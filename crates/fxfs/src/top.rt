//! The top call.
ghost use Rattle.std.specs.Prelude.{◌≡◌, map};
ghost use Rattle.std.specs.String.{string_bytes};
ghost use Rattle.fxfs.specs.Command.{command_of};
ghost use Rattle.fxfs.specs.Stop.{status_of};
ghost use Rattle.fxfs.specs.Outside.{ended, outside};
ghost use Rattle.fxfs.specs.Top.{Does};
ghost use Rattle.fxfs.specs.declared.status.TheConstants.{BAD_WORDS};

use crate::command::{Command, WordsFault, command_of};
use crate::ended::{Ended, Stop};
use crate::mkfs::mkfs_call;
use crate::shell::{shell_call, stopped};
use fx_disk::Disk;
use fx_io::{Sink, Source};
use std::alloc::Global;

/// Does the command that the words are. Where they are none it writes the line that tells so.
pub fn fxfs_top<D: Disk, S: Source, K: Sink>(
    alloc: Global,
    words: &[String],
    disk: D,
    src: &mut S,
    out: &mut K,
) -> Ended<D>
    ensures status { result.status ≡ status_of result.stop }

    // What the command does by its own call.
    ensures does { Does (command_of (map string_bytes words.now))
        (outside (D.seen disk) (S.seen src.old) (K.seen out.old))
        (outside (D.seen result.disk) (S.seen src.new) (K.seen out.new))
        (ended result.stop result.base result.history result.outcomes) }

    // Where the words are no command the disk and the source were not touched.
    ensures unread { result.status ≡ BAD_WORDS → src.new ≡ src.old }
    ensures untouched { result.status ≡ BAD_WORDS → result.disk ≡ disk }
{
    match command_of(words) {
        Ok(Command::Shell) => shell_call(alloc, disk, src, out),
        Ok(Command::Mkfs(ring)) => mkfs_call(alloc, ring, disk, out),
        Err(WordsFault::BadWords) => stopped(alloc, disk, out, Stop::BadWords),
    }
}
