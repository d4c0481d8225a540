//! The lines that a command prints beside its results. None takes memory.
ghost use Rattle.std.specs.Prelude.{◌≡◌, ◌+◌, ◌≤◌, ◌++◌, length, is_ok};
ghost use Rattle.std.specs.Fmt.{decimal};
ghost use Rattle.arrayvec.specs.ArrayString.{array_string_len};
ghost use Rattle.fx_io.specs.Seen.{HasTaken};
ghost use Rattle.fxfs.specs.Stop.{bad_line, mkfs_line, mount_line, numbered_line, stop_line, twice_numbered_line};

use crate::ended::Stop;
use arrayvec::ArrayString;
use fx_io::{Failed, Sink, write_whole};
use fx_mount::MountFault;
use fx_script::LineFault;
use itoa::Buffer;

/// A line of at most 64 bytes.
type ShortLine = ArrayString<64>;

/// Appends a number, of at most 20 digits.
fn push_number(line: &mut ShortLine, number: u64)
    requires { array_string_len line.old + 20 ≤ 64 }
    ensures bytes { line.new.bytes ≡ line.old.bytes ++ decimal number }
    ensures len { array_string_len line.new ≤ array_string_len line.old + 20 }
{
    let mut digits = Buffer::new();
    line.push_str(digits.format(number));
}

/// A line of words that end in a number.
fn numbered_line(words: &str, number: u32) -> ShortLine
    requires { length words.now ≤ 32 }
    ensures { result.bytes ≡ numbered_line words.now number }
{
    let mut line = ShortLine::new();
    line.push_str(words);
    push_number(&mut line, u64::from(number));
    line.push_str("\n");
    line
}

/// A line of words that end in two numbers.
fn twice_numbered_line(words: &str, first: u32, second: u64) -> ShortLine
    requires { length words.now ≤ 20 }
    ensures { result.bytes ≡ twice_numbered_line words.now first second }
{
    let mut line = ShortLine::new();
    line.push_str(words);
    push_number(&mut line, u64::from(first));
    line.push_str(" ");
    push_number(&mut line, second);
    line.push_str("\n");
    line
}

/// The line that tells why a disk was not mounted.
fn mount_line(fault: MountFault) -> ShortLine
    ensures { result.bytes ≡ mount_line fault }
{
    match fault {
        MountFault::NoSuper => short_line("stop 3 nosuper\n"),
        MountFault::Version(version) => numbered_line("stop 3 version ", version),
        MountFault::DiskSize(blocks) => numbered_line("stop 3 disksize ", blocks),
        MountFault::BadLayer(block) => numbered_line("stop 3 badlayer ", block),
        MountFault::BadRecord(place) => numbered_line("stop 3 badrecord ", place),
        MountFault::BadTree { store, id } => twice_numbered_line("stop 3 badtree ", store, id),
        MountFault::Cramped(free) => numbered_line("stop 3 cramped ", free),
        MountFault::Device | MountFault::OutOfMemory => short_line(""),
    }
}

/// The line that tells the first wrong line of a script.
fn bad_line(number: u32, fault: LineFault) -> ShortLine
    ensures { result.bytes ≡ bad_line number fault }
{
    let mut line = ShortLine::new();
    line.push_str("stop 8 badline ");
    push_number(&mut line, u64::from(number));
    line.push_str(" ");
    line.push_str(fault.word());
    line.push_str("\n");
    line
}

/// A line with no number in it.
fn short_line(text: &str) -> ShortLine
    requires { length text.now ≤ 64 }
    ensures { result.bytes ≡ text.now }
{
    let mut line = ShortLine::new();
    line.push_str(text);
    line
}

/// The line that tells why the command stopped, if there is one.
fn stop_line(stop: Stop) -> ShortLine
    ensures { result.bytes ≡ stop_line stop }
{
    match stop {
        Stop::Done | Stop::Write => short_line(""),
        Stop::BadWords => short_line("stop 2 badwords\n"),
        Stop::NotMounted(fault) => mount_line(fault),
        Stop::Device => short_line("stop 4 device\n"),
        Stop::Read => short_line("stop 5 read\n"),
        Stop::OutOfMemory => short_line("stop 7 memory\n"),
        Stop::BadLine { number, fault } => bad_line(number, fault),
        Stop::TooMuchInput => short_line("stop 10 input\n"),
        Stop::DiskTooSmall(blocks) => numbered_line("stop 11 size ", blocks),
    }
}

/// Writes the line that tells why the command stopped, if there is one.
pub(crate) fn write_stop<K: Sink>(out: &mut K, stop: Stop) -> Result<(), Failed>
    ensures { HasTaken (K.seen out.old) (K.seen out.new) (stop_line stop) (is_ok result) }
{
    let line = stop_line(stop);
    write_whole(out, line.as_str().as_bytes())
}

/// Writes the line of a disk that was formatted.
pub(crate) fn write_formatted<K: Sink>(out: &mut K, blocks: u32, ring: u32) -> Result<(), Failed>
    ensures { HasTaken (K.seen out.old) (K.seen out.new) (mkfs_line blocks ring) (is_ok result) }
{
    let line = twice_numbered_line("mkfs ", blocks, u64::from(ring));
    write_whole(out, line.as_str().as_bytes())
}
