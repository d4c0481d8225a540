//! The standard streams as a source and a sink. They tell no bytes, only how many calls failed.
ghost use Rattle.std.specs.Prelude.{None, ◌≡◌, ◌<◌, ◌≤◌, IfSome, IfOk, is_ok, MatchOption, length, take};
ghost use Rattle.std.specs.Io.KnownBytes.{Keeps, Consumes, ReadConsumes, IsAtEnd};
ghost use Rattle.fx_base.specs.Causes.{CountsFault};

use super::{Failed, Sink, Source};
use fx_base::count_up;
use std::alloc::{AllocError, Global};
use std::io::{BufReader, ErrorKind, Read};
use std::marker::Model;

/// Standard input as a source. A read of fewer bytes than its buffer holds (8 KiB) is served from
/// the buffer, so that small reads cost no system call each; a larger one goes to the system. What
/// the reader behind it gives is passed on, and none of it is lost.
#[derive(Drop)]
pub struct StdSource<R: Read + Drop> {
    reader: BufReader<R>,
    faults: u64,
}

impl<R: Read + Drop> Model for StdSource<R> {
    ghost use Rattle.std.specs.Io.Buffered.{reader_remaining};
    ghost use Rattle.fx_io.specs.Standard.{ReaderSource};

    ghost Value = { ReaderSource };

    ghost view = { λ s. record {
      left = reader_remaining R.Read.remaining s.reader;
      faults = s.faults;
    } };
}

impl<R: Read + Drop> StdSource<R> {
    /// Standard input, of which no call has failed yet. Fails where there is no memory for the
    /// buffer.
    pub fn on<I: Input<Reader = R>>(rt: &I, alloc: Global) -> Result<StdSource<R>, AllocError>
        ensures { IfOk result (λ s. s.faults ≡ 0) }
    {
        let Ok(reader) = BufReader::new(alloc, rt.reader()) else {
            return Err(AllocError);
        };
        Ok(StdSource { reader, faults: 0 })
    }
}

impl<R: Read + Drop> Source for StdSource<R> {
    ghost seen = { λ s. record { left = None; faults = s.faults } };

    fn read(&mut self, into: &mut [u8]) -> Result<usize, Failed>
        requires { 0 < length into.old }
        ensures count { IfOk result (λ n. n ≤ length into.new) }

        // Where the reader tells its bytes, those that it gave are given, and none is lost.
        ensures passes { ReadConsumes self.old.left self.new.left result into.new }
        ensures faults { CountsFault (is_ok result) self.old.faults self.new.faults }
    {
        match read_some(&mut self.reader, into) {
            Some(count) => Ok(count),
            None => {
                count_up(&mut self.faults);
                Err(Failed)
            }
        }
    }

    fn faults(&self) -> u64 {
        self.faults
    }
}

/// One read, made again where a signal interrupted it; none where it failed.
fn read_some<R: Read>(reader: &mut R, into: &mut [u8]) -> Option<usize>
    ensures count { IfSome result (λ n. n ≤ length into.new) }
    ensures passes { MatchOption result (Keeps (R.remaining reader.old) (R.remaining reader.new))
        (λ n. Consumes (R.remaining reader.old) (R.remaining reader.new) (take n into.new)) }
    ensures ended { IfSome result
        (λ n. n ≡ 0 → 0 < length into.new → IsAtEnd (R.remaining reader.new)) }
{
    for _ in 0..u64::MAX {
        match reader.read(into) {
            Ok(count) => return Some(count),
            Err(error) if error.kind() == ErrorKind::Interrupted => {}
            Err(_) => return None,
        }
    }
    None
}

/// Standard output as a sink. Each write is one system call and nothing is held back, so that a
/// byte counts as taken only when the system took it: hand over large pieces.
#[derive(Drop)]
pub struct StdSink<P: Print + Drop> {
    out: P,
    faults: u64,
}

impl<P: Print + Drop> Model for StdSink<P> {
    ghost use Rattle.std.specs.Prelude.{ℕ};

    ghost Value = { ℕ };

    ghost view = { λ s. s.faults };
}

impl<P: Print + Clone + Drop> StdSink<P> {
    /// Standard output, of which no call has failed yet. Fails where there is no memory for a
    /// handle of its own on the runtime.
    pub fn on(rt: &P) -> Result<StdSink<P>, AllocError>
        ensures { IfOk result (λ s. s ≡ 0) }
    {
        let out = rt.clone()?;
        Ok(StdSink { out, faults: 0 })
    }
}

impl<P: Print + Drop> Sink for StdSink<P> {
    ghost seen = { λ s. record { text = None; faults = s } };

    fn write(&mut self, piece: &[u8]) -> Result<usize, Failed> {
        match write_some(&self.out, piece) {
            Some(count) => Ok(count),
            None => {
                count_up(&mut self.faults);
                Err(Failed)
            }
        }
    }

    fn faults(&self) -> u64 {
        self.faults
    }
}

/// One write, made again where a signal interrupted it; none where it failed or took nothing of a
/// piece that has bytes.
fn write_some<P: Print>(out: &P, piece: &[u8]) -> Option<usize>
    ensures count { IfSome result (λ n. n ≤ length piece.now) }
    ensures moves { 0 < length piece.now → IfSome result (λ n. 0 < n) }
{
    for _ in 0..u64::MAX {
        match out.write_some(piece) {
            Ok(0) if !piece.is_empty() => return None,
            Ok(count) => return Some(count),
            Err(error) if error.kind() == ErrorKind::Interrupted => {}
            Err(_) => return None,
        }
    }
    None
}

#[cfg(test)]
mod tests {
    use super::*;
    use crate::{ReadAllFault, read_whole, write_whole};
    use std::cell::Cell;
    use std::fmt::Display;
    use std::io;
    use std::test::Fail;

    /// A reader that is interrupted, gives a byte, fails, gives a byte and is at its end.
    #[derive(Drop)]
    struct Flaky {
        calls: u8,
    }

    impl Read for Flaky {
        fn read(&mut self, buf: &mut [u8]) -> io::Result<usize> {
            self.calls = self.calls.saturating_add(1);
            let byte = match self.calls {
                1 => return Err(ErrorKind::Interrupted.into()),
                2 => b'a',
                3 => return Err(ErrorKind::Other.into()),
                4 => b'b',
                _ => return Ok(0),
            };
            let Some(first) = buf.first_mut() else {
                return Ok(0);
            };
            *first = byte;
            Ok(1)
        }
    }

    #[test]
    fn reader_fails_in_mid_stream(rt: HostRuntime) -> Result<(), Fail> {
        let reader = BufReader::new(rt.alloc(), Flaky { calls: 0 })?;
        let mut src = StdSource { reader, faults: 0 };
        let fault = read_whole(rt.alloc(), &mut src, 9).err();
        assert_eq!(rt; fault, Some(ReadAllFault::Failed));
        assert_eq!(rt; src.faults(), 1);
        let rest = read_whole(rt.alloc(), &mut src, 9)?;
        assert_eq!(rt; rest.as_slice(), b"b".as_slice());
        assert_eq!(rt; src.faults(), 1);
        Ok(())
    }

    /// A printer that is interrupted, takes a byte, takes none, fails, and then takes all.
    #[derive(Drop)]
    struct Choked {
        calls: Cell<u8>,
        taken: Cell<usize>,
    }

    impl Print for Choked {
        fn print<D: Display + Drop>(&self, _value: D) -> io::Result<()> {
            Err(ErrorKind::Other.into())
        }

        fn println<D: Display + Drop>(&self, _value: D) -> io::Result<()> {
            Err(ErrorKind::Other.into())
        }

        fn write_all(&self, _bytes: &[u8]) -> io::Result<()> {
            Err(ErrorKind::Other.into())
        }

        fn write_some(&self, bytes: &[u8]) -> io::Result<usize> {
            let call = self.calls.get().saturating_add(1);
            self.calls.set(call);
            let count = match call {
                1 => return Err(ErrorKind::Interrupted.into()),
                2 => bytes.len().min(1),
                3 => 0,
                4 => return Err(ErrorKind::BrokenPipe.into()),
                _ => bytes.len(),
            };
            self.taken.set(self.taken.get().saturating_add(count));
            Ok(count)
        }
    }

    #[test]
    fn writer_fails_in_mid_stream(rt: HostRuntime) {
        let out = Choked {
            calls: Cell::new(0),
            taken: Cell::new(0),
        };
        let mut sink = StdSink { out, faults: 0 };
        for (text, written, taken, faults) in [
            ("sync", Err(Failed), 1, 1),
            ("sync", Err(Failed), 1, 2),
            ("sync", Ok(()), 5, 2),
            ("", Ok(()), 5, 2),
        ] {
            assert_eq!(rt; write_whole(&mut sink, text.as_bytes()), written);
            assert_eq!(rt; sink.out.taken.get(), taken);
            assert_eq!(rt; sink.faults(), faults);
        }
    }

    #[test]
    fn standard_streams_have_no_fault(rt: HostRuntime) -> Result<(), Fail> {
        let src = StdSource::on(&rt, rt.alloc())?;
        assert_eq!(rt; src.faults(), 0);
        let mut out = StdSink::on(&rt)?;
        assert_eq!(rt;
            write_whole(&mut out, b"written to standard output\n"),
            Ok(())
        );
        assert_eq!(rt; out.faults(), 0);
        Ok(())
    }
}
