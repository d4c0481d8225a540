//! A source and a sink in memory, whose calls fail on demand.
ghost use Rattle.std.specs.Prelude.{Some, ◌≡◌, ◌<◌, ◌≤◌, ◌↔◌, [], length, min, Contains, IfOk, IsTrue, IsErr, OnErr, is_ok, if◌then◌else◌};
ghost use Rattle.fx_base.specs.Causes.{risen};

use super::{Failed, Sink, Source};
use fx_base::count_up;
use std::alloc::Global;
use std::marker::Model;

/// The calls of an end in memory.
#[derive(Debug, Drop)]
struct Calls {
    /// The numbers of those that fail, the first call being 1.
    fails: Vec<u64>,
    made: u64,
    failed: u64,
}

impl Calls {
    /// No call was made yet.
    fn new(fails: Vec<u64>) -> Calls
        ensures { result ≡ record { fails = fails; made = 0; failed = 0 } }
    {
        Calls {
            fails,
            made: 0,
            failed: 0,
        }
    }

    /// Counts one more call, and says whether it is one that fails.
    fn next_fails(&mut self) -> bool
        ensures listed { IsTrue result ↔ Contains self.old.fails.items self.new.made }
        ensures made { self.new ≡ record self.old { made = risen self.old.made } }
    {
        count_up(&mut self.made);
        self.fails.contains(&self.made)
    }

    /// Counts one more failure.
    fn fail(&mut self) -> Failed
        ensures failed { self.new ≡ record self.old { failed = risen self.old.failed } }
        ensures grows { self.old.failed ≤ self.new.failed }
    {
        count_up(&mut self.failed);
        Failed
    }
}

/// A source in memory: gives its bytes in order, as many as a call has room for, and fails at the
/// listed calls. A call walks the list
/// of failing calls; else it costs the bytes that it gives.
#[derive(Debug, Drop)]
pub struct MemSource {
    text: Vec<u8>,
    given: usize,
    piece: u32,
    calls: Calls,
}

impl Model for MemSource {
    ghost use Rattle.std.specs.Prelude.{drop, ◌≤◌, ◌<◌, length};
    ghost use Rattle.fx_io.specs.Memory.{MemorySource};

    ghost Value = { MemorySource };

    ghost view = { λ s. record {
      left = drop s.given s.text.items;
      piece = s.piece;
      fails = s.calls.fails.items;
      calls = s.calls.made;
      faults = s.calls.failed;
    } };

    ghost invariant = { λ s. (s.given ≤ length s.text.items) × (0 < s.piece) };
}

impl MemSource {
    /// A source of this text, which gives at most `piece` bytes a call. The calls of `read` whose
    /// numbers, from 1, stand in `fails` fail, and no others. The counts of calls and of faults
    /// stop at `u64::MAX`.
    pub fn new(text: Vec<u8>, piece: u32, fails: Vec<u64>) -> MemSource
        requires { 0 < piece }
        ensures { result ≡ record {
          left = text.items;
          piece = piece;
          fails = fails.items;
          calls = 0;
          faults = 0;
        } }
    {
        MemSource {
            text,
            given: 0,
            piece,
            calls: Calls::new(fails),
        }
    }
}

impl Source for MemSource {
    ghost use Rattle.fx_io.specs.Memory.{GivesPiece};

    ghost seen = { λ s. record { left = Some s.left; faults = s.faults } };

    fn read(&mut self, into: &mut [u8]) -> Result<usize, Failed>
        requires { 0 < length into.old }
        ensures gives { IfOk result (GivesPiece self.old self.new into.new) }
        ensures kept { OnErr result (self.new.left ≡ self.old.left) }

        // It fails exactly at the calls of its list.
        ensures fails { IsErr result ↔ Contains self.old.fails self.new.calls }
        ensures counts { self.new ≡ record self.old {
          left = self.new.left;
          calls = risen self.old.calls;
          faults = if is_ok result then self.old.faults else risen self.old.faults;
        } }
        ensures grows { self.old.faults ≤ self.new.faults }
    {
        if self.calls.next_fails() {
            return Err(self.calls.fail());
        }
        let (_, rest) = self.text.as_slice().split_at(self.given);
        let count = into.len().min(rest.len()).min(self.piece as usize);
        into[..count].copy_from_slice(&rest[..count]);
        self.given += count;
        Ok(count)
    }

    fn faults(&self) -> u64 {
        self.calls.failed
    }
}

/// A sink in memory: keeps what it takes, and fails at the listed calls and where there is no
/// memory. A call walks the list of failing calls; else it costs the bytes that it takes.
#[derive(Debug, Drop)]
pub struct MemSink {
    text: Vec<u8>,
    piece: u32,
    calls: Calls,
    starved: u64,
}

impl Model for MemSink {
    ghost use Rattle.std.specs.Prelude.{◌<◌};
    ghost use Rattle.fx_io.specs.Memory.{MemorySink};

    ghost Value = { MemorySink };

    ghost view = { λ s. record {
      text = s.text.items;
      piece = s.piece;
      fails = s.calls.fails.items;
      calls = s.calls.made;
      faults = s.calls.failed;
      starved = s.starved;
    } };

    ghost invariant = { λ s. 0 < s.piece };
}

impl MemSink {
    /// An empty sink, which takes at most `piece` bytes a call. The calls of `write` whose numbers,
    /// from 1, stand in `fails` fail, and a call that finds no memory; no others. The counts of
    /// calls, of faults and of calls without memory stop at `u64::MAX`. Takes no memory.
    pub fn new(alloc: Global, piece: u32, fails: Vec<u64>) -> MemSink
        requires { 0 < piece }
        ensures { result ≡ record {
          text = [];
          piece = piece;
          fails = fails.items;
          calls = 0;
          faults = 0;
          starved = 0;
        } }
    {
        MemSink {
            text: Vec::new(alloc),
            piece,
            calls: Calls::new(fails),
            starved: 0,
        }
    }

    /// What was written.
    pub fn text(&self) -> &[u8]
        ensures { result.now ≡ self.now.text }
    {
        self.text.as_slice()
    }

    /// How many calls found no memory. `faults` counts them too.
    pub fn starved(&self) -> u64
        ensures { result ≡ self.now.starved }
    {
        self.starved
    }
}

impl Sink for MemSink {
    ghost use Rattle.fx_io.specs.Memory.{TakesPiece, CountsStarved};

    ghost seen = { λ s. record { text = Some s.text; faults = s.faults } };

    fn write(&mut self, piece: &[u8]) -> Result<usize, Failed>
        ensures takes { IfOk result (TakesPiece self.old self.new piece.now) }
        ensures kept { OnErr result (self.new.text ≡ self.old.text) }

        // It fails at the calls of its list, and at another only where there is no memory.
        ensures fails { Contains self.old.fails self.new.calls → IsErr result }
        ensures starved { CountsStarved self.old self.new (is_ok result) }
        ensures counts { self.new ≡ record self.old {
          text = self.new.text;
          calls = risen self.old.calls;
          faults = if is_ok result then self.old.faults else risen self.old.faults;
          starved = self.new.starved;
        } }
        ensures grows { self.old.faults ≤ self.new.faults }
    {
        if self.calls.next_fails() {
            return Err(self.calls.fail());
        }
        let count = piece.len().min(self.piece as usize);
        if self.text.extend_from_slice(&piece[..count]).is_err() {
            count_up(&mut self.starved);
            return Err(self.calls.fail());
        }
        Ok(count)
    }

    fn faults(&self) -> u64 {
        self.calls.failed
    }
}
