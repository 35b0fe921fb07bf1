//! Sources, sinks and outlets over lists of bytes, for tests: their calls fail where a list says
//! so.
ghost use Rattle.std.specs.Prelude.{◌≡◌, ◌<◌, ◌≤◌, [], ◌∷◌, ◌++◌, Ok, Some, IfOk, OnOk, OnErr};
ghost use Rattle.std.specs.Prelude.{IsErr, IsTrue, length, min, is_err, map, string_bytes, refl};
ghost use Rattle.std.specs.Io.{ReadsAtMost, WritesAtMost};
ghost use Rattle.std.specs.Io.KnownBytes.{ReadConsumes, WriteAppends};
ghost use Rattle.byte_ports.specs.Calls.{Rose, TellsAlike, StartAdds};
ghost use Rattle.byte_ports.specs.FaultPlan.{new_plan, fails_next, after_call};

use crate::copies::copy_front;
use crate::faults::FaultPlan;
use crate::{Failed, Outlet, Sink, Source};
use std::alloc::{AllocError, Global};
use std::marker::Model;

/// A source over a list of bytes, whose calls fail where a list says so.
#[derive(Drop)]
pub struct ListSource {
    bytes: Vec<u8>,
    at: usize,
    plan: FaultPlan,
}

impl Model for ListSource {
    ghost use Rattle.std.specs.Prelude.{drop, ◌≤◌, vec_len};
    ghost use Rattle.byte_ports.specs.Doubles.{Reading};

    ghost Value = { Reading };

    ghost view = { λ s. record { left = drop s.at s.bytes.items; plan = s.plan } };

    ghost invariant = { λ s. s.at ≤ vec_len s.bytes };
}

impl ListSource {
    /// A source of these bytes. Of its calls, counted from 1, those in `failing` fail.
    pub fn new(alloc: Global, bytes: &[u8], failing: &[u64]) -> Result<Self, AllocError>
        ensures { IfOk result (λ s. s ≡ record { left = bytes.now; plan = new_plan failing.now }) }
    {
        Ok(ListSource {
            bytes: Vec::from_slice(alloc, bytes)?,
            at: 0,
            plan: FaultPlan::new(alloc, failing)?,
        })
    }
}

impl Source for ListSource {
    ghost left = { λ s. Some s.left };

    ghost faults = { λ s. s.plan.faults };

    /// Reads as many bytes as are left and have room. Only a call in the list of failing calls
    /// fails.
    fn read(&mut self, buf: &mut [u8]) -> Result<usize, Failed>
        requires room { 0 < length buf.old }
        ensures bound { ReadsAtMost result buf.new }
        ensures bytes { ReadConsumes (Some self.old.left) (Some self.new.left) result buf.new }
        ensures told { TellsAlike (Some self.old.left) (Some self.new.left) }
        ensures counted { self.old.plan.faults ≤ self.new.plan.faults }
        ensures kept { OnOk result (self.new.plan.faults ≡ self.old.plan.faults) }
        ensures cause { OnErr result (Rose self.old.plan.faults self.new.plan.faults) }

        ensures count { IfOk result (λ n. n ≡ min (length buf.old) (length self.old.left)) }
        ensures fails { is_err result ≡ fails_next self.old.plan }
        ensures plan { self.new.plan ≡ after_call self.old.plan (is_err result) }
    {
        if let Err(failed) = self.plan.count_call() {
            return Err(failed);
        }
        let (_, left) = self.bytes.split_at(self.at);
        let count = copy_front(left, buf);
        self.at += count;
        Ok(count)
    }
}

/// A sink that keeps its bytes, and whose calls fail where a list says so.
#[derive(Drop)]
pub struct ListSink {
    bytes: Vec<u8>,
    plan: FaultPlan,
}

impl Model for ListSink {
    ghost use Rattle.byte_ports.specs.Doubles.{Writing};

    ghost Value = { Writing };

    ghost view = { λ s. record { written = s.bytes.items; plan = s.plan } };
}

impl ListSink {
    /// An empty sink. Of its calls, counted from 1, those in `failing` fail.
    pub fn new(alloc: Global, failing: &[u64]) -> Result<Self, AllocError>
        ensures { IfOk result (λ s. s ≡ record { written = []; plan = new_plan failing.now }) }
    {
        Ok(ListSink {
            bytes: Vec::new(alloc),
            plan: FaultPlan::new(alloc, failing)?,
        })
    }

    /// The bytes written so far.
    pub fn written(&self) -> &[u8]
        ensures { result.now ≡ self.now.written }
    {
        self.bytes.as_slice()
    }
}

impl Sink for ListSink {
    ghost written = { λ s. Some s.written };

    ghost flushed = { λ s. Some s.written };

    ghost faults = { λ s. s.plan.faults };

    /// Takes the whole piece. Besides a call in the list of failing calls, only one fails that
    /// finds no memory.
    fn write(&mut self, piece: &[u8]) -> Result<usize, Failed>
        ensures bound { WritesAtMost result piece.now }
        ensures some { IfOk result (λ count. 0 < length piece.now → 0 < count) }
        ensures bytes { WriteAppends (Some self.old.written) (Some self.new.written) result
            piece.now }
        ensures told { TellsAlike (Some self.old.written) (Some self.new.written) }
        ensures counted { self.old.plan.faults ≤ self.new.plan.faults }
        ensures kept { OnOk result (self.new.plan.faults ≡ self.old.plan.faults) }
        ensures cause { OnErr result (Rose self.old.plan.faults self.new.plan.faults) }

        ensures count { IfOk result (λ n. n ≡ length piece.now) }
        ensures fails { IsTrue (fails_next self.old.plan) → IsErr result }
        ensures plan { self.new.plan ≡ after_call self.old.plan (is_err result) }
    {
        if let Err(failed) = self.plan.count_call() {
            return Err(failed);
        }
        match self.bytes.extend_from_slice(piece) {
            Ok(()) => Ok(piece.len()),
            Err(AllocError) => Err(self.plan.fail()),
        }
    }

    /// Holds nothing back. Only a call in the list of failing calls fails.
    fn flush(&mut self) -> Result<(), Failed>
        ensures bytes { Some self.new.written ≡ Some self.old.written }
        ensures counted { self.old.plan.faults ≤ self.new.plan.faults }
        ensures kept { OnOk result (self.new.plan.faults ≡ self.old.plan.faults) }
        ensures cause { OnErr result (Rose self.old.plan.faults self.new.plan.faults) }

        ensures fails { is_err result ≡ fails_next self.old.plan }
        ensures plan { self.new.plan ≡ after_call self.old.plan (is_err result) }
    {
        self.plan.count_call()
    }
}

/// An outlet that keeps its bytes and the names of its starts, and whose calls fail where a list
/// says so.
#[derive(Drop)]
pub struct ListOutlet {
    alloc: Global,
    names: Vec<String>,
    sink: ListSink,
}

impl Model for ListOutlet {
    ghost use Rattle.std.specs.Prelude.{map, string_bytes};
    ghost use Rattle.byte_ports.specs.Doubles.{Exporting};

    ghost Value = { Exporting };

    ghost view = { λ s. record {
      started = map string_bytes s.names.items;
      written = s.sink.written;
      plan = s.sink.plan;
    } };
}

impl ListOutlet {
    /// An empty outlet without a start. Of its calls, counted from 1, those in `failing` fail.
    pub fn new(alloc: Global, failing: &[u64]) -> Result<Self, AllocError>
        ensures { IfOk result (λ s. s
            ≡ record { started = []; written = []; plan = new_plan failing.now }) }
    {
        Ok(ListOutlet {
            alloc,
            names: Vec::new(alloc),
            sink: ListSink::new(alloc, failing)?,
        })
    }

    /// The bytes written so far.
    pub fn written(&self) -> &[u8]
        ensures { result.now ≡ self.now.written }
    {
        self.sink.written()
    }

    /// The names that it was started with, the first first.
    pub fn started(&self) -> &[String]
        ensures { map string_bytes result.now ≡ self.now.started }
    {
        self.names.as_slice()
    }

    /// Keeps the name of a start. Without memory nothing is kept.
    fn add_name(&mut self, name: &str) -> Result<(), AllocError>
        ensures ok { OnOk result (self.new
            ≡ record self.old { started = self.old.started ++ name.now ∷ [] }) }
        ensures err { OnErr result (self.new ≡ self.old) }
    {
        let name = String::from_str(self.alloc, name)?;
        self.names.push(name)?;
        Ok(())
    }
}

impl Sink for ListOutlet {
    ghost written = { λ s. Some s.written };

    ghost started = { λ s. Some s.started };

    ghost flushed = { λ s. Some s.written };

    ghost faults = { λ s. s.plan.faults };

    /// Takes the whole piece. Besides a call in the list of failing calls, only one fails that
    /// finds no memory.
    fn write(&mut self, piece: &[u8]) -> Result<usize, Failed>
        ensures bound { WritesAtMost result piece.now }
        ensures some { IfOk result (λ count. 0 < length piece.now → 0 < count) }
        ensures bytes { WriteAppends (Some self.old.written) (Some self.new.written) result
            piece.now }
        ensures told { TellsAlike (Some self.old.written) (Some self.new.written) }
        ensures started { Some self.new.started ≡ Some self.old.started }
        ensures counted { self.old.plan.faults ≤ self.new.plan.faults }
        ensures kept { OnOk result (self.new.plan.faults ≡ self.old.plan.faults) }
        ensures cause { OnErr result (Rose self.old.plan.faults self.new.plan.faults) }

        ensures count { IfOk result (λ n. n ≡ length piece.now) }
        ensures fails { IsTrue (fails_next self.old.plan) → IsErr result }
        ensures plan { self.new.plan ≡ after_call self.old.plan (is_err result) }
    {
        self.sink.write(piece)
    }

    /// Holds nothing back. Only a call in the list of failing calls fails.
    fn flush(&mut self) -> Result<(), Failed>
        ensures bytes { Some self.new.written ≡ Some self.old.written }
        ensures started { Some self.new.started ≡ Some self.old.started }
        ensures counted { self.old.plan.faults ≤ self.new.plan.faults }
        ensures kept { OnOk result (self.new.plan.faults ≡ self.old.plan.faults) }
        ensures cause { OnErr result (Rose self.old.plan.faults self.new.plan.faults) }

        ensures fails { is_err result ≡ fails_next self.old.plan }
        ensures plan { self.new.plan ≡ after_call self.old.plan (is_err result) }
    {
        self.sink.flush()
    }
}

impl Outlet for ListOutlet {
    /// Keeps the name. Besides a call in the list of failing calls, only one fails that finds no
    /// memory.
    fn start(&mut self, name: &str) -> Result<(), Failed>
        ensures bytes { Some self.new.written ≡ Some self.old.written }
        ensures adds { StartAdds (Some self.old.started) (Some self.new.started) result name.now }
        ensures counted { self.old.plan.faults ≤ self.new.plan.faults }
        ensures kept { OnOk result (self.new.plan.faults ≡ self.old.plan.faults) }
        ensures cause { OnErr result (Rose self.old.plan.faults self.new.plan.faults) }

        ensures fails { IsTrue (fails_next self.old.plan) → IsErr result }
        ensures plan { self.new.plan ≡ after_call self.old.plan (is_err result) }
    {
        if let Err(failed) = self.sink.plan.count_call() {
            return Err(failed);
        }
        match self.add_name(name) {
            Ok(()) => Ok(()),
            Err(AllocError) => Err(self.sink.plan.fail()),
        }
    }

    ghost names_told = { λ _. refl };
}
