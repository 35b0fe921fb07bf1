//! Outlets over files.
ghost use Rattle.std.specs.Prelude.{◌≡◌, ◌<◌, ◌≤◌, ℕ, ℤ, List, Option, None, Some, IfOk};
ghost use Rattle.std.specs.Prelude.{IfSome, IsSome, OnErr, OnOk, length, is_err, refl, true};
ghost use Rattle.std.specs.Io.{WritesAtMost};
ghost use Rattle.std.specs.Io.KnownBytes.{Keeps, WriteAppends};
ghost use Rattle.byte_ports.specs.Adapters.{IsApart, IsAt, held};
ghost use Rattle.byte_ports.specs.Calls.{Rose, faults_after};

use crate::faults::FaultCount;
use crate::std_ports::{flush_counted, write_counted};
use crate::{Failed, Outlet, Sink};
use std::fs::File;
use std::io::{self, ErrorKind, Write};
use std::marker::Model;
use std::os::fd::AsRawFd;
use std::rt::Files;

/// The greatest number of a standard stream.
const LAST_STANDARD: i32 = 2;

/// What makes the files of an outlet.
pub trait MakeFiles {
    type File: Write + Drop;

    // The path at which a file was made, where it is told.
    ghost path: { Self.File → Option (List ℕ) };

    // The number that the system gave a file, where it is told.
    ghost number: { Self.File → Option ℤ };

    /// Makes the file at the path `name`, or empties it. It has the number of no standard stream.
    fn make(&self, name: &str) -> io::Result<Self::File>
        ensures at_path { IfOk result (λ file. IsAt (path file) name.now) }
        ensures apart { IfOk result (λ file. IsApart (number file)) };
}

/// Makes files of the system. Their paths are not told, since std tells none.
#[derive(Drop)]
pub struct SystemFiles<F: Files> {
    rt: F,
}

impl<F: Files> SystemFiles<F> {
    /// What makes files by this runtime.
    pub fn new(rt: F) -> Self {
        SystemFiles { rt }
    }
}

impl<F: Files> MakeFiles for SystemFiles<F>
where
    F::File: AsRawFd,
{
    type File = F::File;

    ghost path = { λ _. None };

    ghost number = { λ file. F.File.raw_fd file };

    /// Makes or empties a file. The system gives a file the least number that is free, which is that
    /// of a standard stream where one is closed, so three files are held open until this one has its
    /// number. Where it has that of a standard stream all the same, the call fails.
    fn make(&self, name: &str) -> io::Result<F::File>
        ensures apart { IfOk result (λ file. IsApart (F.File.raw_fd file)) }
    {
        let _first = File::open(&self.rt, "/")?;
        let _second = File::open(&self.rt, "/")?;
        let _third = File::open(&self.rt, "/")?;
        let file = File::create(&self.rt, name)?;
        if is_apart(file.as_raw_fd()) {
            Ok(file)
        } else {
            Err(io::Error::from(ErrorKind::Other))
        }
    }
}

/// Whether a file's number is that of no standard stream.
fn is_apart(number: i32) -> bool
    ensures { result ≡ true → IsApart (Some number) }
{
    LAST_STANDARD < number
}

/// An outlet that is started with the path of a file, which it makes or empties, and writes there.
/// Contracts see it as the file, if there is one, and its count of faults: each error is one, but
/// for an interruption, behind which the call is tried again, and so is a write before a start. It
/// writes what the file takes; what it has written, and the names that it was started with, are not
/// told. The file is closed when the outlet is dropped, and what the system says then is not told.
#[derive(Drop)]
pub struct FileOutlet<M: MakeFiles> {
    files: M,
    file: Option<M::File>,
    faults: FaultCount,
}

impl<M: MakeFiles> Model for FileOutlet<M> {
    ghost use Rattle.std.specs.Prelude.{Option};
    ghost use Rattle.byte_ports.specs.Adapters.{Adapter};

    ghost Value = { Adapter (Option M.File) };

    ghost view = { λ s. record { inner = s.file; faults = s.faults } };
}

impl<M: MakeFiles> FileOutlet<M> {
    /// An outlet without a file yet.
    pub fn new(files: M) -> Self
        ensures { result ≡ record { inner = None; faults = 0 } }
    {
        FileOutlet {
            files,
            file: None,
            faults: FaultCount::new(),
        }
    }
}

impl<M: MakeFiles> Sink for FileOutlet<M> {
    ghost written = { λ _. None };

    ghost flushed = { λ _. None };

    ghost faults = { λ s. s.faults };

    /// Writes to the file; before the first start there is none, and the call fails.
    fn write(&mut self, piece: &[u8]) -> Result<usize, Failed>
        ensures bound { WritesAtMost result piece.now }
        ensures some { IfOk result (λ count. 0 < length piece.now → 0 < count) }
        ensures counted { self.old.faults ≤ self.new.faults }
        ensures kept { OnOk result (self.new.faults ≡ self.old.faults) }
        ensures cause { OnErr result (Rose self.old.faults self.new.faults) }

        ensures faults { self.new.faults ≡ faults_after self.old.faults (is_err result) }
        ensures started { OnOk result (IsSome self.old.inner) }
        ensures inner { WriteAppends (held M.File.contents self.old.inner)
            (held M.File.contents self.new.inner) result piece.now }
    {
        match &mut self.file {
            Some(file) => write_counted(file, &mut self.faults, piece),
            None => Err(self.faults.fail()),
        }
    }

    /// Flushes the file, if there is one.
    fn flush(&mut self) -> Result<(), Failed>
        ensures counted { self.old.faults ≤ self.new.faults }
        ensures kept { OnOk result (self.new.faults ≡ self.old.faults) }
        ensures cause { OnErr result (Rose self.old.faults self.new.faults) }

        ensures faults { self.new.faults ≡ faults_after self.old.faults (is_err result) }
        ensures inner { Keeps (held M.File.contents self.old.inner)
            (held M.File.contents self.new.inner) }
    {
        match &mut self.file {
            Some(file) => flush_counted(file, &mut self.faults),
            None => Ok(()),
        }
    }
}

impl<M: MakeFiles> Outlet for FileOutlet<M> {
    /// Makes the file at the path `name`, or empties it. A start that fails leaves the file that
    /// was written to before. The file is none of the standard streams, also where one of these is
    /// closed.
    fn start(&mut self, name: &str) -> Result<(), Failed>
        ensures counted { self.old.faults ≤ self.new.faults }
        ensures kept { OnOk result (self.new.faults ≡ self.old.faults) }
        ensures cause { OnErr result (Rose self.old.faults self.new.faults) }

        ensures faults { self.new.faults ≡ faults_after self.old.faults (is_err result) }
        ensures started { OnOk result (IsSome self.new.inner) }
        ensures at_path { OnOk result
            (IfSome self.new.inner (λ file. IsAt (M.path file) name.now)) }
        ensures apart { OnOk result (IfSome self.new.inner (λ file. IsApart (M.number file))) }
        ensures left { OnErr result (self.new.inner ≡ self.old.inner) }
    {
        let Ok(file) = self.files.make(name) else {
            return Err(self.faults.fail());
        };
        self.file = Some(file);
        Ok(())
    }

    ghost names_told = { λ _. refl };
}
