//! Ports over the readers and writers of std.
ghost use Rattle.std.specs.Prelude.{◌≡◌, ◌<◌, ◌≤◌, None, IfOk, OnErr, OnOk, length, is_err};
ghost use Rattle.std.specs.Io.{ReadsAtMost, WritesAtMost};
ghost use Rattle.std.specs.Io.KnownBytes.{Keeps, ReadConsumes, WriteAppends};
ghost use Rattle.byte_ports.specs.Calls.{Rose, faults_after};

use crate::faults::FaultCount;
use crate::{Failed, Sink, Source};
use std::io::{self, ErrorKind, Read, Write};
use std::marker::Model;

/// How often a call that signals interrupt is made before it fails.
const MOST_TRIES: u64 = u64::MAX;

/// A source over a reader of std. Contracts see it as the reader and its count of faults: each
/// error of the reader is one, but for an interruption, behind which the read is tried again. It
/// reads what the reader reads; what is left is not told.
#[derive(Drop)]
pub struct StdSource<R: Read> {
    reader: R,
    faults: FaultCount,
}

impl<R: Read> Model for StdSource<R> {
    ghost use Rattle.byte_ports.specs.Adapters.{Adapter};

    ghost Value = { Adapter R };

    ghost view = { λ s. record { inner = s.reader; faults = s.faults } };
}

impl<R: Read> StdSource<R> {
    /// A source of what the reader reads.
    pub fn new(reader: R) -> Self
        ensures { result ≡ record { inner = reader; faults = 0 } }
    {
        StdSource {
            reader,
            faults: FaultCount::new(),
        }
    }
}

impl<R: Read> Source for StdSource<R> {
    ghost left = { λ _. None };

    ghost faults = { λ s. s.faults };

    /// Reads by the reader, again where it is interrupted; another error of it is counted as a
    /// fault.
    fn read(&mut self, buf: &mut [u8]) -> Result<usize, Failed>
        requires room { 0 < length buf.old }
        ensures bound { ReadsAtMost result buf.new }
        ensures counted { self.old.faults ≤ self.new.faults }
        ensures kept { OnOk result (self.new.faults ≡ self.old.faults) }
        ensures cause { OnErr result (Rose self.old.faults self.new.faults) }

        ensures faults { self.new.faults ≡ faults_after self.old.faults (is_err result) }
        ensures inner { ReadConsumes (R.remaining self.old.inner) (R.remaining self.new.inner)
            result buf.new }
    {
        match read_through(&mut self.reader, buf) {
            Ok(count) => Ok(count),
            Err(_) => Err(self.faults.fail()),
        }
    }
}

/// A sink over a writer of std. Contracts see it as the writer and its count of faults: each error
/// of the writer is one, but for an interruption, behind which the write is tried again, and so is
/// that it takes nothing of a piece. It writes what the writer takes, and flushes it where it is
/// flushed; what it has written is not told.
#[derive(Drop)]
pub struct StdSink<W: Write> {
    writer: W,
    faults: FaultCount,
}

impl<W: Write> Model for StdSink<W> {
    ghost use Rattle.byte_ports.specs.Adapters.{Adapter};

    ghost Value = { Adapter W };

    ghost view = { λ s. record { inner = s.writer; faults = s.faults } };
}

impl<W: Write> StdSink<W> {
    /// A sink that writes by the writer.
    pub fn new(writer: W) -> Self
        ensures { result ≡ record { inner = writer; faults = 0 } }
    {
        StdSink {
            writer,
            faults: FaultCount::new(),
        }
    }
}

impl<W: Write> Sink for StdSink<W> {
    ghost written = { λ _. None };

    ghost flushed = { λ _. None };

    ghost faults = { λ s. s.faults };

    /// Writes by the writer, again where it is interrupted; another error of it, or that it takes
    /// nothing of a piece, is counted as a fault.
    fn write(&mut self, piece: &[u8]) -> Result<usize, Failed>
        ensures bound { WritesAtMost result piece.now }
        ensures some { IfOk result (λ count. 0 < length piece.now → 0 < count) }
        ensures counted { self.old.faults ≤ self.new.faults }
        ensures kept { OnOk result (self.new.faults ≡ self.old.faults) }
        ensures cause { OnErr result (Rose self.old.faults self.new.faults) }

        ensures faults { self.new.faults ≡ faults_after self.old.faults (is_err result) }
        ensures inner { WriteAppends (W.contents self.old.inner) (W.contents self.new.inner) result
            piece.now }
    {
        write_counted(&mut self.writer, &mut self.faults, piece)
    }

    /// Flushes the writer, again where it is interrupted; another error of it is counted as a
    /// fault.
    fn flush(&mut self) -> Result<(), Failed>
        ensures counted { self.old.faults ≤ self.new.faults }
        ensures kept { OnOk result (self.new.faults ≡ self.old.faults) }
        ensures cause { OnErr result (Rose self.old.faults self.new.faults) }

        ensures faults { self.new.faults ≡ faults_after self.old.faults (is_err result) }
        ensures inner { Keeps (W.contents self.old.inner) (W.contents self.new.inner) }
    {
        flush_counted(&mut self.writer, &mut self.faults)
    }
}

/// Reads once, and again as long as a signal interrupts it.
fn read_through<R: Read>(reader: &mut R, buf: &mut [u8]) -> io::Result<usize>
    ensures bound { ReadsAtMost result buf.new }
    ensures inner { ReadConsumes (R.remaining reader.old) (R.remaining reader.new) result buf.new }
{
    for _ in 0..MOST_TRIES {
        match reader.read(buf) {
            Err(fault) if fault.kind() == ErrorKind::Interrupted => {}
            told => return told,
        }
    }
    Err(io::Error::from(ErrorKind::Interrupted))
}

/// Writes once, and again as long as a signal interrupts it.
fn write_through<W: Write>(writer: &mut W, piece: &[u8]) -> io::Result<usize>
    ensures bound { WritesAtMost result piece.now }
    ensures inner { WriteAppends (W.contents writer.old) (W.contents writer.new) result piece.now }
{
    for _ in 0..MOST_TRIES {
        match writer.write(piece) {
            Err(fault) if fault.kind() == ErrorKind::Interrupted => {}
            told => return told,
        }
    }
    Err(io::Error::from(ErrorKind::Interrupted))
}

/// Flushes once, and again as long as a signal interrupts it.
fn flush_through<W: Write>(writer: &mut W) -> io::Result<()>
    ensures inner { Keeps (W.contents writer.old) (W.contents writer.new) }
{
    for _ in 0..MOST_TRIES {
        match writer.flush() {
            Err(fault) if fault.kind() == ErrorKind::Interrupted => {}
            told => return told,
        }
    }
    Err(io::Error::from(ErrorKind::Interrupted))
}

/// Flushes once. An error is counted.
pub(crate) fn flush_counted<W: Write>(writer: &mut W, faults: &mut FaultCount) -> Result<(), Failed>
    ensures inner { Keeps (W.contents writer.old) (W.contents writer.new) }
    ensures counted { faults.old ≤ faults.new }
    ensures cause { OnErr result (Rose faults.old faults.new) }
    ensures faults { faults.new ≡ faults_after faults.old (is_err result) }
{
    let Ok(()) = flush_through(writer) else {
        return Err(faults.fail());
    };
    Ok(())
}

/// Writes once. An error is counted, and so is that nothing was taken of a piece that has bytes.
pub(crate) fn write_counted<W: Write>(
    writer: &mut W,
    faults: &mut FaultCount,
    piece: &[u8],
) -> Result<usize, Failed>
    ensures bound { WritesAtMost result piece.now }
    ensures some { IfOk result (λ count. 0 < length piece.now → 0 < count) }
    ensures inner { WriteAppends (W.contents writer.old) (W.contents writer.new) result piece.now }
    ensures counted { faults.old ≤ faults.new }
    ensures cause { OnErr result (Rose faults.old faults.new) }
    ensures faults { faults.new ≡ faults_after faults.old (is_err result) }
{
    match write_through(writer, piece) {
        Ok(0) if !piece.is_empty() => Err(faults.fail()),
        Ok(count) => Ok(count),
        Err(_) => Err(faults.fail()),
    }
}
