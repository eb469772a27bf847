//! Standard readers and writers as a source and a sink. They do not tell their bytes: nothing is
//! promised of the outside world but that a fault is counted.
ghost use Rattle.std.specs.Prelude.{◌≡◌, false, []};
ghost use Rattle.std.specs.Io.{ReadsAtMost};

use crate::{Clock, Sink, SinkFailed, Source, SourceFailed};
use std::fs::{File, OpenOptions};
use std::io::{self, ErrorKind, Read, Write};
use std::rt::{self, Files};
use std::time::{SystemTime, UNIX_EPOCH};

/// Any reader of std.
#[derive(Drop)]
pub struct StdSource<R: Read> {
    inner: R,
    faults: u64,
}

impl<R: Read> StdSource<R> {
    pub fn new(inner: R) -> Self
        ensures inner { result.inner ≡ inner }
        ensures faults { result.faults ≡ 0 }
    {
        StdSource { inner, faults: 0 }
    }
}

impl<R: Read> Source for StdSource<R> {
    ghost tells = { false };

    ghost left = { λ s. [] };

    ghost faults = { λ s. s.faults };

    fn read(&mut self, buf: &mut [u8]) -> Result<usize, SourceFailed> {
        match self.inner.read(buf) {
            Ok(count) => Ok(count),
            Err(_) => {
                self.faults = self.faults.saturating_add(1);
                Err(SourceFailed)
            }
        }
    }
}

/// A file that is opened by its path at the first read. Where it cannot be opened, since it is missing
/// or otherwise, that is a fault of the read. Its descriptor is above 2, so that it never takes the place of a
/// standard stream that was closed before.
#[derive(Drop)]
pub struct FileSource<'a, R: Files<File = File>> {
    rt: &'a R,
    path: &'a str,
    file: Option<File>,
    faults: u64,
}

impl<'a, R: Files<File = File>> FileSource<'a, R> {
    pub fn new(rt: &'a R, path: &'a str) -> Self
        ensures path { result.path.now ≡ path.now }
        ensures faults { result.faults ≡ 0 }
    {
        FileSource {
            rt,
            path,
            file: None,
            faults: 0,
        }
    }

    fn read_file(&mut self, buf: &mut [u8]) -> io::Result<usize>
        ensures bound { ReadsAtMost result buf.new }
        ensures faults { self.new.faults ≡ self.old.faults }
    {
        if self.file.is_none() {
            let opened = OpenOptions::new().read(true).open(self.rt, self.path)?;
            self.file = Some(opened.try_clone()?);
        }
        match &mut self.file {
            Some(file) => file.read(buf),
            None => Err(io::Error::from(ErrorKind::NotFound)),
        }
    }
}

impl<'a, R: Files<File = File>> Source for FileSource<'a, R> {
    ghost tells = { false };

    ghost left = { λ s. [] };

    ghost faults = { λ s. s.faults };

    fn read(&mut self, buf: &mut [u8]) -> Result<usize, SourceFailed> {
        let Ok(count) = self.read_file(buf) else {
            self.faults = self.faults.saturating_add(1);
            return Err(SourceFailed);
        };
        Ok(count)
    }
}

/// Any writer of std. One that takes nothing of a piece that is not empty is a fault.
#[derive(Drop)]
pub struct StdSink<W: Write> {
    inner: W,
    faults: u64,
}

impl<W: Write> StdSink<W> {
    pub fn new(inner: W) -> Self
        ensures inner { result.inner ≡ inner }
        ensures faults { result.faults ≡ 0 }
    {
        StdSink { inner, faults: 0 }
    }

    /// The writer, with what it was given.
    pub fn into_inner(self) -> W
    where
        W: Drop,
        ensures { result ≡ self.inner }
    {
        let StdSink { inner, .. } = self;
        inner
    }
}

impl<W: Write> Sink for StdSink<W> {
    ghost tells = { false };

    ghost written = { λ s. [] };

    ghost faults = { λ s. s.faults };

    fn write(&mut self, bytes: &[u8]) -> Result<usize, SinkFailed> {
        match self.inner.write(bytes) {
            Ok(count) => {
                if count > 0 || bytes.is_empty() {
                    return Ok(count);
                }
                self.faults = self.faults.saturating_add(1);
                Err(SinkFailed)
            }
            Err(_) => {
                self.faults = self.faults.saturating_add(1);
                Err(SinkFailed)
            }
        }
    }
}

/// The system's clock: the seconds since the start of 1970, and 0 before it or where no clock can be read.
#[derive(Drop)]
pub struct SystemClock<'a, R: rt::Clock> {
    rt: &'a R,
}

impl<'a, R: rt::Clock> SystemClock<'a, R> {
    pub fn new(rt: &'a R) -> Self
        ensures { result.rt.now ≡ rt.now }
    {
        SystemClock { rt }
    }
}

impl<'a, R: rt::Clock> Clock for SystemClock<'a, R> {
    ghost tells = { false };

    ghost moment = { λ c. 0 };

    fn now(&mut self) -> u64 {
        let Ok(now) = SystemTime::now(self.rt) else {
            return 0;
        };
        match now.duration_since(UNIX_EPOCH) {
            Ok(since) => since.as_secs(),
            Err(_) => 0,
        }
    }
}
