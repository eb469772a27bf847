ghost use Rattle.std.specs.Prelude.{◌≡◌, ◌+◌, ◌≤◌, ◌<◌, Ok, false, length, vec_len, IfOk, IfSome, OnOk};
ghost use Rattle.disk_journal.specs.Disk.{HasCause};

use crate::limits::{FILE_BYTES, OPEN_FILES, PATH_BYTES};
use crate::{Disk, DiskFailed};
use cells_base::NoMemory;
use std::alloc::Global;
use std::fmt::Write as _;
use std::fs::{File, OpenOptions};
use std::io::{ErrorKind, Read, Seek, SeekFrom, Write};
use std::rt::Files;
use std::{fs, io};

/// The folder of the files, in the current folder.
const FOLDER: &str = "cells-data";

/// A file that is kept open, by its number.
#[derive(Drop)]
struct KeptFile {
    number: u16,
    file: File,
    // A sync failed: what the system holds of the file is not known any more.
    spoiled: bool,
}

/// The files of the folder `cells-data`: `service.journal` for file 0, `cell-c.journal` for file c.
///
/// A missing file has size 0, its sync does nothing, and a write makes it, with the folder where that is
/// missing. Any other error is a counted fault. Each file stays open from its first use, and no call takes
/// memory. A process makes one such disk.
///
/// - One owner: a file's first use takes the exclusive advisory lock on it. The lock of another is a fault.
/// - A failed sync is never believed: every later call on that file is a fault, and where it was the sync of
///   a folder, every later call. A system may drop what it could not write, and pass the next sync.
/// - At a file's first use its folder and the current folder are synced, whoever made the file.
/// - Its descriptors are above 2, so a report never goes into a journal where a stream was closed before.
///
/// What the files hold is not told: that the system does what [`Disk`] says is trusted, not proved.
#[derive(Drop)]
pub struct FileDisk<R: Files<File = File> + Drop> {
    rt: R,
    path: String,
    kept: Vec<KeptFile>,
    // The sync of a folder failed.
    spoiled: bool,
    faults: u64,
    last_fault: u16,
}

// The options under which a file is opened.
fn options(makes: bool) -> OpenOptions {
    let mut options = OpenOptions::new();
    options.read(true).write(true).create(makes);
    options
}

// Opens a file, and makes it and the folder where they are missing.
fn make_file<R: Files<File = File>>(rt: &R, path: &str) -> io::Result<File> {
    match options(true).open(rt, path) {
        Err(error) if error.kind() == ErrorKind::NotFound => {
            fs::create_dir(rt, FOLDER)?;
            options(true).open(rt, path)
        }
        outcome => outcome,
    }
}

// Opens a file that is there, or makes it. None: it is missing.
fn open_file<R: Files<File = File>>(rt: &R, path: &str, makes: bool) -> io::Result<Option<File>> {
    match options(false).open(rt, path) {
        Ok(file) => Ok(Some(file)),
        Err(error) if error.kind() == ErrorKind::NotFound => {
            if makes {
                Ok(Some(make_file(rt, path)?))
            } else {
                Ok(None)
            }
        }
        Err(error) => Err(error),
    }
}

// The same file for this disk alone, by a descriptor above 2.
fn owned(file: File) -> io::Result<File> {
    if !file.metadata()?.is_file() {
        return Err(io::Error::from(ErrorKind::InvalidInput));
    }
    file.try_lock()?;
    file.try_clone()
}

// Puts on the disk which files a folder has.
fn sync_folder<R: Files<File = File>>(rt: &R, path: &str) -> io::Result<()> {
    OpenOptions::new().read(true).open(rt, path)?.sync_all()
}

// The same of the folder of the files and of the one that it is in.
fn sync_folders<R: Files<File = File>>(rt: &R) -> io::Result<()> {
    sync_folder(rt, FOLDER)?;
    sync_folder(rt, ".")
}

// The path of the file with this number, in a text whose room is taken before.
fn write_path(path: &mut String, number: u16) -> io::Result<()> {
    path.clear();
    let written = if number == 0 {
        write!(path, "{FOLDER}/service.journal")
    } else {
        write!(path, "{FOLDER}/cell-{number}.journal")
    };
    written.map_err(|_| io::Error::from(ErrorKind::OutOfMemory))
}

// What a call answers, and counts.
fn counted<T: Drop>(
    faults: &mut u64,
    last_fault: &mut u16,
    file: u16,
    outcome: io::Result<T>,
) -> Result<T, DiskFailed>
    ensures cause { HasCause file faults.old faults.new last_fault.old last_fault.new result }
    ensures same { (v : T) → result ≡ Ok v → outcome ≡ Ok v }
{
    match outcome {
        Ok(value) => Ok(value),
        Err(_) => {
            *faults = faults.saturating_add(1);
            *last_fault = file;
            Err(DiskFailed)
        }
    }
}

impl<R: Files<File = File> + Drop> FileDisk<R> {
    /// The files of the current folder. None is opened yet.
    pub fn new(rt: R, alloc: Global) -> Result<Self, NoMemory>
        ensures { IfOk result (λ disk. disk.faults ≡ 0) }
    {
        Ok(FileDisk {
            rt,
            path: String::with_capacity(alloc, PATH_BYTES)?,
            kept: Vec::with_capacity(alloc, OPEN_FILES)?,
            spoiled: false,
            faults: 0,
            last_fault: 0,
        })
    }

    // Opens a file for the first time. None: it is missing, and is not to be made.
    fn first_use(&mut self, number: u16, makes: bool) -> io::Result<Option<usize>>
        ensures faults { self.new.faults ≡ self.old.faults }
        ensures last { self.new.last_fault ≡ self.old.last_fault }
        ensures within { IfOk result (λ place. IfSome place (λ i. i < vec_len self.new.kept)) }
    {
        if self.kept.len() >= OPEN_FILES {
            return Err(io::Error::from(ErrorKind::OutOfMemory));
        }
        write_path(&mut self.path, number)?;
        let Some(opened) = open_file(&self.rt, self.path.as_str(), makes)? else {
            return Ok(None);
        };
        let file = owned(opened)?;
        let synced = sync_folders(&self.rt);
        self.spoiled = synced.is_err();
        synced?;
        let i = self.kept.len();
        self.kept.push(KeptFile {
            number,
            file,
            spoiled: false,
        })?;
        Ok(Some(i))
    }

    // The place of a file among those that are open, where it is there, or is made. None: it is missing.
    fn place(&mut self, number: u16, makes: bool) -> io::Result<Option<usize>>
        ensures faults { self.new.faults ≡ self.old.faults }
        ensures last { self.new.last_fault ≡ self.old.last_fault }
        ensures within { IfOk result (λ place. IfSome place (λ i. i < vec_len self.new.kept)) }
    {
        if self.spoiled {
            return Err(io::Error::from(ErrorKind::Other));
        }
        let Some(i) = self.kept.iter().position(|kept| kept.number == number) else {
            return self.first_use(number, makes);
        };
        if self.kept[i].spoiled {
            return Err(io::Error::from(ErrorKind::Other));
        }
        Ok(Some(i))
    }

    fn size_of(&mut self, number: u16) -> io::Result<u64>
        ensures faults { self.new.faults ≡ self.old.faults }
        ensures last { self.new.last_fault ≡ self.old.last_fault }
        ensures within { IfOk result (λ size. size ≤ FILE_BYTES) }
    {
        let size = match self.place(number, false)? {
            Some(i) => self.kept[i].file.metadata()?.len(),
            None => 0,
        };
        if size > FILE_BYTES {
            return Err(io::Error::from(ErrorKind::FileTooLarge));
        }
        Ok(size)
    }

    fn read_at(&mut self, number: u16, at: u64, buf: &mut [u8]) -> io::Result<()>
        ensures faults { self.new.faults ≡ self.old.faults }
        ensures last { self.new.last_fault ≡ self.old.last_fault }
    {
        if let Some(i) = self.place(number, false)? {
            let file = &mut self.kept[i].file;
            file.seek(SeekFrom::Start(at))?;
            return file.read_exact(buf);
        }
        if buf.is_empty() {
            return Ok(());
        }
        Err(io::Error::from(ErrorKind::NotFound))
    }

    fn write(&mut self, number: u16, at: u64, bytes: &[u8]) -> io::Result<()>
        ensures faults { self.new.faults ≡ self.old.faults }
        ensures last { self.new.last_fault ≡ self.old.last_fault }
        ensures within { OnOk result (at + length bytes.now ≤ FILE_BYTES) }
    {
        if at.saturating_add(bytes.len() as u64) > FILE_BYTES {
            return Err(io::Error::from(ErrorKind::FileTooLarge));
        }
        let Some(i) = self.place(number, true)? else {
            return Err(io::Error::from(ErrorKind::NotFound));
        };
        let file = &mut self.kept[i].file;
        file.seek(SeekFrom::Start(at))?;
        file.write_all(bytes)
    }

    fn cut_to(&mut self, number: u16, size: u64) -> io::Result<()>
        ensures faults { self.new.faults ≡ self.old.faults }
        ensures last { self.new.last_fault ≡ self.old.last_fault }
    {
        match self.place(number, false)? {
            Some(i) => self.kept[i].file.set_len(size),
            None if size == 0 => Ok(()),
            None => Err(io::Error::from(ErrorKind::NotFound)),
        }
    }

    fn sync_one(&mut self, number: u16) -> io::Result<()>
        ensures faults { self.new.faults ≡ self.old.faults }
        ensures last { self.new.last_fault ≡ self.old.last_fault }
    {
        let Some(i) = self.place(number, false)? else {
            return Ok(());
        };
        let kept = &mut self.kept[i];
        let synced = kept.file.sync_all();
        kept.spoiled = synced.is_err();
        synced
    }
}

impl<R: Files<File = File> + Drop> Disk for FileDisk<R> {
    ghost use Rattle.std.specs.Prelude.{false, []};

    ghost tells = { false };

    ghost seen = { λ d f. [] };

    ghost may_leave = { λ d f c. Unit {0} };

    ghost moment = { λ d. 0 };

    ghost left_since = { λ d t img. Unit {0} };

    ghost faults = { λ d. d.faults };

    ghost last_fault = { λ d. d.last_fault };

    ghost steady = { λ d f n. ⊥ };

    ghost counts_now = { λ d t img le now. tt };

    ghost only_now = { λ d img left g. tt };

    ghost seen_may_stay = { λ d f. tt };

    fn size(&mut self, file: u16) -> Result<u64, DiskFailed> {
        let outcome = self.size_of(file);
        counted(&mut self.faults, &mut self.last_fault, file, outcome)
    }

    fn read(&mut self, file: u16, at: u64, buf: &mut [u8]) -> Result<(), DiskFailed> {
        let outcome = self.read_at(file, at, buf);
        counted(&mut self.faults, &mut self.last_fault, file, outcome)
    }

    fn write_at(&mut self, file: u16, at: u64, bytes: &[u8]) -> Result<(), DiskFailed> {
        let outcome = self.write(file, at, bytes);
        counted(&mut self.faults, &mut self.last_fault, file, outcome)
    }

    fn cut(&mut self, file: u16, size: u64) -> Result<(), DiskFailed> {
        let outcome = self.cut_to(file, size);
        counted(&mut self.faults, &mut self.last_fault, file, outcome)
    }

    fn sync(&mut self, file: u16) -> Result<(), DiskFailed> {
        let outcome = self.sync_one(file);
        counted(&mut self.faults, &mut self.last_fault, file, outcome)
    }
}
