ghost use Rattle.std.specs.Prelude.{◌≡◌, ◌+◌, ◌≤◌, ◌<◌, ◌==◌, true, IsTrue, ℕ, IfOk, map, slice_index_or, length, take, drop};
ghost use Rattle.disk_journal.specs.Failing.{passes, does_work};
ghost use Rattle.disk_journal.specs.Memory.{IsConsistent, IsLeft, FileState, written_at, cut_to, flushed, crashed, left_by, state_of, place_of, empty_file, no_file, can_write, Changes, Works};

use crate::failing::Fate;
use crate::limits::FILE_BYTES;
use crate::memory_file::MemoryFile;
use cells_base::NoMemory;
use std::alloc::Global;

/// Empty files with these numbers, each with this room in bytes.
pub fn empty_files(alloc: Global, numbers: &[u16], room: usize) -> Result<Vec<MemoryFile>, NoMemory>
    ensures { IfOk result (λ files. files.items ≡ map (empty_file room) numbers.now) }
{
    let mut files = Vec::with_capacity(alloc, numbers.len())?;
    for number in numbers {
        files.push(MemoryFile::new(alloc, *number, room)?)?;
    }
    Ok(files)
}

/// A crash of all files.
pub fn crash_each(files: &mut [MemoryFile], pick: u64)
    ensures left { files.new ≡ map (crashed pick) files.old }
    ensures may { (k : ℕ) → k < length files.old →
        let file = slice_index_or files.old k no_file in IsLeft file (left_by pick file) }
{
    for file in files.iter_mut() {
        file.crash(pick);
    }
}

// The place of the file with this number.
fn place(files: &[MemoryFile], number: u16) -> Option<usize>
    ensures { result ≡ place_of files.now number }
{
    files.iter().position(|file| file.number() == number)
}

/// The size of a file, 0 where there is none.
pub fn len_of(files: &[MemoryFile], file: u16) -> u64
    ensures { result ≡ length (state_of files.now file).seen }
{
    match place(files, file) {
        Some(i) => files[i].size() as u64,
        None => 0,
    }
}

/// Fills the buffer with a file's bytes from `at` on.
pub fn fill(files: &[MemoryFile], file: u16, at: u64, buf: &mut [u8])
    requires { at + length buf.old ≤ length (state_of files.now file).seen }
    ensures { buf.new ≡ take (length buf.old) (drop at (state_of files.now file).seen) }
{
    if let Some(i) = place(files, file) {
        files[i].read(at as usize, buf);
    }
}

/// Writes, where there is room.
pub fn put(files: &mut [MemoryFile], file: u16, at: u64, bytes: &[u8]) -> bool
    requires { at ≤ length (state_of files.old file).seen }
    ensures fits { result ≡ can_write files.old file (at + length bytes.now) }
    ensures done { Works result file (written_at at bytes.now) files.old files.new }
    ensures consistent { IsTrue result → IsConsistent (state_of files.old file) }
{
    let Some(i) = place(files, file) else {
        return false;
    };
    if at.saturating_add(bytes.len() as u64) > FILE_BYTES {
        return false;
    }
    let target = &mut files[i];
    target.write(at as usize, bytes)
}

/// Cuts.
pub fn shorten(files: &mut [MemoryFile], file: u16, size: u64)
    requires { size ≤ length (state_of files.old file).seen }
    ensures done { Changes file (cut_to size) files.old files.new }
    ensures consistent { IsConsistent (state_of files.old file) }
{
    if let Some(i) = place(files, file) {
        let target = &mut files[i];
        target.cut(size as usize);
    }
}

/// Syncs.
pub fn flush(files: &mut [MemoryFile], file: u16)
    ensures { Changes file flushed files.old files.new }
{
    if let Some(i) = place(files, file) {
        let target = &mut files[i];
        target.sync();
    }
}

/// Writes as the call's fate has it, and says whether it passed.
pub fn try_put(files: &mut [MemoryFile], fate: Fate, file: u16, at: u64, bytes: &[u8]) -> bool
    requires { at ≤ length (state_of files.old file).seen }
    ensures passed { result ≡ passes fate (can_write files.old file (at + length bytes.now)) }
    ensures work { let works = does_work fate (can_write files.old file (at + length bytes.now)) in
        Works works file (written_at at bytes.now) files.old files.new }
    ensures consistent { let works = does_work fate (can_write files.old file (at + length bytes.now)) in
        IsTrue works → IsConsistent (state_of files.old file) }
{
    match fate {
        Fate::FailsIdle => false,
        Fate::FailsDone => {
            put(files, file, at, bytes);
            false
        }
        Fate::Passes => put(files, file, at, bytes),
    }
}

/// Cuts as the call's fate has it, and says whether it passed.
pub fn try_shorten(files: &mut [MemoryFile], fate: Fate, file: u16, size: u64) -> bool
    requires { size ≤ length (state_of files.old file).seen }
    ensures passed { result ≡ passes fate true }
    ensures work { Works (does_work fate true) file (cut_to size) files.old files.new }
    ensures consistent { IsTrue (does_work fate true) → IsConsistent (state_of files.old file) }
{
    match fate {
        Fate::FailsIdle => false,
        Fate::FailsDone => {
            shorten(files, file, size);
            false
        }
        Fate::Passes => {
            shorten(files, file, size);
            true
        }
    }
}

/// Syncs as the call's fate has it, and says whether it passed.
pub fn try_flush(files: &mut [MemoryFile], fate: Fate, file: u16) -> bool
    ensures passed { result ≡ passes fate true }
    ensures work { Works (does_work fate true) file flushed files.old files.new }
{
    match fate {
        Fate::FailsIdle => false,
        Fate::FailsDone => {
            flush(files, file);
            false
        }
        Fate::Passes => {
            flush(files, file);
            true
        }
    }
}
