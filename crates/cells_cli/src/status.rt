ghost use Rattle.std.specs.Prelude.{◌≡◌, IfOk, string_bytes};

use cells_base::NoMemory;
use std::alloc::Global;

/// How a run ended.
#[derive(Clone, Copy, Debug, PartialEq, Eq)]
pub enum Status {
    /// The input was read to its end, or the command was done.
    End,
    /// The words are no command, or name a cell that the configuration lacks.
    Usage,
    /// The registry of the configuration is refused, by this number.
    ConfigRegistry { number: u8 },
    /// The rules of the configuration are refused, by this number.
    ConfigRules { number: u8 },
    /// A journal names a cell that the configuration lacks.
    ConfigLacks { cell: u16 },
    /// The configuration is too long.
    ConfigLong,
    /// The input is refused at this line, from 1.
    Script { line: u64 },
    /// The configuration or the input could not be read.
    ReadFault,
    /// The report could not be written.
    WriteFault,
    /// Want of memory.
    Memory,
    /// This file of the disk failed.
    DiskFault { file: u16 },
    /// This file is no journal, as its bytes show at this place.
    NotAJournal { file: u16, at: u64 },
    /// This entry of the file, from 0, is refused.
    BadEntry { file: u16, index: u64 },
    /// The file is there already, with this size.
    FileInUse { file: u16, size: u64 },
    /// No connection could be taken.
    Unheard,
    /// The cell has used all its epochs.
    EpochsSpent { cell: u16 },
}

impl Status {
    ghost use Rattle.cells_cli.specs.Status.{code_of, last_words};

    /// The exit code.
    pub fn code(&self) -> u8
        ensures { result ≡ code_of self.now }
    {
        match self {
            Status::End => 0,
            Status::Usage => 2,
            Status::ConfigRegistry { .. }
            | Status::ConfigRules { .. }
            | Status::ConfigLacks { .. }
            | Status::ConfigLong => 3,
            Status::Script { .. } => 4,
            Status::ReadFault => 5,
            Status::WriteFault => 6,
            Status::Memory => 7,
            Status::DiskFault { .. } => 8,
            Status::NotAJournal { .. } | Status::BadEntry { .. } => 9,
            Status::FileInUse { .. } => 10,
            Status::Unheard => 11,
            Status::EpochsSpent { .. } => 12,
        }
    }

    /// The words of the report's last line, without its end.
    pub fn words(&self, alloc: Global) -> Result<String, NoMemory>
        ensures { IfOk result (λ text. string_bytes text ≡ last_words self.now) }
    {
        Ok(match self {
            Status::End => String::from_str(alloc, "end")?,
            Status::Usage => String::from_str(alloc, "usage")?,
            Status::ConfigRegistry { number } => format!(in alloc; "config registry {number}")?,
            Status::ConfigRules { number } => format!(in alloc; "config rules {number}")?,
            Status::ConfigLacks { cell } => format!(in alloc; "config lacks {cell}")?,
            Status::ConfigLong => String::from_str(alloc, "config long")?,
            Status::Script { line } => format!(in alloc; "script {line}")?,
            Status::ReadFault => String::from_str(alloc, "read fault")?,
            Status::WriteFault => String::new(alloc),
            Status::Memory => String::from_str(alloc, "memory")?,
            Status::DiskFault { file } => format!(in alloc; "disk fault {file}")?,
            Status::NotAJournal { file, at } => format!(in alloc; "not a journal {file} {at}")?,
            Status::BadEntry { file, index } => format!(in alloc; "bad entry {file} {index}")?,
            Status::FileInUse { file, size } => format!(in alloc; "file in use {file} {size}")?,
            Status::Unheard => String::from_str(alloc, "unheard")?,
            Status::EpochsSpent { cell } => format!(in alloc; "epochs spent {cell}")?,
        })
    }
}
