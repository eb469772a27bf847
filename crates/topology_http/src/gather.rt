//! A message that comes in pieces.
ghost use Rattle.std.specs.Prelude.{◌≡◌, ◌++◌, [], None};
ghost use Rattle.topology_http.specs.Gathers.{IsProgressAt, Feeds, FeedsOpen, fault_of, waits};

use crate::{HttpFault, Side, read_message};
use std::alloc::Global;
use std::marker::Model;

/// How far a message has come.
#[derive(Clone, Copy, Debug, PartialEq, Eq)]
pub enum Progress {
    /// It does not end yet.
    More,
    /// It is whole, with this many bytes.
    Whole { used: u64 },
}

fn waits(fault: HttpFault) -> Result<Progress, HttpFault>
    ensures { result ≡ waits fault }
{
    match fault {
        HttpFault::Partial => Ok(Progress::More),
        HttpFault::BadHead => Err(HttpFault::BadHead),
        HttpFault::Chunked => Err(HttpFault::Chunked),
        HttpFault::NoLength => Err(HttpFault::NoLength),
        HttpFault::TooLarge { n } => Err(HttpFault::TooLarge { n }),
        HttpFault::NoSuchPath => Err(HttpFault::NoSuchPath),
        HttpFault::Memory => Err(HttpFault::Memory),
    }
}

fn progress_at(bytes: &[u8], side: Side) -> Result<Progress, HttpFault>
    ensures { IsProgressAt side bytes.now result }
{
    match read_message(bytes, side) {
        Ok(message) => Ok(Progress::Whole { used: message.used }),
        Err(fault) => waits(fault),
    }
}

fn fault_of(progress: Result<Progress, HttpFault>) -> Option<HttpFault>
    ensures { result ≡ fault_of progress }
{
    match progress {
        Ok(_) => None,
        Err(fault) => Some(fault),
    }
}

/// The bytes of a message so far, and the first refusal of them. Contracts see it as the record of the
/// side, the bytes and the refusal.
#[derive(Drop)]
pub struct Gather {
    side: Side,
    bytes: Vec<u8>,
    refused: Option<HttpFault>,
}

impl Model for Gather {
    ghost use Rattle.topology_http.specs.Gathers.{Gathered};

    ghost Value = { Gathered };

    ghost view = { λ g. record { side = g.side; bytes = g.bytes.items; refused = g.refused } };
}

impl Gather {
    /// No bytes yet, which takes no memory.
    pub fn new(alloc: Global, side: Side) -> Self
        ensures { result ≡ record { side = side; bytes = []; refused = None } }
    {
        Gather {
            side,
            bytes: Vec::new(alloc),
            refused: None,
        }
    }

    fn take(&mut self, piece: &[u8]) -> Result<Progress, HttpFault>
        ensures { FeedsOpen self.old piece.now result self.new }
    {
        self.bytes.extend_from_slice(piece)?;
        let progress = progress_at(self.bytes.as_slice(), self.side);
        self.refused = fault_of(progress);
        progress
    }

    /// Takes a further piece, and says how far the message has come: what [`read_message`] says of all
    /// bytes so far, up to its first refusal, which is repeated from then on. Bytes behind a whole
    /// message are kept, and change nothing. After want of memory all is as it was.
    pub fn feed(&mut self, piece: &[u8]) -> Result<Progress, HttpFault>
        ensures { Feeds self.old piece.now result self.new }
    {
        match self.refused {
            Some(fault) => Err(fault),
            None => self.take(piece),
        }
    }

    /// The bytes so far.
    pub fn bytes(&self) -> &[u8]
        ensures { result.now ≡ self.now.bytes }
    {
        self.bytes.as_slice()
    }
}
