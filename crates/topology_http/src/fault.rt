ghost use Rattle.std.specs.Prelude.{◌≡◌};
ghost use Rattle.topology_http.specs.declared.fault.HttpFault.TheVariants.{Memory};

use std::alloc::AllocError;

/// Why bytes are no message, or a message asks for nothing that is served. The reasons to refuse a
/// message are sought in this order.
#[derive(Clone, Copy, Debug, PartialEq, Eq)]
pub enum HttpFault {
    /// The message does not end yet.
    Partial,
    /// The head is none, is longer or has more fields than a head may have, or does not tell one
    /// length.
    BadHead,
    /// The body would come in pieces of its own.
    Chunked,
    /// The body's length is not told.
    NoLength,
    /// The body would have this many bytes.
    TooLarge { n: u64 },
    /// No such method and path is served.
    NoSuchPath,
    /// Want of memory.
    Memory,
}

impl From<AllocError> for HttpFault {
    ghost from_gives = { λ _ e. e ≡ Memory };

    fn from(_: AllocError) -> Self {
        HttpFault::Memory
    }
}
