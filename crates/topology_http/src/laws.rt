//! What holds of every message, however its bytes are cut and whatever follows them.
ghost use Rattle.topology_http.specs.Fits.{CodesAre, RepliesReturn, RequestsReturn};
ghost use Rattle.topology_http.specs.Gathers.{AnyCut, WholesAreTold};
ghost use Rattle.topology_http.specs.Settles.{FrontsWait, ReadingsSettle};

/// A message that was read, or the reason why there is none, stays when more bytes come.
pub fn readings_settle()
    ensures { ReadingsSettle }
{}

/// Wherever the bytes of a message are cut, their front is read as not whole, or as that message.
pub fn fronts_wait()
    ensures { FrontsWait }
{}

/// However a message is cut, and whatever follows it, no piece of it is refused.
pub fn any_cut()
    ensures { AnyCut }
{}

/// The piece that makes a message whole is answered with the message's length.
pub fn wholes_are_told()
    ensures { WholesAreTold }
{}

/// A request that was written is read again, whatever follows it.
pub fn requests_return()
    ensures { RequestsReturn }
{}

/// A reply that was written is read again, whatever follows it.
pub fn replies_return()
    ensures { RepliesReturn }
{}

/// The codes that are answered have three digits and a phrase, as such a reply needs.
pub fn codes_are()
    ensures { CodesAre }
{}
