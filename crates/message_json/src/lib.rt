//! The bodies of messages, in JSON: requests to the service and its replies, both ways.
//!
//! ```text
//! let request = read_request(alloc, line)?;      // or the first fault, with the member's name
//! let body = write_reply(alloc, &reply)?;        // compact, members in order of their names
//! let reply = read_reply(alloc, body.as_slice())?;
//! ```
//!
//! Members are sought depth first, in the order of `specs/RequestReader` and `specs/ReplyReader`: the
//! first one that is absent, of another kind or outside its bounds is the fault. Members that no
//! rule names are passed over. The bodies that are written stand in `specs/RequestWriter` and
//! `specs/ReplyWriter`, and the bounds in `claim_types/specs/MessageBounds`.
//!
//! Promised: the readers give exactly the message, or the first fault, that these definitions state
//! for the value that `serde_json` reads; the writers give exactly their texts; and what a writer
//! wrote of a message within its bounds is read again as the same, as a clause of the writer and as
//! the laws [`requests_return`] and [`replies_return`].
//!
//! It stands on `claim_types`, on `serde_json` and `json` for the texts, and on `uuid` for those of leases.
//! A caller of a writer keeps that the message can be written: its leases are within their bounds, and its
//! texts are UTF-8. A reader takes any bytes.
#![tactic(auto)]

mod fault;
mod fault_writer;
mod fields;
mod laws;
mod member;
mod reader;
mod reply_reader;
mod reply_writer;
mod request_reader;
mod request_writer;
#[cfg(test)]
mod tests;
mod texts;

pub use fault::BodyFault;
pub use fault_writer::write_fault;
pub use laws::{replies_return, requests_return};
pub use member::Member;
pub use reply_reader::read_reply;
pub use reply_writer::write_reply;
pub use request_reader::read_request;
pub use request_writer::write_request;
