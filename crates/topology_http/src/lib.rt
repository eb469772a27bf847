//! HTTP messages: reading one from the front of bytes, the path that it asks for, and writing one.
//!
//! ```text
//! let routes = Routes::new(alloc)?;                     // once
//! let mut gather = Gather::new(alloc, Side::Request);
//! gather.feed(piece)?;                                  // More, or Whole with the message's length
//! let message = read_message(gather.bytes(), Side::Request)?;
//! routes.dispatch(method, target)?;                     // Begin, .., or no such path
//! ```
//!
//! A message is a head, which `httparse` reads, and a body of as many bytes as the head tells. The
//! message at the front of bytes, or the first reason why there is none, stands in `specs/Messages`, the
//! paths in `specs/Paths`, and the texts that are written in `specs/Written`.
//!
//! Promised: [`read_message`] gives exactly the message, or the first fault, of what `httparse` may
//! answer for the head; [`Gather::feed`] answers what [`read_message`] does for the bytes so far, however
//! they were cut, up to its first refusal, which it repeats; [`Routes::dispatch`] knows exactly the nine
//! paths. Bytes behind a message never change what is read ([`readings_settle`]), any cut of it is gathered to
//! the same message ([`any_cut`], [`wholes_are_told`]), and [`message_of`] and [`message_of_reply`] write
//! exactly texts from which the same request or reply is read again.
#![tactic(auto)]

mod ask;
mod fault;
mod faults;
mod fields;
mod gather;
mod head;
mod laws;
mod limits;
mod message;
mod number;
mod replies;
mod requests;
mod routes;
#[cfg(test)]
mod tests;
mod writer;

pub use ask::Ask;
pub use fault::HttpFault;
pub use faults::{message_of_body_fault, message_of_fault};
pub use gather::{Gather, Progress};
pub use laws::{
    any_cut, codes_are, fronts_wait, readings_settle, replies_return, requests_return,
    wholes_are_told,
};
pub use limits::{HEAD_BYTES, HEAD_FIELDS, LENGTH_DIGITS};
pub use message::{First, Message, Side, read_message};
pub use replies::message_of_reply;
pub use requests::message_of;
pub use routes::Routes;
