//! Messages, and the packets that carry them.
ghost use Rattle.std.specs.Prelude.{◌≡◌, IfOk};
ghost use Rattle.claim_laws.specs.Bounded.{IsMessage};
ghost use Rattle.cells_world.specs.Packets.{message_of, address_of, text_of};

use crate::limits::ROUTER;
use cells_base::{NoMemory, Text};
use claim_service::SERVICE_FILE;
use claim_types::{Reply, Request};
use std::alloc::Global;
use topology_http::{message_of as request_text, message_of_reply as reply_text};

/// What goes from node to node.
#[derive(Debug, Drop)]
pub enum Message {
    /// To the service.
    Ask(Request),
    /// To the cell whose request it answers.
    Answer(Reply),
}

/// The number of the node that a reply is for: the cell of its request. One to a question, and a page, are for the router.
pub fn receiver_of(reply: &Reply) -> u16
    ensures { result ≡ address_of (message_of (Message.Answer reply.now)) }
{
    match reply {
        Reply::Begun { lease, .. } => lease.cell,
        Reply::Committed { lease, .. } => lease.cell,
        Reply::RolledBack { lease, .. } => lease.cell,
        Reply::Leases { cell, .. } => *cell,
        Reply::Ranged { cell, .. } => *cell,
        Reply::Claims { cell, .. } => *cell,
        Reply::NoCell { cell } => *cell,
        Reply::Classified { .. } | Reply::Page { .. } => ROUTER,
    }
}

impl Message {
    /// The number of the node that it is for.
    pub fn address(&self) -> u16
        ensures { result ≡ address_of (message_of self.now) }
    {
        match self {
            Message::Ask(_) => SERVICE_FILE,
            Message::Answer(reply) => receiver_of(reply),
        }
    }

    /// Its text, as docs/FORMATS.md states it.
    pub fn text(&self, alloc: Global) -> Result<Text, NoMemory>
        requires { IsMessage (message_of self.now) }
        ensures { IfOk result (λ text. text ≡ text_of (message_of self.now)) }
    {
        match self {
            Message::Ask(request) => request_text(alloc, request),
            Message::Answer(reply) => reply_text(alloc, reply),
        }
    }
}
