//! The packets that were sent, by their tags, and what of them is lost.
ghost use Rattle.std.specs.Prelude.{◌≡◌, ◌≢◌, ◌≤◌, ◌<◌, ◌+◌, ◌++◌, ◌∷◌, [], ℕ, IsTrue, Some, length, filter, map as list_map, nat_lt, ◌-◌, IfOk, OnOk, OnErr, IfSome, IfNone, false};
ghost use Rattle.std.specs.List.{slice_get};
ghost use Rattle.claim_laws.specs.Bounded.{IsMessage};
ghost use Rattle.claim_laws.specs.World.{Packet as SentPacket};
ghost use Rattle.cells_world.specs.Packets.{message_of, spelled, is_lost, after_put, let_through};
ghost use Rattle.cells_world.specs.Post.{packet_of, packets_of, ArePackets, IsSent, IsSentAt, WasNotSent, Puts, Sends, AreRequests, RepeatsAt, armed_with};
ghost use Rattle.claim_laws.specs.Acts.{packet_of as asked_packet};
ghost use Rattle.cells_world.specs.declared.post.Post.{Post as ThePost};

use crate::message::Message;
use cells_base::{Copied, NoMemory, Text};
use cells_edge::{Leg, Packet, Wire, WireError};
use claim_types::Request;
use std::alloc::Global;

/// A packet that was sent, and the message that it carries.
#[derive(Drop)]
pub struct Sent {
    leg: Leg,
    bytes: Text,
    message: Message,
}

/// The packets that were sent, in order of their tags, and which puts from now on are lost.
#[derive(Drop)]
pub struct Post {
    sent: Vec<Sent>,
    armed: Vec<u64>,
}

// Whether the next put is lost.
fn is_lost(armed: &[u64]) -> bool
    ensures { result ≡ is_lost armed.now }
{
    armed.iter().any(|k| *k == 1)
}

// What is armed after one put: what has come is armed no more.
fn after_put(alloc: Global, armed: &[u64]) -> Result<Vec<u64>, NoMemory>
    ensures { IfOk result (λ rest. rest.items ≡ after_put armed.now) }
{
    Ok(
        armed
            .iter()
            .filter(|k| **k > 1)
            .map(|k| k.saturating_sub(1))
            .collect(alloc)?,
    )
}

// Puts a packet on a wire. A put that failed counts as sent.
fn put_on<N: Wire>(alloc: Global, wire: &mut N, leg: Leg, bytes: &[u8]) -> Result<(), NoMemory>
    ensures put { OnOk result (Puts N.Wire wire.old wire.new [] (record { leg = leg; bytes = bytes.now } ∷ [])) }
    ensures handed { IsTrue N.tells → N.handed wire.new ≡ N.handed wire.old }
    ensures later { N.faults wire.old ≤ N.faults wire.new }
{
    match wire.put(alloc, leg, bytes) {
        Ok(()) => Ok(()),
        Err(WireError::Failed) => Ok(()),
        Err(WireError::Memory) => Err(NoMemory),
    }
}

// A message in this place, as it is sent.
fn sent_at(alloc: Global, place: u64, message: Message, answers: u64) -> Result<Sent, NoMemory>
    requires room { place < u64.MAX }
    requires earlier { answers ≤ place }
    requires bounds { IsMessage (message_of message) }
    ensures is { IfOk result (IsSent place) }
    ensures packet { IfOk result (λ s. packet_of s ≡ record { message = message_of message; answers = answers }) }
{
    let bytes = message.text(alloc)?;
    let leg = Leg {
        to: message.address(),
        tag: place + 1,
        answers,
    };
    Ok(Sent {
        leg,
        bytes,
        message,
    })
}

impl Sent {
    // Whether a packet is this one.
    fn is(&self, packet: &Packet) -> bool
        ensures same { IsTrue result → packet.now ≡ record { leg = self.now.leg; bytes = self.now.bytes } }
        ensures other { result ≡ false → packet.now ≢ record { leg = self.now.leg; bytes = self.now.bytes } }
    {
        if self.leg != packet.leg {
            return false;
        }
        self.bytes == packet.bytes
    }

    /// The message that it carries.
    pub fn message(&self) -> &Message
        ensures { result.now ≡ self.now.message }
    {
        &self.message
    }

    /// The tag of the packet that it answers, 0 where it answers none.
    pub fn answers(&self) -> u64
        ensures { result ≡ self.now.leg.answers }
    {
        self.leg.answers
    }
}

impl Post {
    /// Nothing was sent, and nothing is armed. It takes no memory.
    pub fn new(alloc: Global) -> Self
        ensures sent { packets_of result ≡ [] }
        ensures armed { result.armed.items ≡ [] }
        ensures packets { ArePackets result }
    {
        Post {
            sent: Vec::new(alloc),
            armed: Vec::new(alloc),
        }
    }

    /// What was sent, in order of tags: the packet in place n has the tag n + 1.
    pub fn sent(&self) -> &[Sent]
        ensures { result.now ≡ self.now.sent.items }
    {
        self.sent.as_slice()
    }

    /// The place of the packet that was sent so, if one was. Only the packet with that tag can be it.
    pub fn place_of(&self, packet: &Packet) -> Option<usize>
        requires { ArePackets self.now }
        ensures found { IfSome result (λ n. IsSentAt self.now n packet.now) }
        ensures missing { IfNone result (WasNotSent self.now packet.now) }
    {
        if packet.leg.tag == 0 {
            return None;
        }
        let place = packet.leg.tag - 1;
        let sent = self.sent.as_slice();
        if place >= sent.len() as u64 {
            return None;
        }
        let at = place as usize;
        if !sent[at].is(packet) {
            return None;
        }
        Some(at)
    }

    // Counts a put, and makes it unless it is lost.
    fn put<N: Wire>(
        &mut self,
        alloc: Global,
        wire: &mut N,
        leg: Leg,
        bytes: &[u8],
    ) -> Result<(), NoMemory>
        ensures put { OnOk result
            (Puts N.Wire wire.old wire.new self.old.armed.items (record { leg = leg; bytes = bytes.now } ∷ [])) }
        ensures handed { IsTrue N.tells → N.handed wire.new ≡ N.handed wire.old }
        ensures armed { OnOk result (self.new.armed.items ≡ after_put self.old.armed.items) }
        ensures sent { self.new.sent ≡ self.old.sent }
        ensures later { N.faults wire.old ≤ N.faults wire.new }
    {
        let lost = is_lost(self.armed.as_slice());
        self.armed = after_put(alloc, self.armed.as_slice())?;
        if lost {
            return Ok(());
        }
        put_on(alloc, wire, leg, bytes)
    }

    /// Sends a message, which answers the packet with this tag, an earlier one, or none at 0: it gets the next tag, is kept, and is put on the
    /// wire, unless it is lost.
    pub fn send<N: Wire>(
        &mut self,
        alloc: Global,
        wire: &mut N,
        message: Message,
        answers: u64,
    ) -> Result<(), NoMemory>
        requires packets { ArePackets self.old }
        requires bounds { IsMessage (message_of message) }
        requires earlier { answers ≤ length self.old.sent.items }
        ensures sends { OnOk result (Sends (Puts N.Wire) wire.old wire.new self.old self.new
            (record { message = message_of message; answers = answers } ∷ [])) }
        ensures packets { OnOk result (ArePackets self.new) }
        ensures handed { IsTrue N.tells → N.handed wire.new ≡ N.handed wire.old }
        ensures later { N.faults wire.old ≤ N.faults wire.new }
    {
        let place = self.sent.as_slice().len() as u64;
        let sent = sent_at(alloc, place, message, answers)?;
        self.sent.reserve(1)?;
        self.put(alloc, wire, sent.leg, sent.bytes.as_slice())?;
        self.sent.push_reserved(sent);
        Ok(())
    }

    /// Sends requests in order, which answer no packet.
    pub fn send_requests<N: Wire>(
        &mut self,
        alloc: Global,
        wire: &mut N,
        requests: Vec<Request>,
    ) -> Result<(), NoMemory>
        requires packets { ArePackets self.old }
        requires bounds { AreRequests requests.items }
        ensures sends { OnOk result
            (Sends (Puts N.Wire) wire.old wire.new self.old self.new (list_map asked_packet requests.items)) }
        ensures packets { OnOk result (ArePackets self.new) }
        ensures handed { IsTrue N.tells → N.handed wire.new ≡ N.handed wire.old }
        ensures later { N.faults wire.old ≤ N.faults wire.new }
    {
        for request in requests {
            self.send(alloc, wire, Message::Ask(request), 0)?;
        }
        Ok(())
    }

    /// Puts the packet in this place again.
    pub fn repeat<N: Wire>(
        &mut self,
        alloc: Global,
        wire: &mut N,
        at: usize,
    ) -> Result<(), NoMemory>
        requires packets { ArePackets self.old }
        requires place { at < length self.old.sent.items }
        ensures put { OnOk result (RepeatsAt N.Wire wire.old wire.new self.old at) }
        ensures armed { OnOk result (self.new.armed.items ≡ after_put self.old.armed.items) }
        ensures sent { self.new.sent ≡ self.old.sent }
        ensures handed { IsTrue N.tells → N.handed wire.new ≡ N.handed wire.old }
        ensures later { N.faults wire.old ≤ N.faults wire.new }
    {
        let sent = &self.sent.as_slice()[at];
        let leg = sent.leg;
        let bytes = sent.bytes.copy(alloc)?;
        self.put(alloc, wire, leg, bytes.as_slice())
    }

    /// Arms the loss of the put with this number from now on, from 1; 0 disarms all.
    pub fn lose(&mut self, number: u64) -> Result<(), NoMemory>
        ensures armed { OnOk result (self.new.armed.items ≡ armed_with number self.old.armed.items) }
        ensures sent { self.new.sent ≡ self.old.sent }
        ensures err { OnErr result (self.new.armed.items ≡ self.old.armed.items) }
    {
        self.armed.reserve(1)?;
        if number == 0 {
            self.armed.clear();
        } else {
            self.armed.push_reserved(number);
        }
        Ok(())
    }
}
