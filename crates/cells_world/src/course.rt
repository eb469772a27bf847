//! What a line of a script waits for.
ghost use Rattle.std.specs.Prelude.{◌≡◌, option_copied};
ghost use Rattle.cells_world.specs.Course as spec;
ghost use Rattle.cells_world.specs.Packets.{message_of};
ghost use Rattle.cells_world.specs.Post.{packets_of};

use crate::message::Message;
use crate::post::Post;
use claim_types::{LeasePage, Reply};

/// Whether a line waits for a reply, and where that reply is once it was handed over.
#[derive(Clone, Copy)]
pub enum Course {
    /// It waits for none.
    Idle,
    /// It waits for the reply to the request with this tag.
    Awaits { tag: u64 },
    /// The reply was handed over: the packet in this place, from 0.
    Replied { place: usize },
}

// The course where a page was handed over: behind one with more to come, the next page was asked for by the packet sent last.
fn after_page(place: usize, page: &LeasePage, sent: u64) -> Course
    ensures { result ≡ spec.after_page place page.now sent }
{
    if !page.more {
        return Course::Replied { place };
    }
    if page.leases.as_slice().is_empty() {
        return Course::Idle;
    }
    Course::Awaits { tag: sent }
}

// The course where a message was handed over that answers the request with this tag.
fn after_message(tag: u64, place: usize, message: &Message, sent: u64) -> Course
    ensures { result ≡ spec.after_message tag place (message_of message.now) sent }
{
    match message {
        Message::Ask(_) => Course::Awaits { tag },
        Message::Answer(Reply::Leases { page, .. }) => after_page(place, page, sent),
        Message::Answer(_) => Course::Replied { place },
    }
}

impl Course {
    /// The course where the packet in this place was handed over, and this was sent by then.
    pub fn after(self, post: &Post, place: usize) -> Course
        ensures { result ≡ spec.after_hand (packets_of post.now) place self }
    {
        let Course::Awaits { tag } = self else {
            return self;
        };
        let sent = post.sent();
        match sent.get(place) {
            Some(packet) if packet.answers() == tag => {
                after_message(tag, place, packet.message(), sent.len() as u64)
            }
            _ => self,
        }
    }

    /// The reply that was awaited, once it was handed over.
    pub fn reply<'a>(self, post: &'a Post) -> Option<&'a Reply>
        ensures { option_copied result ≡ spec.reply_of (packets_of post.now) self }
    {
        let Course::Replied { place } = self else {
            return None;
        };
        match post.sent().get(place)?.message() {
            Message::Answer(reply) => Some(reply),
            Message::Ask(_) => None,
        }
    }
}
