//! What holds of every request and reply, whatever is done with it.
ghost use Rattle.std.specs.Prelude.{◌≡◌, Ok};
ghost use Rattle.claim_types.specs.declared.message.Reply.{Reply};
ghost use Rattle.claim_types.specs.declared.message.Request.{Request};
ghost use Rattle.claim_types.specs.Writable.{IsWritableReply, IsWritableRequest};
ghost use Rattle.claim_types.specs.MessageBounds.{IsReply, IsRequest};
ghost use Rattle.message_json.specs.ReplyWriter.{reply_data};
ghost use Rattle.message_json.specs.ReplyReader as reply;
ghost use Rattle.message_json.specs.RequestWriter.{request_data};
ghost use Rattle.message_json.specs.RequestReader as request;

/// A request that was written is read again as the same, and a request within its bounds can be
/// written.
pub fn requests_return()
    ensures same { (asked : Request) → IsRequest asked → request.of_data (request_data asked) ≡ Ok asked }
    ensures writable { (asked : Request) → IsRequest asked → IsWritableRequest asked }
{}

/// A reply that was written is read again as the same, and a reply within its bounds can be
/// written.
pub fn replies_return()
    ensures same { (answer : Reply) → IsReply answer → reply.of_data (reply_data answer) ≡ Ok answer }
    ensures writable { (answer : Reply) → IsReply answer → IsWritableReply answer }
{}
