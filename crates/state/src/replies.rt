// Replies: their numbers, whether a call was done, and the reply to a fault.
ghost use Rattle.std.specs.Prelude.{◌≡◌, ◌<◌};
ghost use Rattle.manual.specs.Reply.{number_of, is_done, fault_reply};

use manual::{Fault, Reply};

// The number of a reply.
pub fn number_of(reply: Reply) -> u32
    ensures { (result ≡ number_of reply) × (result < 10) }
{
    reply as u32
}

// Whether the call was done.
pub fn is_done(reply: Reply) -> bool
    ensures { result ≡ is_done reply }
{
    matches!(reply, Reply::Done)
}

// The reply to an access that memory does not take.
pub fn fault_reply(x: Fault) -> Reply
    ensures { result ≡ fault_reply x }
{
    match x {
        Fault::Outside => Reply::NotInside,
    }
}
