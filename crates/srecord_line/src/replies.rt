// The replies to texts and ranges.
ghost use Rattle.std.specs.Prelude.{◌≡◌};
ghost use Rattle.srecord.specs.Reading.{text_done};
ghost use Rattle.srecord.specs.TextCalls.{text_number};
ghost use Rattle.srecord_line.specs.Lines.{reply_of};

use super::LineError;
use srecord::TextReply;

// The reply to a text with a wrong line.
impl From<LineError> for TextReply {
    ghost from_gives = { λ e reply. reply ≡ reply_of e };

    fn from(e: LineError) -> TextReply {
        match e {
            LineError::Malformed => TextReply::Malformed,
            LineError::WrongSum => TextReply::WrongSum,
        }
    }
}

// The number of a reply.
pub fn text_number(reply: TextReply) -> u32
    ensures { result ≡ text_number reply }
{
    reply as u32
}

// Whether the text was read, or the range written.
pub fn text_done(reply: TextReply) -> bool
    ensures { result ≡ text_done reply }
{
    matches!(reply, TextReply::Done)
}
