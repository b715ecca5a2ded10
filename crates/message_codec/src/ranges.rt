//! What the types of code know of a message.
ghost use Rattle.std.specs.Prelude.{◌≡◌, true};
ghost use Rattle.message_codec.specs.Written.{is_in_range};

use crate::fields::know_fields;
use crate::lengths::know_lengths;
use rsvp_messages::Message;

/// Each number of a message has room in its field, its flows are sound, with rates that have words, and its lists are short.
pub fn know_range(message: &Message)
    ensures { is_in_range message.now ≡ true }
{
    know_fields(message);
    know_lengths(message);
}
