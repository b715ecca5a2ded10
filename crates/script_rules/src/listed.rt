//! The senders that a line lists.
ghost use Rattle.std.specs.Prelude.{◌≡◌, ◌↔◌, IsTrue, IfErr, IfOk, map};
ghost use Rattle.std.specs.List.{All};
ghost use Rattle.script_words.specs.Sessions.{IsSender, sender_value};
ghost use Rattle.script_rules.specs.Refusals.{OnlyNoMemory};

use crate::sender_lists::sender_values;
use rsvp_base::Sender;
use script_grammar::Stop;
use script_words::SenderWord;
use std::alloc::Global;

/// Whether each of these words is in range. It takes no memory.
pub(crate) fn are_in_range(words: &[SenderWord]) -> bool
    ensures { IsTrue result ↔ All IsSender words.now }
{
    match words {
        [] => true,
        [first, others @ ..] => first.sender().is_some() && are_in_range(others),
    }
}

/// The senders of these words, which are in range.
pub(crate) fn senders_of(alloc: Global, words: &[SenderWord]) -> Result<Vec<Sender>, Stop>
    requires { All IsSender words.now }
    ensures value { IfOk result (λ senders. senders.items ≡ map sender_value words.now) }
    ensures refused { IfErr result OnlyNoMemory }
{
    let Some(senders) = sender_values(alloc, words)? else {
        unreachable!();
    };
    Ok(senders)
}
