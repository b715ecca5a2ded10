//! The senders that a line lists.
ghost use Rattle.std.specs.Prelude.{◌≡◌, ◌↔◌, IsTrue, IsSome, IfOk, IfSome, IfErr, map};
ghost use Rattle.std.specs.List.{All};
ghost use Rattle.script_grammar.specs.Rules.{AreDistinct};
ghost use Rattle.script_words.specs.Sessions.{IsSender, sender_value};

use rsvp_base::Sender;
use script_grammar::Stop;
use script_words::SenderWord;
use std::alloc::Global;

/// The senders of these words; none where one is out of range.
pub fn sender_values(alloc: Global, words: &[SenderWord]) -> Result<Option<Vec<Sender>>, Stop>
    ensures some { IfOk result (λ found. IsSome found ↔ All IsSender words.now) }
    ensures value { IfOk result (λ found. IfSome found (λ v. v.items ≡ map sender_value words.now)) }
    ensures refused { IfErr result (λ e. e ≡ Stop.NoMemory) }
{
    let mut senders = Vec::new(alloc);
    for word in words {
        let Some(sender) = word.sender() else {
            return Ok(None);
        };
        senders.push(sender)?;
    }
    Ok(Some(senders))
}

/// Whether no sender stands twice.
pub fn are_distinct(senders: &[Sender]) -> bool
    ensures { IsTrue result ↔ AreDistinct senders.now }
{
    match senders {
        [] => true,
        [first, others @ ..] => !others.contains(first) && are_distinct(others),
    }
}
