//! Which part of a rule a line breaks.
ghost use Rattle.std.specs.Prelude.{◌≡◌, ◌↔◌, ◌<◌, IfSome, IsTrue, Some, length, map, nat_le};
ghost use Rattle.script_words.specs.Sessions.{session_value};
ghost use Rattle.std.specs.List.{list_any};
ghost use Rattle.std.specs.Str.{bytes_eq};
ghost use Rattle.script_grammar.specs.Breaks.{HasRoomForWord, IsFirstLinked, HasRoomForLine, IsLimit, IsOtherStyle, has_twice, limit_by_words, limit_of_list, limit_of_style, listed};
ghost use Rattle.script_grammar.specs.Breaks.{names_session, new_of_list, new_rule, standing_style, word_behind};

use crate::kind::Kind;
use crate::known::{LinesBefore, is_known};
use crate::named::Named;
use crate::rule::Rule;
use rsvp_base::StyleKind;
use script_words::{SessionWord, first_part};

const MOST_SENDERS: usize = 16;

/// The word at this place behind the first; nothing, where there is none.
pub fn word_behind<'a>(behind: &[&'a [u8]], place: usize) -> &'a [u8]
    ensures { result.now ≡ word_behind (map (λ w. w.now) behind.now) place }
{
    match behind.get(place) {
        Some(word) => word,
        None => b"",
    }
}

// Whether one of the parts of this list is this one.
fn has_part(list: &[u8], part: &[u8]) -> bool
    ensures { result ≡ list_any (bytes_eq part.now) (listed list.now) }
{
    match first_part(list, b',') {
        None => *part == *list,
        Some((first, behind)) => *part == *first || has_part(behind, part),
    }
}

// Whether a part of this list stands twice.
fn has_twice(list: &[u8]) -> bool
    ensures { result ≡ has_twice (listed list.now) }
{
    match first_part(list, b',') {
        None => false,
        Some((first, behind)) => has_part(behind, first) || has_twice(behind),
    }
}

// Whether this list has at most so many parts.
fn has_few(list: &[u8], most: usize) -> bool
    ensures { result ≡ nat_le (length (listed list.now)) most }
{
    match first_part(list, b',') {
        None => most > 0,
        Some((_, behind)) => most > 0 && has_few(behind, most - 1),
    }
}

fn new_of_list(senders: &[u8]) -> Rule
    ensures { result ≡ new_of_list senders.now }
{
    if has_twice(senders) {
        return Rule::NewSender;
    }
    Rule::New
}

/// What of a line that adds what is there already is there. `None` exactly for a link, of which one end is.
pub fn new_rule<B: LinesBefore>(before: &B, kind: Kind, behind: &[&[u8]]) -> Option<Rule>
    ensures { result ≡ new_rule (B.lines before.now) kind (map (λ w. w.now) behind.now) }
{
    match kind {
        Kind::End => {
            if is_known(before, Some(Named::End), word_behind(behind, 0)) {
                return Some(Rule::NewName);
            }
            Some(Rule::NewAddress)
        }
        Kind::Link => None,
        Kind::StaleResv => Some(new_of_list(word_behind(behind, 4))),
        Kind::WildResv => Some(new_of_list(word_behind(behind, 4))),
        _ => Some(Rule::New),
    }
}

/// The place of the first of these ends that is in a link. `None` exactly where there is none.
pub fn first_linked<B: LinesBefore>(before: &B, names: &[&[u8]]) -> Option<usize>
    ensures first { IsFirstLinked (B.lines before.now) (map (λ w. w.now) names.now) result }
    ensures within { IfSome result (λ place. place < length names.now) }
{
    let mut place: usize = 0;
    let mut rest = names;
    while let [name, behind @ ..] = rest {
        if before.is_linked(name) {
            return Some(place);
        }
        place += 1;
        rest = behind;
    }
    None
}

fn limit_of_list(senders: &[u8]) -> Rule
    ensures { result ≡ limit_of_list senders.now }
{
    if has_few(senders, MOST_SENDERS) {
        return Rule::WithinLimits;
    }
    Rule::FewSenders
}

fn limit_of_style(style: &[u8], senders: &[u8]) -> Rule
    ensures { result ≡ limit_of_style style.now senders.now }
{
    if *style == *b"FF".as_slice() {
        if has_few(senders, 1) {
            return Rule::WithinLimits;
        }
        return Rule::OneSender;
    }
    limit_of_list(senders)
}

fn limit_by_words(kind: Kind, behind: &[&[u8]]) -> Rule
    ensures { result ≡ limit_by_words kind (map (λ w. w.now) behind.now) }
{
    match kind {
        Kind::StaleResv => limit_of_style(word_behind(behind, 2), word_behind(behind, 4)),
        Kind::WildResv => limit_of_list(word_behind(behind, 4)),
        Kind::Want => limit_of_list(word_behind(behind, 3)),
        _ => Rule::WithinLimits,
    }
}

// Whether lines of this kind name a session.
fn names_session(kind: Kind) -> bool
    ensures { result ≡ names_session kind }
{
    match kind {
        Kind::StalePath => true,
        Kind::StaleResv => true,
        Kind::WildResv => true,
        Kind::HopBlockade => true,
        Kind::SenderBlockade => true,
        Kind::Send => true,
        Kind::Want => true,
        Kind::WildWant => true,
        _ => false,
    }
}

// Whether the session of this word is one of those that are named, or there is room for one more.
fn has_room_for_word<B: LinesBefore>(before: &B, word: &[u8]) -> bool
    ensures { IsTrue result ↔ HasRoomForWord (B.lines before.now) word.now }
{
    match SessionWord::of(word) {
        Some(session) => match session.session() {
            Some(session) => before.has_room_for_session(session),
            None => true,
        },
        None => true,
    }
}

// Whether there is room for the session of a line, if it names one.
fn has_room_for_line<B: LinesBefore>(before: &B, kind: Kind, behind: &[&[u8]]) -> bool
    ensures { IsTrue result ↔ HasRoomForLine (B.lines before.now) kind (map (λ w. w.now) behind.now) }
{
    if !names_session(kind) {
        return true;
    }
    has_room_for_word(before, word_behind(behind, 1))
}

/// The limit that a line passes.
pub fn limit<B: LinesBefore>(before: &B, kind: Kind, behind: &[&[u8]]) -> Rule
    ensures { IsLimit (B.lines before.now) kind (map (λ w. w.now) behind.now) result }
{
    if !has_room_for_line(before, kind, behind) {
        return Rule::FewSessions;
    }
    limit_by_words(kind, behind)
}

/// The style that stands where a line asks for another. `None`: there is none, or memory ran out.
pub fn other_style<B: LinesBefore>(before: &B, behind: &[&[u8]]) -> Option<StyleKind>
    ensures { IfSome result (IsOtherStyle (B.lines before.now) (map (λ w. w.now) behind.now)) }
{
    let session = SessionWord::of(word_behind(behind, 1))?;
    let style = style_at(before, word_behind(behind, 0), session)?;
    Some(style)
}

// The style of the wishes that stand in a session at a node. `None`: there is none, or memory ran out.
fn style_at<B: LinesBefore>(before: &B, node: &[u8], session: SessionWord) -> Option<StyleKind>
    ensures { IfSome result (λ style. standing_style (B.lines before.now) node.now (session_value session) ≡ Some style) }
{
    let session = session.session()?;
    match before.standing_style(node, session) {
        Ok(found) => found,
        Err(_) => None,
    }
}
