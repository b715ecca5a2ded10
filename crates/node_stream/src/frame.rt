//! Frames that come to a router.
ghost use Rattle.std.specs.Prelude.{◌≡◌, ◌≤◌, length, Option, None, Some, IfOk, IfErr, is_some, true, false};
ghost use Rattle.router_rules.specs.NodeConfig.{NodeConfig};
ghost use Rattle.node_stream.specs.Layout.{clears_in, comes_in, datagram_in, frame_of, length_at, opens_in, waits_in};
ghost use Rattle.node_stream.specs.Blames.{IsBlamed};
ghost use Rattle.node_stream.specs.Rules.{IsInTurn};

use crate::blame::Blame;
use crate::layout::is_opening;
use rsvp_base::Addr;
use rsvp_objects::{addr_at, half_at, word_at};

/// What a frame says, but for the lists that stay in its contents.
#[derive(Clone, Copy, Debug, PartialEq, Eq)]
pub enum Frame {
    /// Kind 1: where the router stands. Its interfaces and routes are in the contents.
    Opens,
    /// Kind 2: a datagram comes by an interface, to an address. Its bytes are in the contents, from the sixth on.
    Comes { iface: u8, dst: Addr },
    /// Kind 3: so many milliseconds pass; the random word says when the sessions that come due are due next.
    Waits { ms: u32, word: u32 },
    /// Kind 4: the router forgets all but its local senders and wants.
    Clears,
}

// Bytes before the datagram, and of all contents of a wait.
const COMES_HEAD: usize = 5;

const WAITS_SIZE: usize = 8;

/// How many bytes of contents stand behind a head of three bytes.
pub fn length_at(head: &[u8]) -> usize
    requires { 3 ≤ length head.now }
    ensures is { result ≡ length_at head.now }
    ensures most { result ≤ 65535 }
{
    usize::from(half_at(head, 1))
}

/// The datagram in the contents of a frame of kind 2.
pub fn datagram_in(contents: &[u8]) -> &[u8]
    ensures { result.now ≡ datagram_in contents.now }
{
    if contents.len() < COMES_HEAD {
        return &[];
    }
    &contents[COMES_HEAD..]
}

/// What a frame of this kind and with these contents says, where it may stand behind those before it: `is_open` says whether there
/// are some, so that the router is open. `Err` if and only if it may not; `word` comes before `late`.
pub fn frame_at(is_open: bool, kind: u8, contents: &[u8]) -> Result<Frame, Blame>
    ensures reads { IfOk result (λ f. frame_of kind contents.now ≡ Some f) }
    ensures in_turn { IfOk result (IsInTurn is_open) }
    ensures blamed { (p : Option NodeConfig) → is_some p ≡ is_open → IfErr result (IsBlamed p kind contents.now) }
{
    match frame_of(kind, contents) {
        Some(frame) => in_turn(is_open, kind, contents, frame),
        None => Err(word_blame(kind, contents)),
    }
}

// A frame that may stand there.
#[tactic(auto, using(crate::proofs::Faults::out_of_turn))]
fn in_turn(is_open: bool, kind: u8, contents: &[u8], frame: Frame) -> Result<Frame, Blame>
    requires { frame_of kind contents.now ≡ Some frame }
    ensures reads { IfOk result (λ f. frame_of kind contents.now ≡ Some f) }
    ensures in_turn { IfOk result (IsInTurn is_open) }
    ensures blamed { (p : Option NodeConfig) → is_some p ≡ is_open → IfErr result (IsBlamed p kind contents.now) }
{
    if may_stand(is_open, frame) {
        return Ok(frame);
    }
    if is_open {
        Err(Blame::Again)
    } else {
        Err(Blame::Early { kind })
    }
}

// Whether a frame may stand there.
fn may_stand(is_open: bool, frame: Frame) -> bool
    ensures yes { result ≡ true → IsInTurn is_open frame }
    ensures no { result ≡ false → IsInTurn is_open frame → ⊥ }
{
    match frame {
        Frame::Opens => !is_open,
        Frame::Comes { .. } => is_open,
        Frame::Waits { .. } => is_open,
        Frame::Clears => is_open,
    }
}

// What a frame says.
fn frame_of(kind: u8, contents: &[u8]) -> Option<Frame>
    ensures { result ≡ frame_of kind contents.now }
{
    match kind {
        1 => opens_in(contents),
        2 => comes_in(contents),
        3 => waits_in(contents),
        4 => clears_in(contents),
        _ => None,
    }
}

fn opens_in(contents: &[u8]) -> Option<Frame>
    ensures { result ≡ opens_in contents.now }
{
    if is_opening(contents) {
        Some(Frame::Opens)
    } else {
        None
    }
}

fn comes_in(contents: &[u8]) -> Option<Frame>
    ensures { result ≡ comes_in contents.now }
{
    if contents.len() < COMES_HEAD {
        return None;
    }
    Some(Frame::Comes {
        iface: contents[0],
        dst: addr_at(contents, 1),
    })
}

fn waits_in(contents: &[u8]) -> Option<Frame>
    ensures { result ≡ waits_in contents.now }
{
    if contents.len() != WAITS_SIZE {
        return None;
    }
    Some(Frame::Waits {
        ms: word_at(contents, 0),
        word: word_at(contents, 4),
    })
}

fn clears_in(contents: &[u8]) -> Option<Frame>
    ensures { result ≡ clears_in contents.now }
{
    if contents.is_empty() {
        Some(Frame::Clears)
    } else {
        None
    }
}

// What is to blame where a frame says nothing.
fn word_blame(kind: u8, contents: &[u8]) -> Blame
    requires { frame_of kind contents.now ≡ None }
    ensures { (p : Option NodeConfig) → IsBlamed p kind contents.now result }
{
    match kind {
        1..=4 => Blame::Length {
            kind,
            size: contents.len(),
        },
        _ => Blame::Kind { kind },
    }
}
