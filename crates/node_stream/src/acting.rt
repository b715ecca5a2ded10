//! A router does what a frame says.
ghost use Rattle.std.specs.Prelude.{◌≡◌, ◌≤◌, ◌<◌, ◌+◌, ◌*◌, [], ℕ, length, true, None, Some, IfOk, IfErr, OnOk};
ghost use Rattle.laws_bounds.specs.CountLaws.{most_sends};
ghost use Rattle.node_stream.specs.Layout as layout;
ghost use Rattle.node_stream.specs.Blames.{IsOpenBlame};
ghost use Rattle.node_stream.specs.Rules.{IsInRange, IsInTurn, IsPlace, place_in};
ghost use Rattle.router_rules.specs.Facts.{no_facts};
ghost use Rattle.router_rules.specs.Inputs.{Came, Clear, Spelt, Unspelt, Wait};
ghost use Rattle.router_rules.specs.Rule.{heard_after};
ghost use Rattle.rsvp_messages.specs.Proper.{IsProper};
ghost use Rattle.node_stream.specs.Frames.{IsFrame, contents_in, kind_in};
ghost use Rattle.node_stream.specs.Posting.{nothing_posted};
ghost use Rattle.node_stream.specs.Serving.{IsHeard};
ghost use Rattle.node_stream.specs.Stops.{IsStopped, IsUnopened};
ghost use Rattle.node_stream.specs.States.{AreLimits, HasAnswered, HasDone, IsMeasured, IsServedAs, IsServedBy, IsSound, IsTakenIn, IsWithin, stand, stands_at};

use crate::blame::Blame;
use crate::frame::{Frame, datagram_in, frame_at};
use crate::placing::{PlaceErr, read_place};
use crate::posting::Answers;
use crate::range::fault_of;
use crate::reading::HEAD;
use crate::serves::Serves;
use crate::state::{Limits, Stop};
use message_codec::{decode, know_range};
use router_rules::Heard;
use rsvp_base::Addr;
use rsvp_messages::{Message, MsgErr};
use std::alloc::Global;

/// Serves a frame: the first opens the router, and each other comes to it. What it sends, and then what it made of a datagram, is put in
/// `out`, where nothing stands.
///
/// `Bad`: the frame breaks a rule. `NoMemory`: there was no memory for the router that it opens.
pub(crate) fn serve_frame<R: Serves>(
    alloc: Global,
    router: &mut Option<R>,
    limits: &mut Limits,
    frame: &[u8],
    out: &mut Answers,
) -> Result<(), Stop>
    requires whole { IsFrame frame.now }
    requires measured { IsMeasured (stand R.seen router.old 0) limits.old }
    requires empty { out.old ≡ nothing_posted }
    ensures served { (c : ℕ) → IsSound (stand R.seen router.old c) limits.old → OnOk result (IsServedBy R.seen router.old router.new limits.new c frame.now out.new) }
    ensures stopped { (c : ℕ) → IfErr result (IsStopped (stand R.seen router.old c) (kind_in frame.now) (contents_in frame.now)) }
{
    serve_contents(
        alloc,
        router,
        limits,
        kind_of(frame),
        contents_of(frame),
        out,
    )
}

fn kind_of(frame: &[u8]) -> u8
    requires { 3 ≤ length frame.now }
    ensures { result ≡ kind_in frame.now }
{
    frame[0]
}

fn contents_of(frame: &[u8]) -> &[u8]
    requires { 3 ≤ length frame.now }
    ensures { result.now ≡ contents_in frame.now }
{
    &frame[HEAD..]
}

// The same of its kind and contents.
fn serve_contents<R: Serves>(
    alloc: Global,
    router: &mut Option<R>,
    limits: &mut Limits,
    kind: u8,
    contents: &[u8],
    out: &mut Answers,
) -> Result<(), Stop>
    requires measured { IsMeasured (stand R.seen router.old 0) limits.old }
    requires empty { out.old ≡ nothing_posted }
    ensures served { (c : ℕ) → IsSound (stand R.seen router.old c) limits.old → OnOk result (IsServedAs R.seen router.old router.new limits.new c kind contents.now out.new) }
    ensures stopped { (c : ℕ) → IfErr result (IsStopped (stand R.seen router.old c) kind contents.now) }
{
    match router {
        Some(standing) => serve_open(standing, *limits, kind, contents, out),
        None => open_into::<R>(alloc, router, limits, kind, contents),
    }
}

// Opens the router. It stays out of line, since a loop over frames would clear its room, which is that of a router, at each of them.
#[cold]
#[inline(never)]
fn open_into<R: Serves>(
    alloc: Global,
    router: &mut Option<R>,
    limits: &mut Limits,
    kind: u8,
    contents: &[u8],
) -> Result<(), Stop>
    ensures opened { (c : ℕ) → OnOk result (IsServedAs R.seen None router.new limits.new c kind contents.now nothing_posted) }
    ensures stopped { IfErr result (IsStopped None kind contents.now) }
{
    let (opened, its) = open_by::<R>(alloc, kind, contents)?;
    *router = Some(opened);
    *limits = its;
    Ok(())
}

// A router without facts, where the frame that opens it says, and what the frames behind it are measured by.
fn open_by<R: Serves>(alloc: Global, kind: u8, contents: &[u8]) -> Result<(R, Limits), Stop>
    ensures opened { (c : ℕ) → IfOk result (λ p. IsServedAs R.seen None (Some p.0) p.1 c kind contents.now nothing_posted) }
    ensures stopped { IfErr result (IsStopped None kind contents.now) }
{
    match frame_at(false, kind, contents) {
        Ok(_) => open::<R>(alloc, contents),
        Err(blame) => Err(Stop::Bad(blame)),
    }
}

// The same of its contents.
#[tactic(auto, using(crate::proofs::Opening::unopened, crate::proofs::Opening::unopened_there))]
fn open<R: Serves>(alloc: Global, contents: &[u8]) -> Result<(R, Limits), Stop>
    requires { layout.HasForm contents.now }
    ensures range { IfOk result (λ p. IsPlace contents.now) }
    ensures place { IfOk result (λ p. R.seen.place p.0 ≡ place_in contents.now) }
    ensures first { IfOk result (λ p. (c : ℕ) → R.seen.facts p.0 c ≡ no_facts) }
    ensures limits { IfOk result (λ p. AreLimits (R.seen.place p.0) p.1) }
    ensures bad { IfErr result (IsUnopened contents.now) }
{
    let place = read_place(alloc, contents)?;
    let limits = Limits {
        ifaces: place.ifaces.len(),
        quarter: place.quarter,
    };
    let router = R::open_alone(alloc, place)?;
    Ok((router, limits))
}

// A frame comes to an open router.
fn serve_open<R: Serves>(
    router: &mut R,
    limits: Limits,
    kind: u8,
    contents: &[u8],
    out: &mut Answers,
) -> Result<(), Stop>
    requires limits { AreLimits (R.seen.place router.old) limits }
    requires empty { out.old ≡ nothing_posted }
    ensures served { (c : ℕ) → IsWithin (stands_at R.seen router.old c) → OnOk result (IsServedAs R.seen (Some router.old) (Some router.new) limits c kind contents.now out.new) }
    ensures stopped { (c : ℕ) → IfErr result (IsStopped (Some (stands_at R.seen router.old c)) kind contents.now) }
{
    let said = match frame_at(true, kind, contents) {
        Ok(said) => said,
        Err(blame) => return Err(Stop::Bad(blame)),
    };
    match act(router, limits, said, contents, out) {
        Ok(()) => Ok(()),
        Err(blame) => Err(Stop::Bad(blame)),
    }
}

// An open router does what a frame says, which is in turn.
fn act<R: Serves>(
    router: &mut R,
    limits: Limits,
    said: Frame,
    contents: &[u8],
    out: &mut Answers,
) -> Result<(), Blame>
    requires turn { IsInTurn true said }
    requires limits { AreLimits (R.seen.place router.old) limits }
    requires empty { out.old ≡ nothing_posted }
    ensures place { R.seen.place router.new ≡ R.seen.place router.old }
    ensures in_range { OnOk result (IsInRange (Some (R.seen.place router.old)) contents.now said) }
    ensures answered { (c : ℕ) → IsWithin (stands_at R.seen router.old c) → OnOk result (HasAnswered R.seen router.old router.new c contents.now said out.new) }
    ensures blamed { IfErr result (IsOpenBlame (R.seen.place router.old) said) }
{
    match fault_of(said, limits.ifaces, limits.quarter) {
        Some(blame) => return Err(blame),
        None => {}
    }
    match said {
        Frame::Opens => {}
        Frame::Comes { iface, dst } => come(router, limits, iface, dst, datagram_in(contents), out),
        Frame::Waits { ms, word } => wait(router, limits, ms, word, out),
        Frame::Clears => clear(router, limits, out),
    }
    Ok(())
}

// A datagram comes.
fn come<R: Serves>(
    router: &mut R,
    limits: Limits,
    iface: u8,
    dst: Addr,
    datagram: &[u8],
    out: &mut Answers,
)
    requires iface { iface < length (R.seen.place router.old).ifaces }
    requires limits { AreLimits (R.seen.place router.old) limits }
    requires empty { out.old ≡ nothing_posted }
    ensures place { R.seen.place router.new ≡ R.seen.place router.old }
    ensures heard { (c : ℕ) → IsWithin (stands_at R.seen router.old c) → IsHeard (stands_at R.seen router.old c) iface dst datagram.now (stands_at R.seen router.new c) out.new.bytes }
    ensures within { (c : ℕ) → IsWithin (stands_at R.seen router.old c) → IsWithin (stands_at R.seen router.new c) }
{
    let heard = take_in(router, limits, iface, dst, datagram, out);
    out.put_heard(heard);
}

// The router takes in the bytes of a datagram.
fn take_in<R: Serves>(
    router: &mut R,
    limits: Limits,
    iface: u8,
    dst: Addr,
    datagram: &[u8],
    out: &mut Answers,
) -> Heard
    requires iface { iface < length (R.seen.place router.old).ifaces }
    requires limits { AreLimits (R.seen.place router.old) limits }
    requires empty { out.old ≡ nothing_posted }
    ensures place { R.seen.place router.new ≡ R.seen.place router.old }
    ensures few { out.new.count ≤ most_sends }
    ensures taken { IsTakenIn R.seen router.old router.new iface dst datagram.now result out.new }
{
    let read = decode(datagram);
    match &read {
        Ok(message) => arrive(router, limits, iface, dst, message, out),
        Err(fault) => arrive_unspelt(router, limits, iface, dst, fault, out),
    }
}

// A message comes.
fn arrive<R: Serves>(
    router: &mut R,
    limits: Limits,
    iface: u8,
    dst: Addr,
    message: &Message,
    out: &mut Answers,
) -> Heard
    requires iface { iface < length (R.seen.place router.old).ifaces }
    requires proper { IsProper message.now }
    requires limits { AreLimits (R.seen.place router.old) limits }
    requires empty { out.old ≡ nothing_posted }
    ensures place { R.seen.place router.new ≡ R.seen.place router.old }
    ensures few { out.new.count ≤ most_sends }
    ensures done { (c : ℕ) → IsWithin (stands_at R.seen router.old c) → HasDone (stands_at R.seen router.old c) (Came iface dst (Spelt message.now)) (stands_at R.seen router.new c) out.new }
    ensures heard { (c : ℕ) → result ≡ heard_after (R.seen.place router.old) c iface dst (Spelt message.now) (R.seen.facts router.old c) }
{
    // The proof sees here that the lists of the message are short.
    know_range(message);
    router.arrive(iface, dst, message, out)
}

// Bytes come that spell no message.
fn arrive_unspelt<R: Serves>(
    router: &mut R,
    limits: Limits,
    iface: u8,
    dst: Addr,
    fault: &MsgErr,
    out: &mut Answers,
) -> Heard
    requires iface { iface < length (R.seen.place router.old).ifaces }
    requires limits { AreLimits (R.seen.place router.old) limits }
    requires empty { out.old ≡ nothing_posted }
    ensures place { R.seen.place router.new ≡ R.seen.place router.old }
    ensures few { out.new.count ≤ most_sends }
    ensures done { (c : ℕ) → IsWithin (stands_at R.seen router.old c) → HasDone (stands_at R.seen router.old c) (Came iface dst (Unspelt fault.now)) (stands_at R.seen router.new c) out.new }
    ensures heard { (c : ℕ) → result ≡ heard_after (R.seen.place router.old) c iface dst (Unspelt fault.now) (R.seen.facts router.old c) }
{
    router.arrive_unspelt(iface, dst, fault, out)
}

// Time passes.
fn wait<R: Serves>(router: &mut R, limits: Limits, ms: u32, word: u32, out: &mut Answers)
    requires short { ms ≤ 2 * (R.seen.place router.old).quarter }
    requires limits { AreLimits (R.seen.place router.old) limits }
    requires empty { out.old ≡ nothing_posted }
    ensures place { R.seen.place router.new ≡ R.seen.place router.old }
    ensures done { (c : ℕ) → IsWithin (stands_at R.seen router.old c) → HasDone (stands_at R.seen router.old c) (Wait ms word) (stands_at R.seen router.new (c + ms)) out.new }
{
    router.wait(ms, word, out);
}

// The router is cleared.
fn clear<R: Serves>(router: &mut R, limits: Limits, out: &mut Answers)
    requires limits { AreLimits (R.seen.place router.old) limits }
    requires empty { out.old ≡ nothing_posted }
    ensures place { R.seen.place router.new ≡ R.seen.place router.old }
    ensures done { (c : ℕ) → IsWithin (stands_at R.seen router.old c) → HasDone (stands_at R.seen router.old c) Clear (stands_at R.seen router.new c) out.new }
{
    router.clear();
}
