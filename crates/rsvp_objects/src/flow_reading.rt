//! Reading the words of flows.
ghost use Rattle.std.specs.Prelude.{◌≡◌, ◌≤◌, ◌+◌, length};
ghost use Rattle.rsvp_objects.specs.FlowWords.{rate_at, has_heads, bucket_in, flow_in};

use crate::fields::{half_at, peak_at, word_at};
use crate::{places, values};
use rsvp_base::{Flow, Peak, Rate};

/// The flow that the contents of a FLOWSPEC or SENDER_TSPEC of a service say. `None` where they are not the eight words.
#[tactic(auto, unfolding(crate::specs::FlowWords::flow_in))]
#[inline(always)]
pub fn flow(body: &[u8], service: u8) -> Option<Flow>
    ensures { result ≡ flow_in service body.now }
{
    if body.len() != places::flow::SIZE || !has_heads(body, service) {
        return None;
    }
    bucket(body)
}

// Whether the first three words are right.
#[inline(always)]
fn has_heads(body: &[u8], service: u8) -> bool
    requires { length body.now ≡ 32 }
    ensures { result ≡ has_heads service body.now }
{
    body[places::flow::VERSION] / 16 == values::flow::VERSION
        && half_at(body, places::flow::WORDS_BEHIND_VERSION) == values::flow::BEHIND_VERSION
        && body[places::flow::SERVICE] == service
        && half_at(body, places::flow::WORDS_BEHIND_SERVICE) == values::flow::BEHIND_SERVICE
        && body[places::flow::PARAMETER] == values::flow::TOKEN_BUCKET
        && half_at(body, places::flow::WORDS_BEHIND_PARAMETER) == values::flow::BEHIND_PARAMETER
}

// The flow in the other five.
#[tactic(auto, unfolding(crate::specs::FlowWords::bucket_in))]
#[inline(always)]
fn bucket(body: &[u8]) -> Option<Flow>
    requires { length body.now ≡ 32 }
    ensures { result ≡ bucket_in body.now }
{
    let r = rate_at(body, places::flow::R)?;
    let b = rate_at(body, places::flow::B)?;
    let p = peak_at(body, places::flow::P)?;
    let low = word_at(body, places::flow::LOW);
    let most = word_at(body, places::flow::MOST);
    Flow::new(r, b, p, low, most)
}

// The rate of the word at a place, if it is finite.
#[inline(always)]
fn rate_at(body: &[u8], place: usize) -> Option<Rate>
    requires { place + 4 ≤ length body.now }
    ensures { result ≡ rate_at place body.now }
{
    match peak_at(body, place)? {
        Peak::Finite(rate) => Some(rate),
        Peak::Infinite => None,
    }
}
