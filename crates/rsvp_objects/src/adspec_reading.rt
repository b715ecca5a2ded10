//! Reading ADSPECs.
ghost use Rattle.std.specs.Prelude.{◌≡◌, ◌+◌, ◌≤◌, ◌&&◌, ◌==◌, length};
ghost use Rattle.rsvp_objects.specs.Fields.{byte_at, half_at};
ghost use Rattle.rsvp_objects.specs.Form.{has_general_part, values_in, adspec_in};

use crate::adspec::Adspec;
use crate::fields::{half_at, peak_at, word_at};
use crate::walk::fragments;
use crate::words::is_broken;
use crate::{part_places, part_values};

/// The ADSPEC that the contents of an object say, which stand behind its head of four bytes (RFC 2210, 3.3).
///
/// `None` exactly where they are not of the form: the general part with its four parameters, of which the bandwidth is a
/// rate or infinite, and whole fragments behind it, one of controlled load at most and at most 24 words of others.
#[tactic(auto, unfolding(crate::specs::Form::adspec_in))]
pub fn read_adspec(contents: &[u8]) -> Option<Adspec>
    ensures { result ≡ adspec_in contents.now }
{
    if contents.len() < part_places::FRAGMENTS || !has_general_part(contents) {
        return None;
    }
    values_of(contents)
}

// Whether the first words of the general part and of its parameters are right.
fn has_general_part(body: &[u8]) -> bool
    requires { 40 ≤ length body.now }
    ensures { result ≡ has_general_part body.now }
{
    body[part_places::VERSION] / 16 == part_values::VERSION
        && 4 + 4 * usize::from(half_at(body, part_places::WORDS_BEHIND_VERSION)) == body.len()
        && body[part_places::SERVICE] == part_values::service::GENERAL
        && half_at(body, part_places::WORDS_BEHIND_SERVICE) == part_values::service::BEHIND_GENERAL
        && has_parameter(body, part_places::HOPS, part_values::parameter::HOPS)
        && has_parameter(body, part_places::RATE, part_values::parameter::RATE)
        && has_parameter(body, part_places::LATENCY, part_values::parameter::LATENCY)
        && has_parameter(body, part_places::MTU, part_values::parameter::MTU)
}

// Whether the parameter with a number, of one word, stands at a place.
fn has_parameter(body: &[u8], place: usize, number: u8) -> bool
    requires { place + 4 ≤ length body.now }
    ensures { result ≡ (byte_at place body.now == number && half_at (place + 2) body.now == 1) }
{
    body[place] == number
        && half_at(body, place + part_places::WORDS_BEHIND_PARAMETER)
            == part_values::parameter::WORDS
}

// The values of the parameters, and the fragments.
#[tactic(auto, unfolding(crate::specs::Form::values_in))]
fn values_of(body: &[u8]) -> Option<Adspec>
    requires { 40 ≤ length body.now }
    ensures { result ≡ values_in body.now }
{
    let rate = peak_at(body, part_places::RATE + part_places::VALUE)?;
    let (load, others) = fragments(&body[part_places::FRAGMENTS..])?;
    Some(Adspec {
        broken: is_broken(word_at(body, part_places::SERVICE)),
        hops: word_at(body, part_places::HOPS + part_places::VALUE),
        rate,
        latency: word_at(body, part_places::LATENCY + part_places::VALUE),
        mtu: word_at(body, part_places::MTU + part_places::VALUE),
        load,
        others,
    })
}
