//! The words of an ADSPEC.
ghost use Rattle.std.specs.Prelude.{◌≡◌, ◌++◌, OnOk, ◌≤◌, ◌<◌, length, OnErr, vec_capacity};
ghost use Rattle.std.specs.Io.{StartsWith};
ghost use Rattle.value_texts.specs.Texts.{peak_text};
ghost use Rattle.value_texts.specs.AdspecText.{adspec_words, broken_text, load_text, packet_text, rate_text};

use crate::texts::{put, put_number};
use rsvp_base::{NoMemory, Peak};
use rsvp_objects::Adspec;

/// Appends the words of an ADSPEC. They are as ` hops 1 rate 10000 latency 100 mtu 1500 cl ok`: the bandwidth in bytes
/// per second, the latency in microseconds, the MTU in bytes. `NoMemory`: there was no memory for the text.
#[tactic(auto, unfolding(crate::specs::AdspecText::adspec_words))]
pub fn put_adspec_words(out: &mut Vec<u8>, adspec: &Adspec) -> Result<(), NoMemory>
    ensures text { OnOk result (out.new.items ≡ out.old.items ++ adspec_words adspec.now) }
    ensures front { OnErr result (StartsWith out.new.items out.old.items) }
    ensures full { OnErr result (vec_capacity out.old < length (out.old.items ++ adspec_words adspec.now)) }
    ensures kept { vec_capacity out.old ≤ vec_capacity out.new }
{
    put_rate_words(out, adspec)?;
    put_packet(out, adspec)?;
    put_broken(out, adspec.broken)?;
    put_load(out, adspec.load)
}

#[tactic(auto, unfolding(crate::specs::AdspecText::rate_text))]
fn put_rate_words(out: &mut Vec<u8>, adspec: &Adspec) -> Result<(), NoMemory>
    ensures text { OnOk result (out.new.items ≡ out.old.items ++ rate_text adspec.now) }
    ensures front { OnErr result (StartsWith out.new.items out.old.items) }
    ensures full { OnErr result (vec_capacity out.old < length (out.old.items ++ rate_text adspec.now)) }
    ensures kept { vec_capacity out.old ≤ vec_capacity out.new }
{
    put(out, b" hops ")?;
    put_number(out, u64::from(adspec.hops))?;
    put(out, b" rate ")?;
    put_rate(out, adspec.rate)
}

#[tactic(auto, unfolding(crate::specs::AdspecText::packet_text))]
fn put_packet(out: &mut Vec<u8>, adspec: &Adspec) -> Result<(), NoMemory>
    ensures text { OnOk result (out.new.items ≡ out.old.items ++ packet_text adspec.now) }
    ensures front { OnErr result (StartsWith out.new.items out.old.items) }
    ensures full { OnErr result (vec_capacity out.old < length (out.old.items ++ packet_text adspec.now)) }
    ensures kept { vec_capacity out.old ≤ vec_capacity out.new }
{
    put(out, b" latency ")?;
    put_number(out, u64::from(adspec.latency))?;
    put(out, b" mtu ")?;
    put_number(out, u64::from(adspec.mtu))
}

fn put_rate(out: &mut Vec<u8>, rate: Peak) -> Result<(), NoMemory>
    ensures text { OnOk result (out.new.items ≡ out.old.items ++ peak_text rate) }
    ensures front { OnErr result (StartsWith out.new.items out.old.items) }
    ensures full { OnErr result (vec_capacity out.old < length (out.old.items ++ peak_text rate)) }
    ensures kept { vec_capacity out.old ≤ vec_capacity out.new }
{
    match rate {
        Peak::Infinite => put(out, b"inf"),
        Peak::Finite(rate) => put_number(out, rate.value()),
    }
}

fn put_load(out: &mut Vec<u8>, load: Option<bool>) -> Result<(), NoMemory>
    ensures text { OnOk result (out.new.items ≡ out.old.items ++ load_text load) }
    ensures front { OnErr result (StartsWith out.new.items out.old.items) }
    ensures full { OnErr result (vec_capacity out.old < length (out.old.items ++ load_text load)) }
    ensures kept { vec_capacity out.old ≤ vec_capacity out.new }
{
    match load {
        None => Ok(()),
        Some(true) => put(out, b" cl broken"),
        Some(false) => put(out, b" cl ok"),
    }
}

fn put_broken(out: &mut Vec<u8>, broken: bool) -> Result<(), NoMemory>
    ensures text { OnOk result (out.new.items ≡ out.old.items ++ broken_text broken) }
    ensures front { OnErr result (StartsWith out.new.items out.old.items) }
    ensures full { OnErr result (vec_capacity out.old < length (out.old.items ++ broken_text broken)) }
    ensures kept { vec_capacity out.old ≤ vec_capacity out.new }
{
    if broken {
        return put(out, b" broken");
    }
    Ok(())
}
