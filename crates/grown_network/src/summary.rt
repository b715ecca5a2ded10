//! Summaries and their texts.
ghost use Rattle.std.specs.Prelude.{◌≡◌, ◌++◌, OnOk};
ghost use Rattle.std.specs.Fmt.{decimal};
ghost use Rattle.network_model.specs.DemandTexts.{yes_or_no};
ghost use Rattle.grown_network.specs.Texts.{booked_line, counts_text, equal_line, network_line, rounds_line, seed_line, summary_text};

use itoa::Buffer;
use rsvp_base::NoMemory;
use value_texts::{put, put_number};

/// What the ends of a network hold.
#[derive(Clone, Copy)]
pub struct Booked {
    /// How many ends have an entry.
    pub ends: u64,
    /// How many entries all ends have.
    pub entries: u64,
    /// What these charge together, in bytes per second.
    pub held: u128,
}

/// What is told of the run of a network that a seed grows.
#[derive(Clone, Copy)]
pub struct Summary {
    pub seed: u64,
    /// How many nodes the network has.
    pub nodes: u16,
    /// How many hops its trees have together.
    pub hops: u64,
    /// The length of its longest chain of hops.
    pub longest: u32,
    /// How many rounds were run.
    pub rounds: u32,
    /// How many datagrams were delivered, or 2^64 - 1 where it is more.
    pub delivered: u64,
    /// What its ends hold at the end.
    pub booked: Booked,
    /// Whether the report at the end is the demand.
    pub equal: bool,
}

/// Appends the text of a summary. `NoMemory`: there was no room for it.
pub fn put_summary(out: &mut Vec<u8>, summary: &Summary) -> Result<(), NoMemory>
    ensures { OnOk result (out.new.items ≡ out.old.items ++ summary_text summary.now) }
{
    put_seed(out, summary.seed)?;
    put_network(out, summary.nodes, summary.hops, summary.longest)?;
    put_rounds(out, summary.rounds, summary.delivered)?;
    put_booked(
        out,
        summary.booked.ends,
        summary.booked.entries,
        summary.booked.held,
    )?;
    put_equal(out, summary.equal)
}

// Appends the first line, as `seed 1`.
#[tactic(auto, unfolding(crate::specs::Texts::seed_line))]
fn put_seed(out: &mut Vec<u8>, seed: u64) -> Result<(), NoMemory>
    ensures { OnOk result (out.new.items ≡ out.old.items ++ seed_line seed) }
{
    put(out, b"seed ")?;
    put_number(out, seed)?;
    put(out, b"\n")
}

// Appends the line of the network, as `nodes 64 hops 756 longest 11`.
#[tactic(auto, unfolding(crate::specs::Texts::network_line))]
fn put_network(out: &mut Vec<u8>, nodes: u16, hops: u64, longest: u32) -> Result<(), NoMemory>
    ensures { OnOk result (out.new.items ≡ out.old.items ++ network_line nodes hops longest) }
{
    put(out, b"nodes ")?;
    put_number(out, u64::from(nodes))?;
    put(out, b" hops ")?;
    put_number(out, hops)?;
    put(out, b" longest ")?;
    put_number(out, u64::from(longest))?;
    put(out, b"\n")
}

// Appends the line of the run, as `rounds 192 delivered 363000`.
#[tactic(auto, unfolding(crate::specs::Texts::rounds_line))]
fn put_rounds(out: &mut Vec<u8>, rounds: u32, delivered: u64) -> Result<(), NoMemory>
    ensures { OnOk result (out.new.items ≡ out.old.items ++ rounds_line rounds delivered) }
{
    put(out, b"rounds ")?;
    put_number(out, u64::from(rounds))?;
    put(out, b" delivered ")?;
    put_number(out, delivered)?;
    put(out, b"\n")
}

// Appends the line of what is booked, as `booked ends 120 entries 500 held 900000`.
#[tactic(auto, unfolding(crate::specs::Texts::booked_line))]
fn put_booked(out: &mut Vec<u8>, ends: u64, entries: u64, held: u128) -> Result<(), NoMemory>
    ensures { OnOk result (out.new.items ≡ out.old.items ++ booked_line ends entries held) }
{
    put_counts(out, ends, entries)?;
    put(out, b" held ")?;
    put_sum(out, held)?;
    put(out, b"\n")
}

// Appends its front, as `booked ends 120 entries 500`.
fn put_counts(out: &mut Vec<u8>, ends: u64, entries: u64) -> Result<(), NoMemory>
    ensures { OnOk result (out.new.items ≡ out.old.items ++ counts_text ends entries) }
{
    put(out, b"booked ends ")?;
    put_number(out, ends)?;
    put(out, b" entries ")?;
    put_number(out, entries)
}

// Appends the last line, as `equal yes`.
fn put_equal(out: &mut Vec<u8>, equal: bool) -> Result<(), NoMemory>
    ensures { OnOk result (out.new.items ≡ out.old.items ++ equal_line equal) }
{
    put(out, b"equal ")?;
    put(out, yes_or_no(equal))?;
    put(out, b"\n")
}

fn yes_or_no(yes: bool) -> &'static [u8]
    ensures { result.now ≡ yes_or_no yes }
{
    if yes { b"yes" } else { b"no" }
}

// Appends a sum in decimal digits.
fn put_sum(out: &mut Vec<u8>, sum: u128) -> Result<(), NoMemory>
    ensures { OnOk result (out.new.items ≡ out.old.items ++ decimal sum) }
{
    let mut buffer = Buffer::new();
    put(out, buffer.format(sum).as_bytes())
}
