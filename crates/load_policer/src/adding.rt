//! A line behind those before.
ghost use Rattle.std.specs.Prelude.{◌≡◌, ◌↔◌, ◌≤◌, ◌<◌, ◌+◌, ◌^◌, ◌++◌, IfSome, IsSome, is_some, true, length, vec_len, vec_capacity};
ghost use Rattle.std.specs.Fmt.{decimal};
ghost use Rattle.load_policer.specs.Policing.{packet};
ghost use Rattle.load_policer.specs.Drafts.{Draft, IsPacket, nothing};
ghost use Rattle.load_policer.specs.Standings.{IsFed, IsFlowFed, IsPacketFed, HasVerdict, Stands, counted, passed_count};
ghost use Rattle.load_policer.specs.Texts.{count_text, verdict_text};

use crate::line::{END_OF_TIME, PacketLine};
use crate::policer::{Policer, Verdict};
use crate::reading::line_behind;
use crate::standing::Standing;
use itoa::Buffer;
use script_words::{FlowWord, LineWhy};

// The most bytes of a packet.
const MOST_SIZE: u128 = 65_535;

impl Standing {
    /// At first.
    pub fn new() -> Standing
        ensures { Stands result nothing }
    {
        Standing {
            policer: None,
            last: 0,
            passed: 0,
            offered: 0,
        }
    }

    /// Adds a line, and appends the verdict on its packet. `Err`: exactly where the line is bad, for this reason; nothing changed then.
    pub fn add(&mut self, line: &[u8], out: &mut Vec<u8>) -> Result<(), LineWhy>
        requires short { length line.now ≤ 2048 }
        requires room { vec_len out.old + 5 ≤ vec_capacity out.old }
        requires stands { (d : Draft) × Stands self.old d }
        ensures fed { (d : Draft) → Stands self.old d → IsFed d line.now result self.new out.old.items out.new.items }
        ensures capacity { vec_capacity out.old ≤ vec_capacity out.new }
    {
        match line_behind(self.policer.is_some(), line) {
            None => Err(LineWhy::Word),
            Some(PacketLine::Skipped) => Ok(()),
            Some(PacketLine::Flow(word)) => self.add_flow(word),
            Some(PacketLine::Packet { at, size }) => self.add_packet(at, size, out),
        }
    }

    // Adds the flow.
    fn add_flow(&mut self, word: FlowWord) -> Result<(), LineWhy>
        ensures { IsFlowFed word self.old result self.new }
    {
        match word.flow() {
            Some(flow) => {
                self.policer = Some(Policer::open(flow));
                Ok(())
            }
            None => Err(LineWhy::Range),
        }
    }

    // Adds a packet, and appends its verdict.
    #[tactic(auto, using(crate::proofs::Fed::judged_packet))]
    fn add_packet(&mut self, at: u128, size: u128, out: &mut Vec<u8>) -> Result<(), LineWhy>
        requires room { vec_len out.old + 5 ≤ vec_capacity out.old }
        requires stands { (d : Draft) × Stands self.old d }
        requires flow { is_some self.old.policer ≡ true }
        ensures fed { (d : Draft) → Stands self.old d → IsPacketFed d at size self.old result self.new out.old.items out.new.items }
        ensures capacity { vec_capacity out.old ≤ vec_capacity out.new }
    {
        if at < u128::from(self.last) {
            return Err(LineWhy::Late);
        }
        match in_range(at, size) {
            Some((micros, bytes)) => {
                let verdict = self.judge(micros, bytes);
                put(out, verdict_text(verdict));
                Ok(())
            }
            None => Err(LineWhy::Range),
        }
    }

    // The verdict on a packet.
    #[tactic(auto, using(crate::proofs::Fed::judged_so, crate::proofs::Fed::in_time))]
    fn judge(&mut self, at: u64, size: u32) -> Verdict
        requires stands { (d : Draft) × Stands self.old d }
        requires flow { is_some self.old.policer ≡ true }
        requires later { self.old.last ≤ at }
        requires time { at < 2 ^ 63 }
        ensures { (d : Draft) → Stands self.old d → HasVerdict d (packet at size) result self.new }
    {
        let verdict = match &mut self.policer {
            Some(policer) => policer.offer(at, size),
            None => return Verdict::Big,
        };
        self.last = at;
        self.offered = one_more(self.offered);
        self.passed = passed_with(self.passed, verdict);
        verdict
    }

    /// Appends the line with the counts.
    #[tactic(auto, unfolding(crate::specs::Texts::count_text))]
    pub fn put_counts(&self, out: &mut Vec<u8>)
        requires { vec_len out.old + 52 ≤ vec_capacity out.old }
        ensures { out.new.items ≡ out.old.items ++ count_text self.now.passed self.now.offered }
    {
        put(out, b"passed ");
        put_count(out, self.passed);
        put(out, b" of ");
        put_count(out, self.offered);
        put(out, b"\n");
    }
}

// The packet of these numbers. `None` exactly where one is out of range.
fn in_range(at: u128, size: u128) -> Option<(u64, u32)>
    ensures some { IsSome result ↔ IsPacket at size }
    ensures value { IfSome result (λ p. (p.0 ≡ at) × (p.1 ≡ size)) }
{
    if at >= END_OF_TIME || size == 0 || size > MOST_SIZE {
        return None;
    }
    Some((at as u64, size as u32))
}

// One more than a count, which stands still at the last value of its type.
fn one_more(n: u64) -> u64
    ensures { result ≡ counted (n + 1) }
{
    n.saturating_add(1)
}

// How many passed, with a packet that got this verdict.
fn passed_with(passed: u64, verdict: Verdict) -> u64
    ensures { result ≡ passed_count verdict passed }
{
    match verdict {
        Verdict::Pass => one_more(passed),
        Verdict::Over => passed,
        Verdict::Big => passed,
    }
}

fn verdict_text(verdict: Verdict) -> &'static [u8]
    ensures value { result.now ≡ verdict_text verdict }
    ensures few { length result.now ≤ 5 }
{
    match verdict {
        Verdict::Pass => b"pass\n",
        Verdict::Over => b"over\n",
        Verdict::Big => b"big\n",
    }
}

// Appends bytes for which there is room.
fn put(out: &mut Vec<u8>, bytes: &[u8])
    requires { vec_len out.old + length bytes.now ≤ vec_capacity out.old }
    ensures items { out.new.items ≡ out.old.items ++ bytes.now }
    ensures len { vec_len out.new ≡ vec_len out.old + length bytes.now }
    ensures capacity { vec_capacity out.old ≤ vec_capacity out.new }
{
    let _ = out.extend_from_slice(bytes);
}

// Appends a number for which there is room.
fn put_count(out: &mut Vec<u8>, n: u64)
    requires { vec_len out.old + 20 ≤ vec_capacity out.old }
    ensures items { out.new.items ≡ out.old.items ++ decimal n }
    ensures len { vec_len out.new ≤ vec_len out.old + 20 }
    ensures capacity { vec_capacity out.old ≤ vec_capacity out.new }
{
    let mut buffer = Buffer::new();
    put(out, buffer.format(n).as_bytes());
}
