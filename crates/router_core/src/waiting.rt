//! Time passes.
ghost use Rattle.std.specs.Prelude.{◌≡◌, ◌≤◌, ◌+◌, ◌*◌, ℕ, fold};
ghost use Rattle.router_rules.specs.Inputs.{Wait};
ghost use Rattle.router_rules.specs.Rule.{facts_after, sent_after};
ghost use Rattle.router_state.specs.State.{facts_at};

use crate::node::Node;
use router_rounds::pass_time;
use router_rules::Outbox;

impl Node {
    /// Time passes, at most half a period: `ms` milliseconds (RFC 2205, 3.7). What is not refreshed dies: its senders are torn,
    /// its names are forgotten, and the previous hops are told what changed. Sessions that come due are refreshed, and their
    /// countdowns begin again as the word says (RFC 2209, 2: PATH REFRESH and RESV REFRESH).
    pub fn wait<O: Outbox>(&mut self, ms: u32, word: u32, out: &mut O)
        requires { ms ≤ 2 * self.old.place.quarter }
        ensures facts { (c : ℕ) → facts_at (c + ms) self.new ≡ facts_after self.old.place self.old.place (c + ms) (Wait ms word) (facts_at c self.old) }
        ensures sent { (c : ℕ) → out.new ≡ fold O.posted out.old (sent_after self.old.place self.old.place (c + ms) (Wait ms word) (facts_at c self.old)) }
        ensures place { self.new.place ≡ self.old.place }
    {
        pass_time(
            &mut self.tables,
            &mut self.said,
            &mut self.rooms,
            ms,
            word,
            out,
        );
    }
}
