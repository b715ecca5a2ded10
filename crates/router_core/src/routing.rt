//! A node's routes move.
ghost use Rattle.std.specs.Prelude.{◌≡◌, ℕ, fold};
ghost use Rattle.router_rules.specs.Inputs.{Moved};
ghost use Rattle.router_rules.specs.Rule.{facts_after, sent_after};
ghost use Rattle.router_state.specs.Routes.{AreRoutes};
ghost use Rattle.router_state.specs.State.{facts_at};

use crate::node::Node;
use router_rounds::change_routes;
use router_rules::{Outbox, Route};

impl Node {
    /// Has these routes from now on, in the order of group and source, at most one of each, in place of those that it had, which
    /// are handed back (RFC 2205, 3.6; RFC 2209, 2: ROUTE CHANGE NOTIFICATION). Senders are torn by the interfaces by which
    /// their trees go on no more, and told by those by which they go on newly; the previous hops are told what changed.
    pub fn route<O: Outbox>(&mut self, routes: Vec<Route>, out: &mut O) -> Vec<Route>
        requires { AreRoutes routes.items }
        ensures facts { (c : ℕ) → facts_at c self.new ≡ facts_after self.old.place (record self.old.place { routes = routes.items }) c Moved (facts_at c self.old) }
        ensures sent { (c : ℕ) → out.new ≡ fold O.posted out.old (sent_after self.old.place (record self.old.place { routes = routes.items }) c Moved (facts_at c self.old)) }
        ensures place { self.new.place ≡ record self.old.place { routes = routes.items } }
        ensures old { result.items ≡ self.old.place.routes }
    {
        change_routes(
            &mut self.tables,
            &mut self.said,
            &mut self.rooms,
            routes,
            out,
        )
    }
}
