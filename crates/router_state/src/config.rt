//! Where a node stands: its period, its interfaces, and its routes.
ghost use Rattle.std.specs.Prelude.{◌≡◌, ◌==◌, ◌≤◌, ◌*◌, length, IfOk, IfErr};
ghost use Rattle.std.specs.Int.{bit_at};
ghost use Rattle.std.specs.List.{list_any};
ghost use Rattle.rsvp_base.specs.Rows.{AreRows, HasRowAt, LacksRowAt};
ghost use Rattle.rsvp_base.specs.Table.{empty};
ghost use Rattle.router_rules.specs.NodeConfig.{comes_in, goes_out, is_addr, is_own, lifetime, own, period, route_in, tree, wall_lifetime};
ghost use Rattle.router_state.specs.Routes.{AreRoutes, route_keys, route_row, ways_out};

use admission_book::Book;
use router_rules::Route;
use rsvp_base::{Addr, Iface, NoMemory, Sender, Session};
use std::alloc::Global;
use std::cmp::Ordering;
use std::marker::Model;
use std::mem;

/// The refresh period of the network, as a quarter of it in milliseconds, the node's interfaces by number, and its routes in
/// the order of group and source.
#[derive(Drop)]
pub struct Config {
    quarter: u32,
    ifaces: Vec<Iface>,
    routes: Vec<Route>,
    ghost some: { 1 ≤ quarter },
    ghost quick: { quarter ≤ 15000 },
    ghost few: { length ifaces.items ≤ 16 },
    ghost routed: { AreRoutes routes.items },
}

impl Model for Config {
    ghost use Rattle.router_rules.specs.NodeConfig.{NodeConfig};

    ghost Value = { NodeConfig };

    ghost view = { λ p. record { quarter = p.quarter; ifaces = p.ifaces.items; routes = p.routes.items } };
}

/// Whether a set of interfaces has this one: bit i stands for interface i.
pub fn is_out(ways: u16, iface: u8) -> bool
    ensures { result ≡ (bit_at ways iface == 1) }
{
    iface < 16 && (ways >> iface) & 1 == 1
}

// Where the route of a group and source stands, or where it would go.
fn search(rows: &[Route], group: Addr, source: Addr) -> Result<usize, usize>
    requires { AreRows route_keys route_row rows.now }
    ensures there { IfOk result (HasRowAt route_keys route_row rows.now (group, source)) }
    ensures absent { IfErr result (LacksRowAt route_keys route_row rows.now (group, source)) }
{
    rows.binary_search_by(|row| row.group.cmp(&group).then(row.source.cmp(&source)))
}

// The route of a group and source.
fn route_of(rows: &[Route], group: Addr, source: Addr) -> Option<Route>
    requires { AreRows route_keys route_row rows.now }
    ensures { result ≡ route_in rows.now group source }
{
    match search(rows, group, source) {
        Ok(at) => Some(rows[at]),
        Err(_) => None,
    }
}

// Whether one of the interfaces has the address.
fn any_has(ifaces: &[Iface], addr: Addr) -> bool
    ensures { result ≡ list_any (λ i. is_addr i.addr addr) ifaces.now }
{
    ifaces.iter().any(|iface| iface.addr == addr)
}

/// The interfaces by which a sender's tree goes on by these routes, which are in the order of group and source: bit i stands
/// for interface i.
pub fn ways_by(routes: &[Route], session: Session, sender: Sender) -> u16
    requires { AreRoutes routes.now }
    ensures { result ≡ ways_out (route_in routes.now session.group sender.addr) }
{
    match route_of(routes, session.group, sender.addr) {
        Some(route) => route.outward,
        None => 0,
    }
}

impl Config {
    /// Of a quarter of the period, from 1 to 15,000 milliseconds, at most 16 interfaces, and routes in the order of group and
    /// source, at most one of each.
    pub fn new(quarter: u32, ifaces: Vec<Iface>, routes: Vec<Route>) -> Config
        requires some { 1 ≤ quarter }
        requires quick { quarter ≤ 15000 }
        requires few { length ifaces.items ≤ 16 }
        requires routed { AreRoutes routes.items }
        ensures { result ≡ record { quarter = quarter; ifaces = ifaces.items; routes = routes.items } }
    {
        Config {
            quarter,
            ifaces,
            routes,
        }
    }

    /// Has these routes from now on, in the order of group and source, at most one of each, and stands where it did. The routes
    /// that it had are handed back.
    pub fn reroute(&mut self, routes: Vec<Route>) -> Vec<Route>
        requires { AreRoutes routes.items }
        ensures config { self.new ≡ record self.old { routes = routes.items } }
        ensures old { result.items ≡ self.old.routes }
        ensures routed { AreRoutes result.items }
    {
        mem::replace(&mut self.routes, routes)
    }

    /// A quarter of the period.
    pub fn quarter(&self) -> u32
        ensures is { result ≡ self.now.quarter }
        ensures some { 1 ≤ result }
        ensures quick { result ≤ 15000 }
    {
        self.quarter
    }

    /// The period, in milliseconds.
    pub fn period(&self) -> u32
        ensures { result ≡ period self.now }
    {
        4 * self.quarter
    }

    /// The interfaces, at most 16.
    pub fn ifaces(&self) -> &[Iface]
        ensures is { result.now ≡ self.now.ifaces }
        ensures few { length result.now ≤ 16 }
    {
        self.ifaces.as_slice()
    }

    /// A book of the interfaces, without entries. `NoMemory`: the room could not be had.
    pub fn open_book(&self, alloc: Global) -> Result<Book, NoMemory>
        ensures { IfOk result (λ b. b ≡ record { ifaces = self.now.ifaces; entries = empty }) }
    {
        Book::open(alloc, &self.ifaces)
    }

    /// The node's own address of an interface; 0 where there is no such interface.
    pub fn own(&self, iface: u8) -> Addr
        ensures { result ≡ own self.now iface }
    {
        match self.ifaces.as_slice().get(iface as usize) {
            Some(found) => found.addr,
            None => Addr(0),
        }
    }

    /// Whether an address is that of one of the interfaces.
    pub fn is_own(&self, addr: Addr) -> bool
        ensures { result ≡ is_own self.now addr }
    {
        any_has(self.ifaces.as_slice(), addr)
    }

    /// How the node lies in a sender's tree. `None` exactly where it does not.
    pub fn tree(&self, session: Session, sender: Sender) -> Option<Route>
        ensures { result ≡ tree self.now session sender }
    {
        route_of(self.routes.as_slice(), session.group, sender.addr)
    }

    /// The interfaces by which a sender's tree goes on: bit i stands for interface i.
    pub fn ways_of(&self, session: Session, sender: Sender) -> u16
        ensures { result ≡ ways_out (tree self.now session sender) }
    {
        match self.tree(session, sender) {
            Some(route) => route.outward,
            None => 0,
        }
    }

    /// Whether a sender's tree comes in by an interface.
    pub fn comes_in(&self, session: Session, iface: u8, sender: Sender) -> bool
        ensures { result ≡ comes_in self.now session iface sender }
    {
        match self.tree(session, sender) {
            Some(route) => route.inward == Some(iface),
            None => false,
        }
    }

    /// Whether a sender's tree goes out of an interface.
    pub fn goes_out(&self, session: Session, iface: u8, sender: Sender) -> bool
        ensures { result ≡ goes_out self.now session iface sender }
    {
        match self.tree(session, sender) {
            Some(route) => is_out(route.outward, iface),
            None => false,
        }
    }

    /// How long a blockade lives, in milliseconds: four periods (RFC 2205, 3.5).
    pub fn wall_lifetime(&self) -> u32
        ensures life { result ≡ wall_lifetime self.now }
        ensures some { 1 ≤ result }
    {
        4 * (4 * self.quarter)
    }

    /// How long what is heard lives, in milliseconds: 5.25 times the period that was said, brought into the range from 1 to
    /// that of the network (RFC 2205, 3.7).
    pub fn lifetime(&self, said: u32) -> u32
        ensures life { result ≡ lifetime self.now said }
        ensures some { 1 ≤ result }
    {
        let period = (4 * self.quarter).min(said).max(1);
        (21 * period + 3) / 4
    }
}
