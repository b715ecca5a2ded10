//! Where a router stands, as the frame says that opens it.
ghost use Rattle.std.specs.Prelude.{◌≡◌, ◌<◌, ◌≢◌, ℕ, true, false, map, IfOk, IfErr, Ok, None, is_some};
ghost use Rattle.rsvp_base.specs.Rows.{AreRows};
ghost use Rattle.rsvp_base.specs.Table.{get, put_in, values};
ghost use Rattle.router_rules.specs.NodeConfig.{NodeConfig};
ghost use Rattle.node_stream.specs.Layout as spec;
ghost use Rattle.node_stream.specs.Blames.{IsPlaceBlame};
ghost use Rattle.node_stream.specs.Placing.{IsBadPlace, RouteTable, place_of, tree_row};
ghost use Rattle.node_stream.specs.Rules.{AreNumbersInRange, IsPlace, ifaces_in, place_in, routes_to, tree_at, tree_keys, tree_of};

use crate::blame::Blame;
use crate::layout::{iface_at, iface_count, period_in, route_at, route_count};
use crate::range::numbers_blame;
use router_rules::Route;
use rsvp_base::sorted::search;
use rsvp_base::{Addr, Iface, NoMemory};
use std::alloc::Global;

/// Where a router stands: a quarter of the refresh period, in milliseconds; its interfaces; and its routes, in the order of group
/// and source.
#[derive(Drop)]
pub struct Place {
    pub quarter: u32,
    pub ifaces: Vec<Iface>,
    pub routes: Vec<Route>,
}

/// Why there is no place.
#[derive(Clone, Copy, Debug, PartialEq, Eq)]
pub enum PlaceErr {
    /// A number is out of range, or two interfaces or routes are the same.
    Bad(Blame),
    /// There was no memory for the lists.
    NoMemory,
}

impl From<NoMemory> for PlaceErr {
    ghost use Rattle.std.specs.Prelude.{◌≡◌};
    ghost use Rattle.node_stream.specs.declared.placing.PlaceErr.TheVariants as err;

    ghost from_gives = { λ _ e. e ≡ err.NoMemory };

    fn from(_: NoMemory) -> PlaceErr {
        PlaceErr::NoMemory
    }
}

// The rows of routes by group and source.
type Rows = Vec<((Addr, Addr), Route)>;

/// Where the router stands that a frame of kind 1 with these contents opens. `Bad` if and only if the frame is out of range. `NoMemory`,
/// only where its numbers are in range: memory ran out.
pub fn read_place(alloc: Global, contents: &[u8]) -> Result<Place, PlaceErr>
    requires { spec.HasForm contents.now }
    ensures range { IfOk result (λ q. IsPlace contents.now) }
    ensures place { IfOk result (λ q. place_of q ≡ place_in contents.now) }
    ensures routes { IfOk result (λ q. AreRows tree_keys tree_row q.routes.items) }
    ensures bad { IfErr result (IsBadPlace contents.now) }
    ensures asked { IfErr result (λ e. e ≡ PlaceErr.NoMemory → AreNumbersInRange contents.now) }
{
    if let Some(blame) = numbers_blame(contents) {
        return Err(PlaceErr::Bad(blame));
    }
    let ifaces = ifaces_in(alloc, contents)?;
    let rows = rows_in(alloc, contents)?;
    let routes = routes_of(alloc, rows.as_slice())?;
    Ok(Place {
        quarter: period_in(contents) / 4,
        ifaces,
        routes,
    })
}

// The interfaces. `NoMemory`: there was no room for them.
fn ifaces_in(alloc: Global, contents: &[u8]) -> Result<Vec<Iface>, NoMemory>
    requires { spec.HasForm contents.now }
    ensures { IfOk result (λ v. v.items ≡ ifaces_in contents.now) }
{
    let mut ifaces = Vec::new(alloc);
    for k in 0..iface_count(contents) {
        ifaces.push(iface_at(contents, k))?;
    }
    Ok(ifaces)
}

// The routes by group and source. `Bad`: one has those of one before it.
fn rows_in(alloc: Global, contents: &[u8]) -> Result<Rows, PlaceErr>
    requires { spec.HasForm contents.now }
    ensures rows { IfOk result (λ v. v.items ≡ (routes_to contents.now (spec.route_count contents.now)).rows) }
    ensures once { IfOk result (λ v. (j k : ℕ) → j < k → k < spec.route_count contents.now → tree_at contents.now j ≢ tree_at contents.now k) }
    ensures bad { IfErr result (IsBadPlace contents.now) }
{
    let mut rows = Vec::new(alloc);
    for k in 0..route_count(contents) {
        let route = route_at(contents, k);
        if !add_row(&mut rows, route)? {
            return Err(PlaceErr::Bad(Blame::SameTree { route: k }));
        }
    }
    Ok(rows)
}

// Adds a route, unless there is one of its group and source: whether it did. `NoMemory`: there was no room for it.
#[tactic(auto, using(crate::proofs::Placed::row_there, crate::proofs::Placed::row_absent, crate::proofs::Placed::row_put))]
fn add_row(rows: &mut Rows, route: Route) -> Result<bool, NoMemory>
    requires { AreRows tree_keys (λ e. e) rows.old.items }
    ensures added { (t : RouteTable) → t.rows ≡ rows.old.items → result ≡ Ok true → (get t (tree_of route) ≡ None) × (rows.new.items ≡ (put_in t (tree_of route) route).rows) }
    ensures there { (t : RouteTable) → t.rows ≡ rows.old.items → result ≡ Ok false → is_some (get t (tree_of route)) ≡ true }
{
    let tree = (route.group, route.source);
    match search(rows.as_slice(), &tree) {
        Ok(_) => Ok(false),
        Err(at) => {
            rows.insert(at, (tree, route))?;
            Ok(true)
        }
    }
}

// What stands under the keys. `NoMemory`: there was no room for it.
fn routes_of(alloc: Global, rows: &[((Addr, Addr), Route)]) -> Result<Vec<Route>, NoMemory>
    ensures { IfOk result (λ v. v.items ≡ map (λ e. e.1) rows.now) }
{
    let mut routes = Vec::new(alloc);
    for row in rows {
        routes.push(row.1)?;
    }
    Ok(routes)
}
