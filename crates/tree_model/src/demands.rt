//! The laws of wants and demands.
ghost use Rattle.rsvp_base.specs.declared.session.Session.{Session};
ghost use Rattle.rsvp_base.specs.declared.style.StyleKind.{StyleKind};
ghost use Rattle.tree_model.specs.Networks.{Net};
ghost use Rattle.tree_model.specs.Ranks.{IsLoopFree};
ghost use Rattle.tree_model.specs.Wants.{Locals};
ghost use Rattle.tree_model.specs.Goals.{DemandsFit};
ghost use Rattle.tree_model.specs.DemandLaws.{WantEquation, WantNames, AFixedUnitIsItsName, CommonNameMakesAFollower, FitBoundsTheGoal};

/// Where no chain is closed, the want of a hop is the style merge of the wants at the node that it goes into and of those
/// of the hops that follow it, each cut to the names that go that way; and these equations have no other solution.
pub fn want_equation()
    ensures { (st : StyleKind) (net : Net) (l : Locals) (s : Session) → IsLoopFree net → WantEquation st net l s }
{}

/// A part that is wanted over a hop names senders whose trees have the hop.
pub fn want_names()
    ensures { (st : StyleKind) (net : Net) (l : Locals) (s : Session) → WantNames st net l s }
{}

/// Of a fixed filter each part that is wanted over a hop names one sender, and its unit is that name.
pub fn a_fixed_unit_is_its_name()
    ensures { (net : Net) (l : Locals) (s : Session) → AFixedUnitIsItsName net l s }
{}

/// A name that is over each of two hops that meet in a node is over both together, and the second follows the first.
pub fn a_common_name_makes_a_follower()
    ensures { (st : StyleKind) (net : Net) (l : Locals) (s : Session) → CommonNameMakesAFollower st net l s }
{}

/// Where the demands fit, lines under the goal of a node are within its limits, and within capacity and MTU at its ends.
pub fn fit_bounds_the_goal()
    ensures { (net : Net) (l : Locals) → DemandsFit net l → FitBoundsTheGoal net l }
{}
