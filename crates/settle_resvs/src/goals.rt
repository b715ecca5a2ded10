//! The laws.
ghost use Rattle.std.specs.Prelude.{ℕ, List};
ghost use Rattle.rsvp_base.specs.declared.addr.Addr.{Addr};
ghost use Rattle.rsvp_base.specs.declared.session.Session.{Session};
ghost use Rattle.tree_model.specs.Goals.{DemandsFit};
ghost use Rattle.tree_model.specs.Wants.{Locals};
ghost use Rattle.laws_steps.specs.AcceptingLaws.{CanBeHeld};
ghost use Rattle.tree_model.specs.Networks.{Net, iface_of, node_of};
ghost use Rattle.tree_model.specs.Valid.{IsValid};
ghost use Rattle.settle_paths.specs.Bounds.{AreBounds};
ghost use Rattle.settle_paths.specs.Locals.{locals_of};
ghost use Rattle.settle_paths.specs.Worlds.{World, config_of};
ghost use Rattle.settle_resvs.specs.GoalByIface.{goal_at};
ghost use Rattle.settle_resvs.specs.Sessions.{Carries, SessionFits};
ghost use Rattle.settle_resvs.specs.Laws.{AreWantParts, HasOneStyle, IsTheGoalByIface, SoundIsUnderTheGoal, WantsHaveStyles};

/// What is wanted over a hop is of its style, stands under its unit, and is wanted by someone, where each local want is as its
/// style has it.
pub fn wants_have_styles()
    ensures { (net : Net) (l : Locals) → AreWantParts l → WantsHaveStyles net l }
{}

/// In a world within bounds each local want is.
pub fn local_wants_are_shaped()
    ensures { (q : ℕ) (w : World) → AreBounds q w → AreWantParts (locals_of w) }
{}

/// Where the demands fit, each session does.
pub fn each_session_fits()
    ensures { (net : Net) (l : Locals) → DemandsFit net l → (s : Session) → SessionFits net l s }
{}

/// Where a session fits, what is wanted of it has one style.
pub fn a_session_has_one_style()
    ensures { (net : Net) (l : Locals) (s : Session) → SessionFits net l s → HasOneStyle net l s }
{}

/// In a valid network the goal of a node by interface is within the limits of its goal, and the book of an interface is that of its end.
pub fn the_goal_by_iface()
    ensures { (net : Net) (l : Locals) (n : ℕ) → IsValid net → IsTheGoalByIface net l n }
{}

/// In a valid network, where a session fits, the node of an end that carries it can hold its goal, as far as the session goes there:
/// within the limits of its tables, and at the interface within capacity and MTU.
pub fn a_session_that_fits_can_be_held()
    ensures { (q : ℕ) (net : Net) (trees : List (Addr × Addr)) (l : Locals) (s : Session) (e : ℕ) → IsValid net → SessionFits net l s → Carries net l s e
        → CanBeHeld (config_of q net trees (node_of net.ends e)) s (iface_of net.ends e) (goal_at net l (node_of net.ends e)) }
{}

/// Sound reservations lie under the goal of their node, and a unit that is sound has a place among the lines of the goal.
pub fn what_is_sound_is_under_the_goal()
    ensures { (w : World) → SoundIsUnderTheGoal w }
{}
