//! Laws of the steps of a network.
ghost use Rattle.std.specs.Prelude.{◌≡◌, ℕ, true, slice_get, Some};
ghost use Rattle.rsvp_base.specs.declared.addr.Addr.{Addr};
ghost use Rattle.tree_model.specs.declared.hops.End.{End};
ghost use Rattle.tree_model.specs.Networks.{Net};
ghost use Rattle.calm_rounds.specs.Machine.{IsClocked, IsStamped};
ghost use Rattle.network_model.specs.Laws.{ADeliveryChangesOneNode, APieceChangesEveryNode, TheRestChangeNoNode, WhereASendGoes, WhatIsSentIsCopied, is_still};
ghost use Rattle.network_model.specs.Steps.{Step, machine};
ghost use Rattle.network_model.specs.Worlds.{Item, World};

/// Time goes on by what quiet steps wait.
#[tactic(auto, using(crate::proofs::Machines::time_passes))]
pub fn time_passes()
    ensures { (q : ℕ) → IsClocked (machine q) }
{}

/// Items carry the number of the step that sent them; what is in flight after a quiet step was there or is not older than
/// the step, and what arrives was in flight.
#[tactic(auto, using(crate::proofs::Machines::items_are_numbered))]
pub fn items_are_numbered()
    ensures { (q : ℕ) → IsStamped (machine q) }
{}

/// A delivery changes the node of its end, by the rule of what came, and no other; the item is no longer in flight.
pub fn a_delivery_changes_one_node()
    ensures { (q : ℕ) (w : World) (k : ℕ) (x : Item) (e : End) → slice_get w.flight k ≡ Some x → slice_get w.net.ends x.end ≡ Some e → ADeliveryChangesOneNode q w k x e }
{}

/// In a piece of a wait every node follows the rule of a wait.
pub fn a_piece_changes_every_node()
    ensures { (q : ℕ) (w : World) (ms : ℕ) → APieceChangesEveryNode q w ms }
{}

/// What is lost, copied, written or injected changes no node, and nothing is sent for it.
pub fn the_rest_change_no_node()
    ensures { (q : ℕ) (w : World) (s : Step) → is_still s ≡ true → TheRestChangeNoNode q w s }
{}

/// What goes to a group goes to each other end of the link; else to the ends that have the address, and where none has it to
/// all; out of an end in no link it goes nowhere.
pub fn where_a_send_goes()
    ensures { (net : Net) (a : ℕ) (dst : Addr) → WhereASendGoes net a dst }
{}

/// What a step sends are the copies of what its nodes send: one for each end to which a send goes, with the number of the
/// step and the mark of the send.
pub fn what_is_sent_is_copied()
    ensures { (q : ℕ) (s : Step) (w : World) → WhatIsSentIsCopied q s w }
{}
