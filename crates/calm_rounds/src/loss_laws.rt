//! The laws of loss.
ghost use Rattle.std.specs.Prelude.{◌≡◌, ◌≤◌, ◌+◌, ◌*◌, ℕ, suc, List, Some};
ghost use Rattle.calm_rounds.specs.Machine.{Machine, IsClocked, IsStamped, Fresh};
ghost use Rattle.calm_rounds.specs.Rounds.{AreQuiet, Rounds};
ghost use Rattle.calm_rounds.specs.Hold.{Visited, Hold};
ghost use Rattle.calm_rounds.specs.SoftStates.{KeepLaws, DueLaws, IsClosed, SaysOnly, KeepsOnly, Stands, Good, Moves};
ghost use Rattle.calm_rounds.specs.Loss.{OneOfAny, IsRefreshed};
ghost use Rattle.calm_rounds.specs.Lamp.{MeetsThePremises, LossCanKill};
ghost use Rattle.calm_rounds.specs.LampWindows.{SettlesInWindows, TakesTheWindows};
ghost use Rattle.calm_rounds.specs.Pace.{PaceLaws, Lasts};
ghost use Rattle.calm_rounds.specs.Windows.{Windows, joined, four_by_four};

use crate::claims::{Claim, Key};

/// What is refreshed never dies (RFC 2205, 3.7, K = 3): where each letter in flight says one value for a full lifetime, each that arrives
/// is taken whole, the sending node goes on refreshing, the next time within 1.5 periods, and of any three successive refreshes on the
/// track one arrives less than 0.75 periods after it was due, that value, if it lives until the third of them may arrive, is kept in each
/// world that is visited, however long.
pub fn what_is_refreshed_never_dies<W, S, I, K, L: Key<W, S, I, K>>()
    ensures { (m : Machine W S I K) → IsClocked m → IsStamped m → DueLaws m L.state → PaceLaws m L.state
        → (v : L.Value) (n : ℕ) (ss : List S) (w : W) → AreQuiet m ss → IsRefreshed m L.state.due L.state.track ss w
        → Moves m L.state v n → n ≤ m.made w → Fresh m n w → Visited m (Good m L.state v n) ss w → Lasts m L.state v w → Visited m (Stands m L.state v) ss w }
{}

/// As many refreshes may be lost as fit into a lifetime: where the same is said, taken and refreshed, of any so many successive refreshes
/// one arrives in time, and as many times 1.5 periods fit into a lifetime together with the time that a refresh may take, the value, if it
/// lives until the last of them may arrive, never dies.
pub fn what_is_refreshed_often_enough_never_dies<W, S, I, K, L: Key<W, S, I, K>>()
    ensures { (m : Machine W S I K) → IsClocked m → IsStamped m → DueLaws m L.state → PaceLaws m L.state
        → (wait few : ℕ) → 6 * m.quarter * suc few + wait ≤ 21 * m.quarter
        → (v : L.Value) (n : ℕ) (ss : List S) (w : W) → AreQuiet m ss → OneOfAny m L.state.due L.state.track wait (suc few) ss w
        → Moves m L.state v n → n ≤ m.made w → Fresh m n w → Visited m (Good m L.state v n) ss w
        → (d t : ℕ) → L.state.kept w ≡ Some (v, d) → L.state.due w ≡ Some t → t + 6 * m.quarter * few + wait ≤ d → Visited m (Stands m L.state v) ss w }
{}

/// What is refreshed is kept: where each letter in flight says one value for a full lifetime, each that arrives is taken whole, the sending
/// node goes on refreshing, and of any three successive refreshes on the track one arrives less than 0.75 periods after it was due, that
/// value is kept from 5.25 refresh periods on, whatever was kept at the start.
pub fn what_is_refreshed_is_kept<W, S, I, K, L: Key<W, S, I, K>>()
    ensures { (m : Machine W S I K) → IsClocked m → IsStamped m → DueLaws m L.state → PaceLaws m L.state
        → (v : L.Value) (n : ℕ) (ss : List S) (w : W) → AreQuiet m ss → IsRefreshed m L.state.due L.state.track ss w
        → Moves m L.state v n → n ≤ m.made w → Fresh m n w → Visited m (Good m L.state v n) ss w
        → Visited m (λ u. m.clock w + 21 * m.quarter ≤ m.clock u → Stands m L.state v u) ss w }
{}

/// In windows of 5.25 refresh periods or more, a value that is not renewed dies out in one: where all that is in flight says only
/// what has a property that cuts keep, what is kept has it from the second window on.
pub fn what_is_not_renewed_dies_in_one_window<W, S, I, K, L: Key<W, S, I, K>, P: Claim<L::Value>>()
    ensures { (m : Machine W S I K) → IsClocked m → IsStamped m → KeepLaws m L.state → IsClosed L.state.below P.holds → (rs : List (List S)) (w : W) → Windows m rs w
        → Hold m 0 rs w L.state.sane → Hold m 0 rs w (SaysOnly m L.state P.holds 0) → Hold m 1 rs w (KeepsOnly m L.state P.holds) }
{}

/// One hop settles in windows, first half: where all that is sent from now on says only what has a property that cuts keep, two
/// windows on what is kept has it, and what is in flight says only that.
pub fn only_what_is_said_is_kept_in_two_windows<
    W,
    S,
    I,
    K,
    L: Key<W, S, I, K>,
    P: Claim<L::Value>,
>()
    ensures { (m : Machine W S I K) → IsClocked m → IsStamped m → KeepLaws m L.state → IsClosed L.state.below P.holds → (rs : List (List S)) (w : W) → Windows m rs w
        → Hold m 0 rs w L.state.sane → Hold m 0 rs w (SaysOnly m L.state P.holds (m.made w))
        → Hold m 2 rs w (λ u. KeepsOnly m L.state P.holds u × SaysOnly m L.state P.holds 0 u) }
{}

/// One hop settles in windows, second half: where each letter that is sent from now on says one value for a full lifetime, each that arrives
/// is taken whole, the sending node goes on refreshing, and of any three successive refreshes one arrives in time, two windows on that
/// value is kept.
pub fn what_is_refreshed_is_kept_in_two_windows<W, S, I, K, L: Key<W, S, I, K>>()
    ensures { (m : Machine W S I K) → IsClocked m → IsStamped m → DueLaws m L.state → PaceLaws m L.state → (v : L.Value) (rs : List (List S)) (w : W) → Windows m rs w
        → IsRefreshed m L.state.due L.state.track (joined rs) w → Moves m L.state v (m.made w) → Hold m 0 rs w (Good m L.state v (m.made w)) → Hold m 2 rs w (Stands m L.state v) }
{}

/// Four calm rounds make a window, so what is promised of windows alone holds in calm rounds, four for one.
pub fn four_calm_rounds_make_a_window<W, S, I, K>()
    ensures { (m : Machine W S I K) → IsStamped m → (rs : List (List S)) (w : W) → Rounds m rs w → Windows m (four_by_four rs) w }
{}

/// A small machine meets the premises of `what_is_refreshed_never_dies` with two of any three refreshes lost.
pub fn a_lamp_meets_the_premises()
    ensures { MeetsThePremises }
{}

/// Neither number can be larger: where of any four successive refreshes one arrives, or of any three one that arrives 0.75 periods
/// after it was due, what is refreshed can die.
pub fn more_loss_can_kill()
    ensures { LossCanKill }
{}

/// The lamp meets the premises of the law on two windows, with four of six refreshes lost in each, and one window is not enough.
pub fn a_lamp_settles_in_windows()
    ensures { SettlesInWindows }
{}

/// The mute beacon meets the premises of the laws on what dies out in windows, and what they exclude is there before one window has
/// passed, and after one.
pub fn a_mute_beacon_takes_the_windows()
    ensures { TakesTheWindows }
{}
