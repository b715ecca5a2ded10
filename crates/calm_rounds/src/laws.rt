//! The laws of calm rounds.
ghost use Rattle.std.specs.Prelude.{◌≡◌, ◌≤◌, ◌+◌, ◌*◌, ℕ, List, Some, length, true};
ghost use Rattle.calm_rounds.specs.Machine.{Machine, IsClocked, IsStamped, Fresh, Happens};
ghost use Rattle.calm_rounds.specs.Rounds.{Calm, Rounds, run_rounds};
ghost use Rattle.calm_rounds.specs.Hold.{Visited, Hold, Keep};
ghost use Rattle.calm_rounds.specs.SoftStates.{KeepLaws, DueLaws, IsClosed, SaysOnly, KeepsOnly, Stands, Good, Moves};
ghost use Rattle.calm_rounds.specs.Beacon.{MeetsThePremises, TakesTheRounds};

use crate::claims::{Claim, Key};

/// What holds may be weakened.
pub fn hold_map<W, S, I, K, Q: Claim<W>, R: Claim<W>>()
    ensures { (m : Machine W S I K) → ((u : W) → Q.holds u → R.holds u) → (k : ℕ) (rs : List (List S)) (w : W) → Hold m k rs w Q.holds → Hold m k rs w R.holds }
{}

/// Two claims that hold from one round on hold together from it on.
pub fn hold_both<W, S, I, K, Q: Claim<W>, R: Claim<W>>()
    ensures { (m : Machine W S I K) (k : ℕ) (rs : List (List S)) (w : W) → Hold m k rs w Q.holds → Hold m k rs w R.holds → Hold m k rs w (λ u. Q.holds u × R.holds u) }
{}

/// A claim that holds from one round on for each value of a type holds from it on for all of them at once.
pub fn hold_all<W, S, I, K, A, Q: Claim<(A, W)>>()
    ensures { (m : Machine W S I K) (k : ℕ) (rs : List (List S)) (w : W) → ((a : A) → Hold m k rs w (λ u. Q.holds (a, u))) → Hold m k rs w (λ u. (a : A) → Q.holds (a, u)) }
{}

/// What holds from one round on holds from each later round on.
pub fn hold_later<W, S, I, K, Q: Claim<W>>()
    ensures { (m : Machine W S I K) (k n : ℕ) (rs : List (List S)) (w : W) → k ≤ n → Hold m k rs w Q.holds → Hold m n rs w Q.holds }
{}

/// Where a claim gives another one `n` rounds later, and holds from the `k`-th round on, the other holds from the
/// (`k` + `n`)-th round on.
pub fn hold_stack<W, S, I, K, Q: Claim<W>, R: Claim<W>>()
    ensures { (m : Machine W S I K) (k n : ℕ) → ((rs : List (List S)) (w : W) → Rounds m rs w → Hold m 0 rs w Q.holds → Hold m n rs w R.holds)
        → (rs : List (List S)) (w : W) → Rounds m rs w → Hold m k rs w Q.holds → Hold m (k + n) rs w R.holds }
{}

/// What each quiet step keeps, between worlds of which another claim is known, holds from its first world on.
pub fn hold_keep<W, S, I, K, Q: Claim<W>, J: Claim<W>>()
    ensures { (m : Machine W S I K) → Keep m Q.holds J.holds → (rs : List (List S)) (w : W) → Rounds m rs w → Hold m 0 rs w Q.holds → J.holds w → Hold m 0 rs w J.holds }
{}

/// What each quiet step keeps holds from its first world on.
pub fn hold_always<W, S, I, K, J: Claim<W>>()
    ensures { (m : Machine W S I K) → ((s : S) (u : W) → m.quiet s ≡ true → J.holds u → J.holds (m.step s u)) → (rs : List (List S)) (w : W) → Rounds m rs w → J.holds w → Hold m 0 rs w J.holds }
{}

/// What holds from one round on holds of the last world, where there are at least as many rounds.
pub fn hold_end<W, S, I, K, Q: Claim<W>>()
    ensures { (m : Machine W S I K) (k : ℕ) (rs : List (List S)) (w : W) → k ≤ length rs → Hold m k rs w Q.holds → Q.holds (run_rounds m rs w) }
{}

/// Each round takes six quarters of a refresh period at least.
pub fn hold_clock<W, S, I, K>()
    ensures { (m : Machine W S I K) → IsClocked m → (k : ℕ) (rs : List (List S)) (w : W) → Rounds m rs w → Hold m k rs w (λ u. m.clock w + 6 * m.quarter * k ≤ m.clock u) }
{}

/// After one round nothing is in flight that was sent before it.
pub fn hold_flush<W, S, I, K>()
    ensures { (m : Machine W S I K) → IsStamped m → (rs : List (List S)) (w : W) → Rounds m rs w → Hold m 1 rs w (Fresh m (m.made w)) }
{}

/// A value that is not renewed dies out: where all that is in flight says only what has a property that cuts keep, from the
/// fourth round on what is kept has it.
pub fn dies_out<W, S, I, K, L: Key<W, S, I, K>, P: Claim<L::Value>>()
    ensures { (m : Machine W S I K) → IsClocked m → IsStamped m → KeepLaws m L.state → IsClosed L.state.below P.holds → (rs : List (List S)) (w : W) → Rounds m rs w
        → Hold m 0 rs w L.state.sane → Hold m 0 rs w (SaysOnly m L.state P.holds 0) → Hold m 4 rs w (KeepsOnly m L.state P.holds) }
{}

/// One hop settles, first half: where all that is sent from now on says only what has a property that cuts keep, from the
/// fifth round on what is kept has it, and what is in flight says only that.
pub fn only_what_is_said_is_kept<W, S, I, K, L: Key<W, S, I, K>, P: Claim<L::Value>>()
    ensures { (m : Machine W S I K) → IsClocked m → IsStamped m → KeepLaws m L.state → IsClosed L.state.below P.holds → (rs : List (List S)) (w : W) → Rounds m rs w
        → Hold m 0 rs w L.state.sane → Hold m 0 rs w (SaysOnly m L.state P.holds (m.made w))
        → Hold m 5 rs w (λ u. KeepsOnly m L.state P.holds u × SaysOnly m L.state P.holds 0 u) }
{}

/// A refresh comes due in every calm round in which the sending node has a moment for it in each world.
pub fn comes_due<W, S, I, K, L: Key<W, S, I, K>>()
    ensures { (m : Machine W S I K) → IsClocked m → DueLaws m L.state → (r : List S) (w : W) → Calm m r w
        → Visited m L.state.sane r w → Visited m (λ u. (t : ℕ) × (L.state.due u ≡ Some t)) r w → Happens m L.state.fires r w }
{}

/// One hop settles, second half: where each refresh says one value, and is taken, from the second round on that value is
/// kept.
pub fn what_is_said_is_kept<W, S, I, K, L: Key<W, S, I, K>>()
    ensures { (m : Machine W S I K) → IsClocked m → IsStamped m → DueLaws m L.state → 1 ≤ m.quarter → (v : L.Value) (rs : List (List S)) (w : W) → Rounds m rs w
        → Moves m L.state v (m.made w) → Hold m 0 rs w (Good m L.state v (m.made w)) → Hold m 2 rs w (Stands m L.state v) }
{}

/// A small machine meets the premises of these laws, and at its start what they promise does not hold yet. For
/// `what_is_said_is_kept` one round is not enough.
pub fn a_beacon_meets_the_premises()
    ensures { MeetsThePremises }
{}

/// Fewer rounds are not enough: a mute beacon meets the premises of `dies_out` and of `only_what_is_said_is_kept`, and what
/// they exclude is kept after three and after four rounds.
pub fn a_mute_beacon_takes_the_rounds()
    ensures { TakesTheRounds }
{}
