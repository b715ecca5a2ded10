//! What laws range over: claims, and keys at a hop.
ghost use Rattle.calm_rounds.specs.SoftStates.{SoftState};

/// A claim about worlds, about values, or about anything else.
pub trait Claim<T> {
    /// The claim.
    ghost holds: { T → Type 0 };
}

/// A key at a hop of a machine with worlds `W`, steps `S`, items `I` and tracks `K`.
pub trait Key<W, S, I, K> {
    /// What is kept under the key.
    type Value;

    /// What is read of the key.
    ghost state: { SoftState W S I K Self.Value };
}
