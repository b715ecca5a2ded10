//! The words of a seed.
ghost use Rattle.std.specs.Prelude.{◌≡◌};
ghost use Rattle.network_model.specs.Steps.{next_state, word_of_state};

/// Random words, one after another (a linear congruential generator).
#[derive(Drop)]
pub(crate) struct Words {
    state: u64,
}

impl Words {
    /// The words that start at a seed.
    pub(crate) fn new(seed: u64) -> Words
        ensures { result.state ≡ seed }
    {
        Words { state: seed }
    }

    /// The next word.
    pub(crate) fn next(&mut self) -> u32
        ensures state { self.new.state ≡ next_state self.old.state }
        ensures word { result ≡ word_of_state self.new.state }
    {
        self.state = self
            .state
            .wrapping_mul(6_364_136_223_846_793_005)
            .wrapping_add(1_442_695_040_888_963_407);
        (self.state >> 32) as u32
    }
}
