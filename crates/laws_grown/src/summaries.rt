//! The laws.
ghost use Rattle.laws_grown.specs.Equal.{AGrownNetworkIsAsDemanded};

/// Whatever the seed, its run reports what is demanded: the last line of its summary is `equal yes`.
pub fn a_grown_network_is_as_demanded()
    ensures { AGrownNetworkIsAsDemanded }
{}
