//! Laws of the service of a stream.
ghost use Rattle.node_stream.specs.Laws.{OneEnding};

/// Over the same bytes, service that ends neither by a fault of a device nor out of memory comes to one ending and one text.
#[tactic(auto, using(crate::proofs::Coming::one_ending))]
pub fn one_ending()
    ensures { OneEnding }
{}
