//! A worked row: who is advertised behind some lines, by computing.
ghost use Rattle.script_theorem.specs.AdvertRows.{ADropEndsTheAdvert};

/// By its lines a host that sends and advertises is advertised. Once it has ended that, it is not advertised, though it sends again; if it
/// advertises once more, it is.
pub fn a_drop_ends_the_advert()
    ensures { ADropEndsTheAdvert }
{}
