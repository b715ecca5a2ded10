//! Where the ADSPEC of what is offered comes from.
use adspec_path::Adspec;

/// What a Path tells of the path of its sender (RFC 2210, 3.3).
#[derive(Drop)]
pub enum Advert {
    /// Nothing.
    Silent,
    /// What its own node tells first.
    Begins,
    /// What goes on of the ADSPEC that came.
    Passes(Adspec),
}
