//! Parts of reservations, the three styles by their laws, and the merge of parts.
//!
//! A style is seen by its laws alone, so that what stands on them is proved once for all three. The merge of a list of
//! parts, what goes toward a hop, the book and the limits of a list of lines are definitions in `specs/`, and their laws
//! stand in `laws`. No call takes memory.
#![tactic(auto)]

mod cuts;
pub mod laws;
mod merger;
mod parts;
mod row;
mod style;
mod target;
mod upstream;
mod wall;

pub use cuts::{charge, cut};
pub use merger::Merger;
pub use parts::Parts;
pub use style::{Fixed, Shared, Style, Wild};
pub use target::Target;
pub use upstream::Upstream;
pub use wall::{UpLine, Wall};
