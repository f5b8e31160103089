// The kinds of body by their numbers: limits, counts and triangle lists. A seamless torus has a
// torus's.
#![tactic(auto)]

mod body;
mod capsule;
mod closed_cylinder;
mod limits;
mod ribbon;
mod topology;
mod torus;
mod tube;

pub use body::Body;
pub use capsule::Capsule;
pub use closed_cylinder::ClosedCylinder;
pub use limits::Range;
pub use ribbon::Ribbon;
pub use topology::Topology;
pub use torus::Torus;
pub use tube::Tube;
