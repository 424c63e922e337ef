// The layout test, the shape of each mesh type's records, and the raw readers.
#![tactic(auto)]

pub mod layout;
pub mod mesh;
mod meshes;
pub mod raw;
pub mod shape;
mod stream;
