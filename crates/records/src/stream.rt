// The bytes of a mesh.
ghost use Rattle.std.specs.Prelude.{◌≤◌, length};
ghost use Rattle.answers.specs.Limits.{most_bytes};

use crate::mesh::Mesh;

// Bytes that LENGTH allows, and the mesh that they hold.
#[derive(Clone, Copy)]
pub struct Stream<'a> {
    pub bytes: &'a [u8],
    pub mesh: Mesh,
    ghost short: { length bytes.now ≤ most_bytes },
}
