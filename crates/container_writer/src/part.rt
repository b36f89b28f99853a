use dx_base::{Bytes, List};

/// A part that a container is to carry beside the shader.
#[derive(Debug, Drop)]
pub struct NewPart {
    /// The four characters of its name.
    pub name: [u8; 4],
    /// Its data.
    pub content: Bytes,
}

/// Parts in the order in which they are written.
pub type NewParts = List<NewPart>;
