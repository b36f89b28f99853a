//! What a module states of a compute shader: its types, its values and bodies, and what its metadata say.
//!
//! The definitions stand in `specs/`: the shader and the first refusal of its layers in `Shader.antt`, and the laws in `Laws.antt`.
#![tactic(auto)]

ghost use Rattle.llvm_shader.specs.Laws.{OneShader, OneRefusal, SoundHasNoRefusal};

mod read;

pub use read::{Shader, read_shader};

/// A module states at most one shader.
pub fn one_shader()
    ensures { OneShader }
{}

/// A module has at most one first refusal.
pub fn one_refusal()
    ensures { OneRefusal }
{}

/// A module of which no layer is broken has no refusal.
pub fn sound_has_no_refusal()
    ensures { SoundHasNoRefusal }
{}
