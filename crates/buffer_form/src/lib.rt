//! What the words of a program's module look like where buffers and groupshared arrays are declared, as a theorem.
//!
//! The function does nothing: its contract states the theorem, which stands in `specs/Buffers.antt`.
#![tactic(auto)]

ghost use Rattle.buffer_form.specs.Buffers.{ModulesHaveBuffers};

/// Each variable of a buffer is over its resource's layout, with its set and binding, and groupshared arrays stand in their order.
pub fn module_has_buffers()
    ensures { ModulesHaveBuffers }
{}
