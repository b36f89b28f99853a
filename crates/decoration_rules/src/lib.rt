//! What the decorations of a module say, and the rule of its variables and of its writes: V8.
#![tactic(auto)]

mod marks;
mod read_only;
mod resources;

pub use marks::{Decorations, Marks};
pub use read_only::{ReadOnly, written_by};
pub use resources::{Resources, is_sound_variable};
