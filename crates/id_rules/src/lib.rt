//! The rules of ids: definitions V3, uses V4 and types that are declared twice V7.
#![tactic(auto)]

mod blocks;
mod declared;
mod uses;

pub use blocks::Blocks;
pub use declared::Declared;
pub use uses::{is_defined_again, misuses};
