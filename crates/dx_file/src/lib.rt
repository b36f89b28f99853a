//! What a whole file carries: the parts of its container, and the items of the bitcode in it.
//!
//! The definitions stand in `specs/`: what a file carries and its first refusal in `Layers.antt`, what the reading answers in `Reading.antt`, and the laws in `Laws.antt`.
#![tactic(auto)]

ghost use Rattle.dx_file.specs.Laws.{OneContent, OneRefusal, ContentHasNoRefusal};

mod read;

pub use read::{File, read_file};

/// A file carries at most one content.
pub fn one_content()
    ensures { OneContent }
{}

/// A file has at most one first refusal.
pub fn one_refusal()
    ensures { OneRefusal }
{}

/// A file that carries a content has no refusal.
pub fn content_has_no_refusal()
    ensures { ContentHasNoRefusal }
{}
