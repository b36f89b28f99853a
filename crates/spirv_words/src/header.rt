//! The header of a module (SPIR-V 1.6, section 2.3): magic number, version, generator, bound and schema.

use spv_form::Version;

/// The first word of each module.
pub const MAGIC: u32 = 0x0723_0203;

/// The tool that a written module names as its maker: none.
pub const GENERATOR: u32 = 0;

/// The last word of the header, which is reserved.
pub const SCHEMA: u32 = 0;

/// How many words the header has.
pub const LENGTH: usize = 5;

/// What the header of a module says of it.
#[derive(Clone, Copy, Debug)]
pub struct Header {
    pub version: Version,
    /// It is above each id.
    pub bound: u32,
}
