//! A small bitstream.

/// A bitstream of a module block of width 3 with one record of code 1 and the field 1.
pub(crate) const MODULE: [u8; 16] = [
    0x42, 0x43, 0xC0, 0xDE, 0x21, 0x0C, 0, 0, 1, 0, 0, 0, 0x0B, 0x82, 0, 0,
];
