//! A small container, and one that was changed at a place or two.

/// A container of one part, whose bitcode is a module block of width 3 with one record of code 1 and the field 1.
pub(crate) const SMALL: [u8; 84] = [
    0x44, 0x58, 0x42, 0x43, 0, 0, 0, 0, 0, 0, 0, 0, 0, 0, 0, 0, 0, 0, 0, 0, 1, 0, 0, 0, 0x54, 0, 0,
    0, 1, 0, 0, 0, 0x24, 0, 0, 0, 0x44, 0x58, 0x49, 0x4C, 0x28, 0, 0, 0, 0x60, 0, 5, 0, 10, 0, 0,
    0, 0x44, 0x58, 0x49, 0x4C, 0, 1, 0, 0, 0x10, 0, 0, 0, 0x10, 0, 0, 0, 0x42, 0x43, 0xC0, 0xDE,
    0x21, 0x0C, 0, 0, 1, 0, 0, 0, 0x0B, 0x82, 0, 0,
];

/// Sets bytes by their places.
pub(crate) fn change(bytes: &mut [u8], changes: &[(usize, u8)]) {
    for (place, byte) in changes {
        if *place < bytes.len() {
            bytes[*place] = *byte;
        }
    }
}
