use crate::small::MODULE;
use dx_base::{BitCursor, Bytes, List, Vbr, Words, bytes_of};
use std::test::Fail;

#[test]
fn a_small_stream_is_read_bit_by_bit(rt: HostRuntime) -> Result<(), Fail> {
    let mut cursor = BitCursor::new(&MODULE, 0, 128);
    assert_eq!(rt; cursor.fixed(32), Some(0xDEC0_4342));
    assert_eq!(rt; cursor.fixed(2), Some(1));
    assert_eq!(rt; cursor.vbr(8), Vbr::Value(8));
    assert_eq!(rt; cursor.vbr(4), Vbr::Value(3));
    assert_eq!(rt; cursor.align(), Some(()));
    assert_eq!(rt; cursor.at(), 64);
    assert_eq!(rt; cursor.fixed(32), Some(1));
    assert_eq!(rt; cursor.fixed(3), Some(3));
    assert_eq!(rt; cursor.vbr(6), Vbr::Value(1));
    assert_eq!(rt; cursor.vbr(6), Vbr::Value(1));
    assert_eq!(rt; cursor.vbr(6), Vbr::Value(1));
    assert_eq!(rt; cursor.fixed(3), Some(0));
    assert_eq!(rt; cursor.align(), Some(()));
    assert_eq!(rt; cursor.at(), 128);
    assert_eq!(rt; cursor.fixed(1), None);
    let mut other = BitCursor::new(&MODULE, 32, 128);
    assert_eq!(rt; other.forward(97), None);
    assert_eq!(rt; other.at(), 32);
    assert_eq!(rt; other.forward(64), Some(()));
    assert_eq!(rt; other.fixed(3), Some(3));
    assert_eq!(rt; other.forward(29), Some(()));
    assert_eq!(rt; other.forward(1), None);
    assert_eq!(rt; other.at(), 128);
    Ok(())
}

// A byte row, and what the number in chunks of 6 bits from bit 6 on is: two chunks of 100; thirteen chunks, the last of value 16, which are 2^64, and of
// value 15, which are 15 * 2^60; and thirteen chunks that all go on.
const CHUNKS: [([u8; 11], Vbr); 4] = [
    (
        [
            0x00, 0x39, 0x00, 0x00, 0x00, 0x00, 0x00, 0x00, 0x00, 0x00, 0x00,
        ],
        Vbr::Value(100),
    ),
    (
        [
            0x00, 0x08, 0x82, 0x20, 0x08, 0x82, 0x20, 0x08, 0x82, 0x20, 0x04,
        ],
        Vbr::Wide,
    ),
    (
        [
            0x00, 0x08, 0x82, 0x20, 0x08, 0x82, 0x20, 0x08, 0x82, 0xE0, 0x03,
        ],
        Vbr::Value(15 << 60),
    ),
    (
        [
            0x00, 0x08, 0x82, 0x20, 0x08, 0x82, 0x20, 0x08, 0x82, 0x20, 0x08,
        ],
        Vbr::End,
    ),
];

#[test]
fn numbers_in_chunks_are_wide_from_two_to_the_64(rt: HostRuntime) -> Result<(), Fail> {
    for (bytes, want) in &CHUNKS {
        let mut cursor = BitCursor::new(bytes.as_slice(), 0, 84);
        assert_eq!(rt; cursor.fixed(6), Some(0));
        assert_eq!(rt; cursor.vbr(6), *want, "in {bytes:?}");
        if *want == Vbr::Wide {
            assert_eq!(rt; cursor.pass(6), Some(()));
            assert_eq!(rt; cursor.at(), 84);
        }
    }
    Ok(())
}

#[test]
fn characters_words_and_lists(rt: HostRuntime) -> Result<(), Fail> {
    // the codes 0, 25, 26, 51, 52, 61, 62 and 63
    let bytes = [0x40, 0xA6, 0xCD, 0x74, 0xEF, 0xFF];
    let mut cursor = BitCursor::new(&bytes, 0, 48);
    for want in b"azAZ09._" {
        assert_eq!(rt; cursor.char6(), Some(*want));
    }
    assert_eq!(rt; cursor.char6(), None);

    let mut words: Words = List::new(rt.alloc());
    assert!(rt; words.push(0x0723_0203).is_ok());
    assert!(rt; words.push(1).is_ok());
    let stored: Bytes = bytes_of(rt.alloc(), &words)?;
    let want = [0x03, 0x02, 0x23, 0x07, 1, 0, 0, 0];
    assert_eq!(rt; stored.as_slice(), want.as_slice());
    assert_eq!(rt; stored.len(), 8);
    assert_eq!(rt; stored.get(3).copied(), Some(7));
    assert_eq!(rt; stored.get(8).copied(), None);
    Ok(())
}
