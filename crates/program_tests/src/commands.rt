ghost use Rattle.std.specs.Prelude.{None, ◌<◌, ◌^◌};

use crate::example::{CONTAINER, MODULE, SHARED_MERGE};
use dx_outside::{Files, MemoryFiles, MemorySink, Outage, Sink, SteadyFiles, SteadySink};
use dx_run::{Status, run};
use std::alloc::Global;
use std::process::Abort;
use std::test::Fail;

const USAGE: &[u8] =
    b"usage: translate IN OUT, translate-13 IN OUT, show IN, check IN, sample N OUT\n";

const TRANSLATED: &[u8] = b"translated 38 words\n";

const SHOWN: &[u8] = b"part DXIL at 36 size 40\nblock 8 bit 576\nrecord 1 fields 1 bit 640\n";

const TRANSLATE: [&str; 3] = ["translate", "a", "b"];

const SHOW: [&str; 2] = ["show", "a"];

const CHECK: [&str; 2] = ["check", "a"];

/// A container whose module has one record.
const SMALL: [u8; 84] = [
    0x44, 0x58, 0x42, 0x43, 0, 0, 0, 0, 0, 0, 0, 0, 0, 0, 0, 0, 0, 0, 0, 0, 1, 0, 0, 0, 0x54, 0, 0,
    0, 1, 0, 0, 0, 0x24, 0, 0, 0, 0x44, 0x58, 0x49, 0x4C, 0x28, 0, 0, 0, 0x60, 0, 5, 0, 10, 0, 0,
    0, 0x44, 0x58, 0x49, 0x4C, 0, 1, 0, 0, 0x10, 0, 0, 0, 0x10, 0, 0, 0, 0x42, 0x43, 0xC0, 0xDE,
    0x21, 0x0C, 0, 0, 1, 0, 0, 0, 0x0B, 0x82, 0, 0,
];

/// One whose module defines an abbreviation with a number of no bits and an array of characters, and has a record by it.
const ABBREVIATED: [u8; 88] = [
    0x44, 0x58, 0x42, 0x43, 0, 0, 0, 0, 0, 0, 0, 0, 0, 0, 0, 0, 0, 0, 0, 0, 1, 0, 0, 0, 0x58, 0, 0,
    0, 1, 0, 0, 0, 0x24, 0, 0, 0, 0x44, 0x58, 0x49, 0x4C, 0x2C, 0, 0, 0, 0x60, 0, 5, 0, 11, 0, 0,
    0, 0x44, 0x58, 0x49, 0x4C, 0, 1, 0, 0, 0x10, 0, 0, 0, 0x14, 0, 0, 0, 0x42, 0x43, 0xC0, 0xDE,
    0x21, 0x0C, 0, 0, 2, 0, 0, 0, 0x22, 0x05, 0x04, 0x18, 0x12, 0, 0, 0,
];

/// The fixed bytes of a container without a part, and of one with two.
const NO_PART: [u8; 32] = [
    0x44, 0x58, 0x42, 0x43, 0, 0, 0, 0, 0, 0, 0, 0, 0, 0, 0, 0, 0, 0, 0, 0, 1, 0, 0, 0, 32, 0, 0,
    0, 0, 0, 0, 0,
];

const TWO_PARTS: [u8; 40] = [
    0x44, 0x58, 0x42, 0x43, 0, 0, 0, 0, 0, 0, 0, 0, 0, 0, 0, 0, 0, 0, 0, 0, 1, 0, 0, 0, 136, 0, 0,
    0, 2, 0, 0, 0, 40, 0, 0, 0, 88, 0, 0, 0,
];

/// No call of this number is made.
const NEVER: u64 = u64::MAX;

fn words_of(alloc: Global, words: &[&str]) -> Result<Vec<String>, Fail> {
    let mut all = Vec::new(alloc);
    for word in words {
        all.push(String::from_str(alloc, *word)?)?;
    }
    Ok(all)
}

/// What a run over files in memory, of which `a` has these bytes, answers and says, and the bytes of `b` after it.
fn attempt(
    alloc: Global,
    words: &[&str],
    bytes: &[u8],
    files_fail: u64,
    sink_fails: u64,
) -> Result<(Status, Option<Vec<u8>>, MemorySink), Fail> {
    let words = words_of(alloc, words)?;
    let mut files = MemoryFiles::new(alloc, &[files_fail])?;
    files.put("a", bytes)?;
    let mut out = MemorySink::new(alloc, &[sink_fails])?;
    let status = run(alloc, words.as_slice(), &mut files, &mut out);
    let written = match files.get("b") {
        Some(bytes) => Some(bytes.to_vec(alloc)?),
        None => None,
    };
    Ok((status, written, out))
}

#[test]
fn empty_shader_has_these_words(rt: HostRuntime) -> Result<(), Fail> {
    let (status, written, out) = attempt(rt.alloc(), &TRANSLATE, &CONTAINER, NEVER, NEVER)?;
    assert_eq!(rt; status, Status::Done);
    assert_eq!(rt; out.taken(), TRANSLATED);
    let written = written.ok_or("no file")?;
    assert_eq!(rt; written.len(), 152);
    for (place, (bytes, word)) in written.as_slice().chunks(4).zip(&MODULE).enumerate() {
        assert_eq!(rt; bytes, word.to_le_bytes().as_slice(), "word {place}");
    }
    Ok(())
}

/// Which call of the files and of the sink fails, and then the status of `translate`, whether it wrote its file, and what it said.
const TRANSLATE_FAILS: [(u64, u64, Status, bool, &[u8]); 6] = [
    (0, NEVER, Status::ReadFault, false, b""),
    (1, NEVER, Status::ReadFault, false, b""),
    (2, NEVER, Status::WriteFault, false, b""),
    (3, NEVER, Status::Done, true, TRANSLATED),
    (NEVER, 0, Status::SayFault, true, b""),
    (NEVER, 1, Status::Done, true, TRANSLATED),
];

/// The same of `show`, which reads twice, never writes a file, and says its lines in one call.
const SHOW_FAILS: [(u64, u64, Status, &[u8]); 5] = [
    (0, NEVER, Status::ReadFault, b""),
    (1, NEVER, Status::ReadFault, b""),
    (2, NEVER, Status::Done, SHOWN),
    (NEVER, 0, Status::SayFault, b""),
    (NEVER, 1, Status::Done, SHOWN),
];

#[test]
fn each_call_fails_in_turn(rt: HostRuntime) -> Result<(), Fail> {
    for (files_fail, sink_fails, status, written, said) in TRANSLATE_FAILS {
        let (ended, has, out) = attempt(
            rt.alloc(),
            &TRANSLATE,
            &CONTAINER,
            files_fail,
            sink_fails,
        )?;
        assert_eq!(rt; ended, status, "files {files_fail}, sink {sink_fails}");
        assert_eq!(rt; has.map(|bytes| bytes.len()), written.then_some(152));
        assert_eq!(rt; out.taken(), said);
    }
    for (files_fail, sink_fails, status, said) in SHOW_FAILS {
        let (ended, has, out) = attempt(rt.alloc(), &SHOW, &SMALL, files_fail, sink_fails)?;
        assert_eq!(rt; ended, status, "files {files_fail}, sink {sink_fails}");
        assert!(rt; has.is_none());
        assert_eq!(rt; out.taken(), said);
    }
    Ok(())
}

const REFUSED: &[u8] = b"refused C1 bit 0\n";

/// The words, which call of the sink fails, and then the status over a file without bytes, and what was said.
const NO_BYTES: [(&[&str], u64, Status, &[u8]); 19] = [
    (&[], NEVER, Status::Usage, USAGE),
    (&["translate", "a"], NEVER, Status::Usage, USAGE),
    (&["Translate", "a", "b"], NEVER, Status::Usage, USAGE),
    (&["translate", "a", "b", "c"], NEVER, Status::Usage, USAGE),
    (&["show"], NEVER, Status::Usage, USAGE),
    (&["Show", "a"], NEVER, Status::Usage, USAGE),
    (&["show", "a", "b"], NEVER, Status::Usage, USAGE),
    (&[], 0, Status::SayFault, b""),
    (&TRANSLATE, NEVER, Status::Refused, REFUSED),
    (&TRANSLATE, 0, Status::SayFault, b""),
    (&["translate", "c", "b"], NEVER, Status::ReadFault, b""),
    (&SHOW, NEVER, Status::Refused, REFUSED),
    (&SHOW, 0, Status::SayFault, b""),
    (&["show", "c"], NEVER, Status::ReadFault, b""),
    (&["check"], NEVER, Status::Usage, USAGE),
    (&["check", "a", "b"], NEVER, Status::Usage, USAGE),
    (&CHECK, NEVER, Status::Refused, b"refused W1 word 0\n"),
    (&CHECK, 0, Status::SayFault, b""),
    (&["check", "c"], NEVER, Status::ReadFault, b""),
];

#[test]
fn other_answers_change_no_file(rt: HostRuntime) -> Result<(), Fail> {
    for (words, sink_fails, status, said) in NO_BYTES {
        let (ended, has, out) = attempt(rt.alloc(), words, b"", NEVER, sink_fails)?;
        assert_eq!(rt; ended, status, "{words:?}");
        assert!(rt; has.is_none(), "{words:?}");
        assert_eq!(rt; out.taken(), said, "{words:?}");
    }
    Ok(())
}

/// The bytes with some that are set.
fn changed(alloc: Global, bytes: &[u8], changes: &[(usize, u8)]) -> Result<Vec<u8>, Fail> {
    let mut all = bytes.to_vec(alloc)?;
    for (place, byte) in changes {
        if *place < all.len() {
            all[*place] = *byte;
        }
    }
    Ok(all)
}

/// A file's bytes, how many of them it has, those that are set, what `translate` says of it, and what `show` says, where that is something else.
type FileCase = (
    &'static [u8],
    usize,
    &'static [(usize, u8)],
    &'static [u8],
    &'static [u8],
);

const FILES: [FileCase; 12] = [
    // these two end their modules at 661 and 683 without a block 17
    (&SMALL, 84, &[], b"refused Y1 bit 661\n", SHOWN),
    (
        &ABBREVIATED,
        88,
        &[],
        b"refused Y1 bit 683\n",
        b"part DXIL at 36 size 44\nblock 8 bit 576\nrecord 2 fields 1 bit 674\n",
    ),
    (&SMALL, 83, &[], b"refused C3 bit 192\n", b""),
    (&SMALL, 83, &[(24, 83)], b"refused C5 bit 320\n", b""),
    (
        &SMALL,
        83,
        &[(24, 83), (40, 39)],
        b"refused C9 bit 480\n",
        b"",
    ),
    (&NO_PART, 32, &[], b"refused C6 bit 256\n", b""),
    (
        &CONTAINER,
        272,
        &[(56, 3), (57, 1)],
        b"refused C8 bit 448\n",
        b"",
    ),
    (&SMALL, 84, &[(68, 0)], b"refused B1 bit 544\n", b""),
    (
        &SMALL,
        84,
        &[(73, 0x10), (80, 9)],
        b"refused B3 bit 640\n",
        b"",
    ),
    (&SMALL, 84, &[(76, 2)], b"refused B5 bit 576\n", b""),
    (&SMALL, 84, &[(73, 0x04)], b"refused B8 bit 576\n", b""),
    (&SMALL, 31, &[], b"refused C1 bit 0\n", b""),
];

/// Compares what `translate` and `show` say of a file that `translate` refuses.
fn expect_lines(
    rt: &impl Abort,
    alloc: Global,
    bytes: &[u8],
    changes: &[(usize, u8)],
    translated: &[u8],
    shown: &[u8],
) -> Result<(), Fail> {
    let bytes = changed(alloc, bytes, changes)?;
    let bytes = bytes.as_slice();
    let (status, written, out) = attempt(alloc, &TRANSLATE, bytes, NEVER, NEVER)?;
    assert_eq!(rt; status, Status::Refused, "{changes:?}");
    assert!(rt; written.is_none(), "{changes:?}");
    assert_eq!(rt; out.taken(), translated, "{changes:?}");
    let (status, written, out) = attempt(alloc, &SHOW, bytes, NEVER, NEVER)?;
    let done = !shown.is_empty();
    assert_eq!(rt; status == Status::Done, done, "{changes:?}");
    assert_eq!(rt; status == Status::Refused, !done, "{changes:?}");
    assert!(rt; written.is_none(), "{changes:?}");
    assert_eq!(rt;
        out.taken(),
        if done { shown } else { translated },
        "{changes:?}"
    );
    Ok(())
}

#[test]
fn files_have_these_answers(rt: HostRuntime) -> Result<(), Fail> {
    for (bytes, length, changes, translated, shown) in FILES {
        let bytes = &bytes[..length.min(bytes.len())];
        expect_lines(&rt, rt.alloc(), bytes, changes, translated, shown)?;
    }
    Ok(())
}

#[test]
fn a_second_dxil_part_is_refused(rt: HostRuntime) -> Result<(), Fail> {
    let mut two = TWO_PARTS.to_vec(rt.alloc())?;
    two.extend_from_slice(&SMALL[36..])?;
    two.extend_from_slice(&SMALL[36..])?;
    let refused = b"refused C7 bit 288\n".as_slice();
    expect_lines(&rt, rt.alloc(), two.as_slice(), &[], refused, b"")?;
    expect_lines(&rt, rt.alloc(), two.as_slice(), &[(92, 41)], refused, b"")?;
    Ok(())
}

/// The bytes of the words, of which some are set.
fn bytes_of_words(alloc: Global, words: &[u32], changes: &[(usize, u32)]) -> Result<Vec<u8>, Fail> {
    let mut words = words.to_vec(alloc)?;
    for (place, word) in changes {
        if *place < words.len() {
            words[*place] = *word;
        }
    }
    let mut bytes = Vec::new(alloc);
    for word in words {
        bytes.extend_from_slice(&word.to_le_bytes())?;
    }
    Ok(bytes)
}

/// The words of a file, those that are set, how many bytes it has, and the status of `check` and what it says.
type WordCase = (
    &'static [u32],
    &'static [(usize, u32)],
    usize,
    Status,
    &'static [u8],
);

const WORDS: [WordCase; 9] = [
    (&MODULE, &[], 152, Status::Done, b"checked 38 words\n"),
    (
        &MODULE,
        &[(37, 0x0002_0038)],
        152,
        Status::Refused,
        b"refused W5 word 37\n",
    ),
    (
        &MODULE,
        &[(3, 4)],
        152,
        Status::Refused,
        b"refused W9 word 21\n",
    ),
    (
        &MODULE,
        &[(18, 0)],
        152,
        Status::Refused,
        b"refused V12 word 15\n",
    ),
    (&MODULE, &[], 151, Status::Refused, b"refused W1 word 0\n"),
    (&MODULE, &[(2, 7)], 152, Status::Done, b"checked 38 words\n"),
    (
        &SHARED_MERGE,
        &[],
        248,
        Status::Refused,
        b"refused S3 word 47\n",
    ),
    (
        &SHARED_MERGE,
        &[(48, 8)],
        248,
        Status::Refused,
        b"refused S10 word 50\n",
    ),
    (
        &SHARED_MERGE,
        &[(18, 0)],
        248,
        Status::Refused,
        b"refused V12 word 15\n",
    ),
];

#[test]
fn words_have_these_answers(rt: HostRuntime) -> Result<(), Fail> {
    for (words, changes, length, status, said) in WORDS {
        let bytes = bytes_of_words(rt.alloc(), words, changes)?;
        assert!(rt; length <= bytes.len());
        let (ended, written, out) = attempt(rt.alloc(), &CHECK, &bytes[..length], NEVER, NEVER)?;
        assert_eq!(rt; ended, status, "{changes:?}");
        assert!(rt; written.is_none(), "{changes:?}");
        assert_eq!(rt; out.taken(), said, "{changes:?}");
    }
    Ok(())
}

#[test]
fn a_merge_block_of_its_own_is_accepted(rt: HostRuntime) -> Result<(), Fail> {
    // the merge block of the inner selection made a block of its own, which stands before label 8
    let mut nested = SHARED_MERGE[..54].to_vec(rt.alloc())?;
    nested.extend_from_slice(&[0x0002_00F8, 10, 0x0002_00F9, 8])?;
    nested.extend_from_slice(&SHARED_MERGE[54..])?;
    let changes = [(3, 11), (48, 8), (52, 10), (53, 8)];
    let bytes = bytes_of_words(rt.alloc(), nested.as_slice(), &changes)?;
    assert_eq!(rt; bytes.len(), 264);
    let (ended, written, out) = attempt(rt.alloc(), &CHECK, bytes.as_slice(), NEVER, NEVER)?;
    assert_eq!(rt; ended, Status::Done);
    assert!(rt; written.is_none());
    assert_eq!(rt; out.taken(), b"checked 66 words\n".as_slice());
    Ok(())
}

/// Sets the four bytes from a place on, the least significant first.
fn set_number(bytes: &mut Vec<u8>, place: usize, number: u32)
    requires { place < 2 ^ 32 }
{
    for (at, byte) in number.to_le_bytes().iter().enumerate() {
        if place + at < bytes.len() {
            bytes[place + at] = *byte;
        }
    }
}

/// A file of more records than the limit, each of them three bits: the id of the one abbreviation, which is a literal 1.
fn many_records(alloc: Global) -> Result<Vec<u8>, Fail> {
    let mut bytes = SMALL[..80].to_vec(alloc)?;
    bytes.extend_from_slice(&[0x0A, 0x03, 0x48])?;
    for _ in 0..524_300 {
        bytes.extend_from_slice(&[0x92, 0x24, 0x49])?;
    }
    for (place, size) in [(24, 1_572_983), (40, 1_572_939), (64, 1_572_915)] {
        set_number(&mut bytes, place, size);
    }
    Ok(bytes)
}

#[test]
fn a_record_too_many_passes_the_limit(rt: HostRuntime) -> Result<(), Fail> {
    let bytes = many_records(rt.alloc())?;
    for words in [TRANSLATE.as_slice(), SHOW.as_slice()] {
        let (status, written, out) = attempt(rt.alloc(), words, bytes.as_slice(), NEVER, NEVER)?;
        assert_eq!(rt; status, Status::Limit, "{words:?}");
        assert!(rt; written.is_none(), "{words:?}");
        assert_eq!(rt;
            out.taken(),
            b"limit records bit 12583569\n".as_slice(),
            "{words:?}"
        );
    }
    Ok(())
}

#[test]
fn same_output_is_written_again(rt: HostRuntime) -> Result<(), Fail> {
    let words = words_of(rt.alloc(), &TRANSLATE)?;
    let mut files = MemoryFiles::new(rt.alloc(), &[2])?;
    files.put("a", &CONTAINER)?;
    let mut out = SteadySink::new(rt.alloc());
    for status in [Status::WriteFault, Status::Done, Status::Done] {
        let ended = run(rt.alloc(), words.as_slice(), &mut files, &mut out);
        assert_eq!(rt; ended, status);
    }
    assert_eq!(rt; files.get("b").map(|bytes| bytes.len()), Some(152));
    Ok(())
}

#[test]
fn missing_steady_file_is_empty(rt: HostRuntime) -> Result<(), Fail> {
    let words = words_of(rt.alloc(), &TRANSLATE)?;
    let mut files = SteadyFiles::new(rt.alloc());
    let mut out = SteadySink::new(rt.alloc());
    let status = run(rt.alloc(), words.as_slice(), &mut files, &mut out);
    assert_eq!(rt; status, Status::Refused);
    assert_eq!(rt; out.taken(), b"refused C1 bit 0\n".as_slice());
    Ok(())
}

/// A sink that takes no memory and never fails: a line of at most 96 bytes.
#[derive(Drop)]
struct LineSink {
    line: [u8; 96],
    length: usize,
}

impl Sink for LineSink {
    ghost seen = { λ s. record { taken = None; faults = 0; lacks = 0 } };

    fn write(&mut self, piece: &[u8]) -> Result<usize, Outage> {
        for byte in piece {
            if self.length < self.line.len() {
                self.line[self.length] = *byte;
                self.length += 1;
            }
        }
        Ok(piece.len())
    }
}

#[test]
fn no_words_take_no_memory(rt: HostRuntime) {
    let mut out = LineSink {
        line: [0; 96],
        length: 0,
    };
    let mut files = SteadyFiles::new(rt.alloc());
    let status = run(rt.alloc(), &[], &mut files, &mut out);
    assert_eq!(rt; status, Status::Usage);
    assert_eq!(rt; out.length, USAGE.len());
    assert_eq!(rt; &out.line[..USAGE.len()], USAGE);
}

/// One file of a length: the container, and zero bytes behind it. It tells no content.
#[derive(Drop)]
struct PaddedFile {
    length: u64,
}

impl Files for PaddedFile {
    ghost seen = { λ s. record { store = None; read_faults = λ name. 0; write_faults = λ name. 0 } };

    fn read_at(&mut self, _name: &str, at: u64, into: &mut [u8]) -> Result<usize, Outage> {
        let left = self.length.saturating_sub(at) as usize;
        let count = left.min(into.len());
        let front = &CONTAINER[CONTAINER.len().min(at as usize)..];
        let shared = front.len().min(count);
        into[..count].fill(0);
        into[..shared].copy_from_slice(&front[..shared]);
        Ok(count)
    }

    fn write_new(&mut self, _name: &str, _bytes: &[u8]) -> Result<(), Outage> {
        Ok(())
    }
}

#[test]
fn file_of_the_most_bytes_is_read(rt: HostRuntime) -> Result<(), Fail> {
    let most: u64 = 1 << 26;
    let shown = b"part DXIL at 36 size 228\nblock 8 bit 576\n".as_slice();
    let limit = b"limit file bit 0\n".as_slice();
    let table = [
        (TRANSLATE.as_slice(), most, Status::Done, TRANSLATED),
        (&TRANSLATE, most + 1, Status::Limit, limit),
        (&SHOW, most, Status::Done, shown),
        (&SHOW, most + 1, Status::Limit, limit),
    ];
    for (words, length, status, front) in table {
        let all = words_of(rt.alloc(), words)?;
        let mut out = SteadySink::new(rt.alloc());
        let ended = run(
            rt.alloc(),
            all.as_slice(),
            &mut PaddedFile { length },
            &mut out,
        );
        assert_eq!(rt; ended, status, "{words:?}, {length} bytes");
        assert!(rt; out.taken().starts_with(front), "{words:?}, {length} bytes");
    }
    Ok(())
}
