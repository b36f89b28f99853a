//! Words of whole modules.

ghost use Rattle.std.specs.Prelude.{◌≤◌, ◌^◌, length, IfOk};

use dx_base::{Bytes, List, bytes_of};
use std::alloc::{AllocError, Global};
use std::process::Abort;
use std::test::Fail;

/// Word 1 of a module, by its version.
pub const VERSION_1_3: u32 = 0x0001_0300;

pub const VERSION_1_6: u32 = 0x0001_0600;

/// The words of a shader that does nothing, with 8, 4 and 1 threads.
pub const EMPTY_SHADER: [u32; 38] = [
    0x0723_0203,
    VERSION_1_6,
    0x0000_0000,
    0x0000_0005,
    0x0000_0000,
    0x0002_0011,
    0x0000_0001,
    0x0003_000E,
    0x0000_0000,
    0x0000_0001,
    0x0005_000F,
    0x0000_0005,
    0x0000_0001,
    0x6E69_616D,
    0x0000_0000,
    0x0006_0010,
    0x0000_0001,
    0x0000_0011,
    0x0000_0008,
    0x0000_0004,
    0x0000_0001,
    0x0003_0005,
    0x0000_0004,
    0x0000_3062,
    0x0002_0013,
    0x0000_0002,
    0x0003_0021,
    0x0000_0003,
    0x0000_0002,
    0x0005_0036,
    0x0000_0002,
    0x0000_0001,
    0x0000_0000,
    0x0000_0003,
    0x0002_00F8,
    0x0000_0004,
    0x0001_00FD,
    0x0001_0038,
];

/// The words of a shader in which the selections at labels 6 and 7 have one merge block, 9. Its instructions stand on a line each from the function on.
pub const SHARED_MERGE: [u32; 62] = [
    // the header, Capability Shader, MemoryModel Logical GLSL450, EntryPoint GLCompute %1 "main", LocalSize 1 1 1
    0x0723_0203,
    VERSION_1_6,
    0,
    10,
    0,
    0x0002_0011,
    1,
    0x0003_000E,
    0,
    1,
    0x0005_000F,
    5,
    1,
    0x6E69_616D,
    0,
    0x0006_0010,
    1,
    17,
    1,
    1,
    1,
    // %2 void, %3 its function, %4 bool, %5 true
    0x0002_0013,
    2,
    0x0003_0021,
    3,
    2,
    0x0002_0014,
    4,
    0x0003_0029,
    4,
    5,
    // the function
    0x0005_0036,
    2,
    1,
    0,
    3,
    // label 6 at word 36: SelectionMerge 9, then to 7 or 9
    0x0002_00F8,
    6,
    0x0003_00F7,
    9,
    0,
    0x0004_00FA,
    5,
    7,
    9,
    // label 7 at word 45: SelectionMerge 9, then to 8 or 9
    0x0002_00F8,
    7,
    0x0003_00F7,
    9,
    0,
    0x0004_00FA,
    5,
    8,
    9,
    // label 8 at word 54, to 9
    0x0002_00F8,
    8,
    0x0002_00F9,
    9,
    // label 9 at word 58
    0x0002_00F8,
    9,
    0x0001_00FD,
    0x0001_0038,
];

/// The shader with these words changed.
pub fn changed(
    rt: &impl Abort,
    alloc: Global,
    shader: &[u32],
    changes: &[(usize, u32)],
) -> Result<Vec<u32>, AllocError> {
    let mut words = shader.to_vec(alloc)?;
    for (at, word) in changes {
        assert!(rt; *at < words.len());
        words[*at] = *word;
    }
    Ok(words)
}

/// The shader with `put` in place of `cut` words from a word on.
pub fn spliced(
    rt: &impl Abort,
    alloc: Global,
    shader: &[u32],
    at: usize,
    cut: usize,
    put: &[u32],
) -> Result<Vec<u32>, AllocError> {
    assert!(rt; at <= shader.len());
    assert!(rt; cut <= shader.len() - at);
    let mut words = shader[..at].to_vec(alloc)?;
    words.extend_from_slice(put)?;
    words.extend_from_slice(&shader[at + cut..])?;
    Ok(words)
}

/// The bytes of these words.
pub fn file_of(rt: &impl Abort, alloc: Global, words: &[u32]) -> Result<Bytes, Fail>
    ensures { IfOk result (λ bytes. length bytes ≤ 2 ^ 26) }
{
    let mut list = List::new(alloc);
    for word in words {
        list.push(*word)?;
    }
    let bytes = bytes_of(alloc, &list)?;
    assert!(rt; bytes.len() <= 1 << 26);
    Ok(bytes)
}
