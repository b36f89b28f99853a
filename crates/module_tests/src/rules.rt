use crate::shader::{EMPTY_SHADER, VERSION_1_3, VERSION_1_6, changed, spliced};
use crate::structure::answer;
use spv_form::WordRule;
use std::alloc::Global;
use std::process::Abort;
use std::test::Fail;

/// The words of a shader with two buffers, the second of them read-only, an input, a variable of the group and one of the function, a selection and
/// a switch.
const SHADER: [u32; 245] = [
    // the header
    0x0723_0203,
    0x0001_0600,
    0,
    42,
    0,
    // Capability Shader, MemoryModel Logical GLSL450, EntryPoint GLCompute %1 "main", LocalSize 8 4 1
    0x0002_0011,
    1,
    0x0003_000E,
    0,
    1,
    0x0009_000F,
    5,
    1,
    0x6E69_616D,
    0,
    8,
    14,
    15,
    21,
    0x0006_0010,
    1,
    17,
    8,
    4,
    1,
    // Name of the first block
    0x0003_0005,
    22,
    12386,
    // decorations of the input, of the array, its structure and the two buffers
    0x0004_0047,
    8,
    11,
    28,
    0x0004_0047,
    11,
    6,
    4,
    0x0003_0047,
    12,
    2,
    0x0005_0048,
    12,
    0,
    35,
    0,
    0x0004_0047,
    14,
    34,
    0,
    0x0004_0047,
    14,
    33,
    0,
    0x0004_0047,
    15,
    34,
    0,
    0x0004_0047,
    15,
    33,
    1,
    0x0003_0047,
    15,
    24,
    // void, its function, integer, bool and vector
    0x0002_0013,
    2,
    0x0003_0021,
    3,
    2,
    0x0004_0015,
    4,
    32,
    0,
    0x0002_0014,
    5,
    0x0004_0017,
    6,
    4,
    3,
    // the constants 0, 64, 1 and true
    0x0004_002B,
    4,
    9,
    0,
    0x0004_002B,
    4,
    10,
    64,
    0x0004_002B,
    4,
    34,
    1,
    0x0003_0029,
    5,
    18,
    // the input
    0x0004_0020,
    7,
    1,
    6,
    0x0004_003B,
    7,
    8,
    1,
    // two buffers of one type
    0x0003_001D,
    11,
    4,
    0x0003_001E,
    12,
    11,
    0x0004_0020,
    13,
    12,
    12,
    0x0004_003B,
    13,
    14,
    12,
    0x0004_003B,
    13,
    15,
    12,
    // pointers to integers in a buffer, in the group and in the function
    0x0004_0020,
    16,
    12,
    4,
    0x0004_0020,
    33,
    4,
    4,
    0x0004_0020,
    17,
    7,
    4,
    // an array in the group
    0x0004_001C,
    19,
    4,
    10,
    0x0004_0020,
    20,
    4,
    19,
    0x0004_003B,
    20,
    21,
    4,
    // the function
    0x0005_0036,
    2,
    1,
    0,
    3,
    // the first block: a variable, a load through the second buffer, a store through the first, and a selection
    0x0002_00F8,
    22,
    0x0005_003B,
    17,
    23,
    7,
    9,
    0x0004_003D,
    6,
    24,
    8,
    0x0005_0051,
    4,
    25,
    24,
    0,
    0x0006_0041,
    16,
    26,
    15,
    9,
    25,
    0x0004_003D,
    4,
    27,
    26,
    0x0006_0041,
    16,
    28,
    14,
    9,
    25,
    0x0003_003E,
    28,
    27,
    0x0003_003E,
    23,
    27,
    0x0005_00AC,
    5,
    29,
    27,
    10,
    0x0003_00F7,
    31,
    0,
    0x0004_00FA,
    29,
    30,
    31,
    // an atomic in the group
    0x0002_00F8,
    30,
    0x0004_003D,
    4,
    35,
    23,
    0x0005_0041,
    33,
    36,
    21,
    9,
    0x0007_00EA,
    4,
    37,
    36,
    34,
    9,
    35,
    0x0002_00F9,
    31,
    // a switch
    0x0002_00F8,
    31,
    0x0004_003D,
    4,
    38,
    23,
    0x0003_00F7,
    40,
    0,
    0x0005_00FB,
    38,
    40,
    1,
    39,
    0x0002_00F8,
    39,
    0x0002_00F9,
    40,
    // the length of the first buffer, and a return
    0x0002_00F8,
    40,
    0x0005_0044,
    4,
    41,
    14,
    0,
    0x0001_00FD,
    0x0001_0038,
];

/// Words of the shader that others replace: the word from which on, how many, these, and the rule V that the module then breaks with its word, or 0 where
/// it breaks none.
const CASES: [(usize, usize, &[u32], u8, u32); 72] = [
    // a name behind a decoration
    (32, 0, &[0x0003_0005, 22, 12386], 1, 32),
    // a global variable in a block
    (155, 0, &[0x0004_003B, 20, 32, 4], 9, 10),
    // a block without terminator
    (216, 2, &[], 1, 216),
    // a function end in a block
    (155, 0, &[0x0001_0038], 1, 155),
    // a variable of the function among the global ones
    (143, 0, &[0x0005_003B, 17, 32, 7, 9], 1, 143),
    // a label behind the function
    (245, 0, &[0x0002_00F8, 32], 1, 245),
    // no function end
    (244, 1, &[], 1, 5),
    // another capability
    (5, 2, &[0x0002_0011, 2], 2, 5),
    // no memory model
    (7, 3, &[], 2, 5),
    // a second size
    (25, 0, &[0x0006_0010, 1, 17, 8, 4, 1], 2, 25),
    // another execution model
    (
        10,
        9,
        &[0x0009_000F, 4, 1, 0x6E69_616D, 0, 8, 14, 15, 21],
        2,
        10,
    ),
    // another mode
    (19, 6, &[0x0006_0010, 1, 18, 8, 4, 1], 2, 19),
    // an id that is defined twice
    (90, 0, &[0x0004_002B, 4, 9, 7], 3, 90),
    // a name of an id that is not defined
    (28, 0, &[0x0003_0005, 32, 12386], 4, 28),
    // a type that is used before it
    (63, 0, &[0x0004_0017, 32, 4, 4], 4, 63),
    // a result that is used in another block
    (224, 0, &[0x0003_003E, 23, 27], 4, 224),
    // a result that uses itself
    (191, 0, &[0x0005_0080, 4, 32, 32, 9], 4, 191),
    // an integer of 16 bits
    (143, 0, &[0x0004_0015, 32, 16, 0], 5, 143),
    // a signed integer
    (143, 0, &[0x0004_0015, 32, 32, 1], 5, 143),
    // a vector of 2
    (143, 0, &[0x0004_0017, 32, 4, 2], 5, 143),
    // an array of vectors of 3
    (143, 0, &[0x0003_001D, 32, 6], 5, 143),
    // a structure of two arrays
    (143, 0, &[0x0004_001E, 32, 11, 11], 5, 143),
    // a pointer to a constant
    (143, 0, &[0x0004_0020, 32, 7, 9], 5, 143),
    // a function with a parameter
    (143, 0, &[0x0004_0021, 32, 2, 4], 5, 143),
    // a vector of 4
    (143, 0, &[0x0004_0017, 32, 4, 4], 0, 0),
    // a sum of a bool
    (191, 0, &[0x0005_0080, 4, 32, 27, 18], 6, 191),
    // a compare to an integer
    (191, 0, &[0x0005_00AA, 4, 32, 27, 27], 6, 191),
    // a store of a bool
    (191, 0, &[0x0003_003E, 28, 18], 6, 191),
    // a load of another type
    (191, 0, &[0x0004_003D, 5, 32, 26], 6, 191),
    // a structure's member 1
    (191, 0, &[0x0006_0041, 16, 32, 14, 34, 25], 6, 191),
    // a chain to another storage class
    (191, 0, &[0x0006_0041, 33, 32, 14, 9, 25], 6, 191),
    // a chain without a base
    (191, 0, &[0x0003_0041, 16, 32], 6, 191),
    // a component past the vector
    (191, 0, &[0x0005_0051, 4, 32, 24, 3], 6, 191),
    // a scope that is no constant
    (191, 0, &[0x0004_00E0, 34, 27, 9], 6, 191),
    // a merge block that is no label
    (191, 3, &[0x0003_00F7, 23, 0], 6, 191),
    // a condition that is no bool
    (194, 4, &[0x0004_00FA, 27, 30, 31], 6, 194),
    // a case that is no label
    (227, 5, &[0x0005_00FB, 38, 40, 1, 23], 6, 227),
    // a length that is a bool
    (238, 5, &[0x0005_0044, 5, 41, 14, 0], 6, 238),
    // a length of member 1
    (238, 5, &[0x0005_0044, 4, 41, 14, 1], 6, 238),
    // a length of what is no pointer
    (238, 5, &[0x0005_0044, 4, 41, 9, 0], 6, 238),
    // a length of what is no structure
    (238, 5, &[0x0005_0044, 4, 41, 21, 0], 6, 238),
    // a length of a structure of an array of 64
    (101, 3, &[0x0004_001C, 11, 4, 10], 6, 239),
    // a pointer type that is declared twice
    (143, 0, &[0x0004_0020, 32, 12, 4], 7, 143),
    // void twice
    (143, 0, &[0x0002_0013, 32], 7, 143),
    // an array type that is declared twice
    (143, 0, &[0x0003_001D, 32, 4], 0, 0),
    // a buffer without a binding
    (48, 4, &[], 8, 107),
    // a binding without a number
    (56, 4, &[0x0003_0047, 15, 33], 8, 114),
    // two buffers of one set and binding
    (56, 4, &[0x0004_0047, 15, 33, 0], 8, 111),
    // a structure that is no block
    (36, 3, &[], 8, 108),
    // a structure without an offset
    (39, 5, &[], 8, 106),
    // an array of stride 8
    (32, 4, &[0x0004_0047, 11, 6, 8], 8, 111),
    // an array of stride 16
    (32, 4, &[0x0004_0047, 11, 6, 16], 0, 0),
    // an input of another built-in
    (28, 4, &[0x0004_0047, 8, 11, 24], 8, 97),
    // a store to a buffer that may not be written
    (180, 3, &[0x0003_003E, 26, 27], 8, 180),
    // an atomic there
    (191, 0, &[0x0007_00EA, 4, 32, 26, 34, 9, 27], 8, 191),
    // a store there through a second chain
    (
        191,
        0,
        &[0x0004_0041, 16, 32, 26, 0x0003_003E, 32, 27],
        8,
        195,
    ),
    // a variable that is not listed
    (
        10,
        9,
        &[0x0008_000F, 5, 1, 0x6E69_616D, 0, 8, 14, 15],
        9,
        10,
    ),
    // a variable that is listed twice
    (
        10,
        9,
        &[0x000A_000F, 5, 1, 0x6E69_616D, 0, 8, 14, 15, 21, 8],
        9,
        10,
    ),
    // a list of more than variables
    (
        10,
        9,
        &[0x000B_000F, 5, 1, 0x6E69_616D, 0, 21, 15, 9, 9, 14, 8],
        0,
        0,
    ),
    // an entry point that is no function
    (
        10,
        9,
        &[0x0009_000F, 5, 22, 0x6E69_616D, 0, 8, 14, 15, 21],
        10,
        10,
    ),
    // a constant with the id of the function
    (143, 0, &[0x0004_002B, 4, 1, 7], 3, 147),
    // a variable behind a load
    (159, 0, &[0x0005_003B, 17, 32, 7, 9], 11, 159),
    // a variable without an initializer
    (150, 5, &[0x0004_003B, 17, 23, 7], 11, 150),
    // a variable in the second block
    (200, 0, &[0x0005_003B, 17, 32, 7, 9], 11, 200),
    // a global variable with an initializer
    (143, 0, &[0x0005_003B, 33, 32, 4, 9], 9, 10),
    // no threads
    (19, 6, &[0x0006_0010, 1, 17, 0, 4, 1], 12, 19),
    // too many in a row
    (19, 6, &[0x0006_0010, 1, 17, 1025, 1, 1], 12, 19),
    // in a column
    (19, 6, &[0x0006_0010, 1, 17, 1, 1025, 1], 12, 19),
    // in depth
    (19, 6, &[0x0006_0010, 1, 17, 1, 1, 65], 12, 19),
    // in all
    (19, 6, &[0x0006_0010, 1, 17, 512, 3, 1], 12, 19),
    // 1024 threads
    (19, 6, &[0x0006_0010, 1, 17, 16, 1, 64], 0, 0),
    // no block
    (148, 96, &[], 10, 5),
];

/// Entry points of the shader, whose input is 8, in a module of version 1.3, and whether they break no rule.
const ENTRY_POINTS: [(&[u32], bool); 6] = [
    // the input alone
    (&[0x0006_000F, 5, 1, 0x6E69_616D, 0, 8], true),
    // nothing
    (&[0x0005_000F, 5, 1, 0x6E69_616D, 0], false),
    // the input twice
    (&[0x0007_000F, 5, 1, 0x6E69_616D, 0, 8, 8], false),
    // the input and a buffer
    (&[0x0007_000F, 5, 1, 0x6E69_616D, 0, 8, 14], false),
    // the input and a constant
    (&[0x0007_000F, 5, 1, 0x6E69_616D, 0, 8, 9], false),
    // all global variables
    (&[0x0009_000F, 5, 1, 0x6E69_616D, 0, 8, 14, 15, 21], false),
];

/// The answer for the shader of a version with other words in place of so many from a word on.
fn answer_with(
    rt: &impl Abort,
    alloc: Global,
    version: u32,
    at: usize,
    cut: usize,
    put: &[u32],
) -> Result<Option<(WordRule, u32)>, Fail> {
    let mut words = spliced(rt, alloc, &SHADER, at, cut, put)?;
    assert!(rt; words.len() > 1);
    words[1] = version;
    answer(rt, alloc, words.as_slice())
}

#[test]
fn sound_modules_pass(rt: HostRuntime) -> Result<(), Fail> {
    let mut words = EMPTY_SHADER;
    for version in [VERSION_1_3, VERSION_1_6] {
        words[1] = version;
        assert_eq!(rt; answer(&rt, rt.alloc(), &words)?, None);
    }
    Ok(())
}

#[test]
fn each_rule_has_its_word(rt: HostRuntime) -> Result<(), Fail> {
    for (at, cut, put, rule, word) in CASES {
        let want = if rule == 0 {
            None
        } else {
            Some((WordRule::V(rule), word))
        };
        let found = answer_with(&rt, rt.alloc(), VERSION_1_6, at, cut, put)?;
        assert_eq!(rt; found, want, "rule {rule} at word {word}");
    }
    Ok(())
}

#[test]
fn inputs_alone_are_listed_at_version_1_3(rt: HostRuntime) -> Result<(), Fail> {
    for (put, sound) in ENTRY_POINTS {
        let want = if sound {
            None
        } else {
            Some((WordRule::V(9), 10))
        };
        let found = answer_with(&rt, rt.alloc(), VERSION_1_3, 10, 9, put)?;
        assert_eq!(rt; found, want, "{put:?}");
    }
    Ok(())
}

#[test]
fn the_least_word_and_number_answer(rt: HostRuntime) -> Result<(), Fail> {
    let changes: [(&[(usize, u32)], u8, u32); 7] = [
        // no threads
        (&[(18, 0)], 12, 15),
        // and behind them another capability
        (&[(18, 0), (6, 2)], 2, 5),
        // a bound that is too high, and another capability
        (&[(3, 4_194_304), (6, 2)], 13, 3),
        // the greatest bound, and no threads
        (&[(3, 4_194_303), (18, 0)], 12, 15),
        // another mode and no threads, at one word
        (&[(17, 18), (18, 0)], 2, 15),
        // a return in place of the function end, and another capability
        (&[(37, 0x0001_00FD), (6, 2)], 1, 5),
        // a second memory model in place of the name, in another place than its own
        (&[(21, 0x0003_000E), (22, 0), (23, 1)], 1, 21),
    ];
    for (change, rule, word) in changes {
        let words = changed(&rt, rt.alloc(), &EMPTY_SHADER, change)?;
        let found = answer(&rt, rt.alloc(), words.as_slice())?;
        assert_eq!(rt; found, Some((WordRule::V(rule), word)), "rule {rule}");
    }
    Ok(())
}

/// The answer for a shader whose first block has so many merge instructions that name one block.
fn answer_of_merges(
    rt: &impl Abort,
    alloc: Global,
    count: u32,
) -> Result<Option<(WordRule, u32)>, Fail> {
    let mut words = EMPTY_SHADER[..36].to_vec(alloc)?;
    words[3] = 6;
    for _ in 0..count {
        words.extend_from_slice(&[0x0003_00F7, 5, 0])?;
    }
    words.extend_from_slice(&[0x0002_00F9, 5, 0x0002_00F8, 5, 0x0001_00FD, 0x0001_0038])?;
    answer(rt, alloc, words.as_slice())
}

#[test]
fn merges_that_wait_have_a_limit(rt: HostRuntime) -> Result<(), Fail> {
    // these many break no rule V
    assert_eq!(rt;
        answer_of_merges(&rt, rt.alloc(), 1023)?,
        Some((WordRule::S(2), 36))
    );
    assert_eq!(rt;
        answer_of_merges(&rt, rt.alloc(), 1024)?,
        Some((WordRule::V(14), 36 + 3 * 1023))
    );
    Ok(())
}

/// The answer for the shader with so many pairs in its switch.
fn answer_of_pairs(
    rt: &impl Abort,
    alloc: Global,
    count: u32,
) -> Result<Option<(WordRule, u32)>, Fail> {
    assert!(rt; count < 20_000);
    let mut put = [(3 + 2 * count) << 16 | 251, 38, 40].to_vec(alloc)?;
    for number in 0..count {
        put.extend_from_slice(&[number, 39])?;
    }
    answer_with(rt, alloc, VERSION_1_6, 227, 5, put.as_slice())
}

#[test]
fn pairs_have_a_limit(rt: HostRuntime) -> Result<(), Fail> {
    assert_eq!(rt; answer_of_pairs(&rt, rt.alloc(), 16_383)?, None);
    assert_eq!(rt;
        answer_of_pairs(&rt, rt.alloc(), 16_384)?,
        Some((WordRule::V(15), 227))
    );
    Ok(())
}
