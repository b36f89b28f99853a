use crate::shader::{
    EMPTY_SHADER, SHARED_MERGE, VERSION_1_3, VERSION_1_6, changed, file_of, spliced,
};
use spirv_words::{read_module, write_module};
use spv_form::{CheckFault, WordRule, shape_of};
use std::alloc::Global;
use std::process::Abort;
use std::test::Fail;

/// Any number of operands may follow.
const MANY: u16 = u16::MAX;

/// Of each opcode the least and the greatest count of its operand words, and the bits of those that are no ids.
///
/// A string is one word here, and a switch stands with no pair, with one and with two.
const OPERANDS: [(u16, u16, u16, u16); 80] = [
    (5, 2, 2, 0b10),
    (14, 2, 2, 0b11),
    (15, 3, MANY, 0b101),
    (16, 5, 5, 0b11110),
    (17, 1, 1, 0b1),
    (19, 1, 1, 0),
    (20, 1, 1, 0),
    (21, 3, 3, 0b110),
    (23, 3, 3, 0b100),
    (28, 3, 3, 0),
    (29, 2, 2, 0),
    (30, 1, MANY, 0),
    (32, 3, 3, 0b010),
    (33, 1, MANY, 0),
    (41, 2, 2, 0),
    (42, 2, 2, 0),
    (43, 3, 3, 0b100),
    (54, 4, 4, 0b0100),
    (56, 0, 0, 0),
    (59, 3, 4, 0b0100),
    (61, 3, 3, 0),
    (62, 2, 2, 0),
    (65, 2, MANY, 0),
    (68, 4, 4, 0b1000),
    (71, 2, 3, 0b110),
    (72, 4, 4, 0b1110),
    (81, 4, 4, 0b1000),
    (128, 4, 4, 0),
    (130, 4, 4, 0),
    (132, 4, 4, 0),
    (134, 4, 4, 0),
    (135, 4, 4, 0),
    (137, 4, 4, 0),
    (138, 4, 4, 0),
    (164, 4, 4, 0),
    (165, 4, 4, 0),
    (166, 4, 4, 0),
    (167, 4, 4, 0),
    (168, 3, 3, 0),
    (169, 5, 5, 0),
    (170, 4, 4, 0),
    (171, 4, 4, 0),
    (172, 4, 4, 0),
    (173, 4, 4, 0),
    (174, 4, 4, 0),
    (175, 4, 4, 0),
    (176, 4, 4, 0),
    (177, 4, 4, 0),
    (178, 4, 4, 0),
    (179, 4, 4, 0),
    (194, 4, 4, 0),
    (195, 4, 4, 0),
    (196, 4, 4, 0),
    (197, 4, 4, 0),
    (198, 4, 4, 0),
    (199, 4, 4, 0),
    (204, 3, 3, 0),
    (205, 3, 3, 0),
    (224, 3, 3, 0),
    (225, 2, 2, 0),
    (229, 6, 6, 0),
    (230, 8, 8, 0),
    (234, 6, 6, 0),
    (235, 6, 6, 0),
    (236, 6, 6, 0),
    (237, 6, 6, 0),
    (238, 6, 6, 0),
    (239, 6, 6, 0),
    (240, 6, 6, 0),
    (241, 6, 6, 0),
    (242, 6, 6, 0),
    (246, 3, 3, 0b100),
    (247, 2, 2, 0b10),
    (248, 1, 1, 0),
    (249, 1, 1, 0),
    (250, 3, 3, 0),
    (251, 2, 2, 0),
    (251, 4, 4, 0b0100),
    (251, 6, 6, 0b010100),
    (253, 0, 0, 0),
];

/// The refusal of the first so many bytes of these words; None where they are read.
fn refusal(
    rt: &impl Abort,
    alloc: Global,
    words: &[u32],
    count: usize,
) -> Result<Option<(WordRule, u32)>, Fail> {
    let file = file_of(rt, alloc, words)?;
    let whole = file.as_slice();
    assert!(rt; count <= whole.len());
    match read_module(alloc, &whole[..count]) {
        Ok(_) => Ok(None),
        Err(CheckFault::Refused { rule, word }) => Ok(Some((rule, word))),
        Err(fault) => Err(fault.into()),
    }
}

/// The refusal of a module with bound 2 and one instruction, whose operands are 1 but for one that is 2.
fn refusal_of(
    rt: &impl Abort,
    alloc: Global,
    opcode: u16,
    count: u16,
    two: u16,
) -> Result<Option<(WordRule, u32)>, Fail> {
    let mut words = [0x0723_0203, 0x0001_0600, 0, 2, 0].to_vec(alloc)?;
    assert!(rt; count < 100);
    words.push((u32::from(count) + 1) << 16 | u32::from(opcode))?;
    for at in 0..count {
        words.push(if at == two { 2 } else { 1 })?;
    }
    assert!(rt; words.len() < 1000);
    refusal(rt, alloc, words.as_slice(), 4 * words.len())
}

fn is_read_and_written_again(rt: &impl Abort, alloc: Global, words: &[u32]) -> Result<(), Fail> {
    let file = file_of(rt, alloc, words)?;
    let module = read_module(alloc, file.as_slice())?;
    let written = write_module(alloc, &module)?;
    assert_eq!(rt; written.as_slice(), words);
    Ok(())
}

#[test]
fn modules_are_read_and_written_again(rt: HostRuntime) -> Result<(), Fail> {
    is_read_and_written_again(&rt, rt.alloc(), &EMPTY_SHADER)?;
    let mut words = EMPTY_SHADER;
    words[1] = VERSION_1_3;
    is_read_and_written_again(&rt, rt.alloc(), &words)?;
    is_read_and_written_again(&rt, rt.alloc(), &SHARED_MERGE)
}

#[test]
fn a_changed_word_breaks_a_rule(rt: HostRuntime) -> Result<(), Fail> {
    let changes = [
        // the magic number, the version and the schema
        (0, 0x0302_2307, 2, 0),
        (1, 0x0001_0500, 3, 1),
        (1, 0x0001_0400, 3, 1),
        (4, 1, 4, 4),
        // a size that passes the end, and no size
        (37, 0x0002_0038, 5, 37),
        (36, 0x0000_00FD, 5, 36),
        // an opcode that is not listed
        (36, 0x0001_00FE, 6, 36),
        // a result, a string and a type that are missing
        (24, 0x0001_0013, 7, 24),
        (21, 0x0002_0005, 7, 21),
        (29, 0x0004_0036, 7, 29),
        // words behind a name
        (21, 0x0005_0005, 7, 21),
        // a name without end, and one with a byte behind its end
        (23, 0x6262_6262, 8, 21),
        (23, 0x6200_3062, 8, 21),
        // an id of 0, one at the bound, and a bound below an id
        (25, 0, 9, 24),
        (25, 5, 9, 24),
        (3, 4, 9, 21),
        (3, 0, 9, 10),
    ];
    for (at, word, rule, place) in changes {
        let words = changed(&rt, rt.alloc(), &EMPTY_SHADER, &[(at, word)])?;
        assert_eq!(rt;
            refusal(&rt, rt.alloc(), words.as_slice(), 152)?,
            Some((WordRule::W(rule), place)),
            "word {at}"
        );
    }
    Ok(())
}

#[test]
fn the_least_rule_answers_at_one_word(rt: HostRuntime) -> Result<(), Fail> {
    let cases: [(&[u32], u8); 5] = [
        // an opcode that is not listed, and a size that passes the end
        (&[0x0004_00FE, 1, 1], 5),
        (&[0x0003_00FE, 0, 0], 6),
        // a type whose id is 0, with a word too many
        (&[0x0003_0013, 0, 0], 7),
        // a name whose id is 0, with a byte behind its end, and with a word too many
        (&[0x0003_0005, 0, 0x6200_3062], 8),
        (&[0x0004_0005, 0, 0x6200_3062, 0], 7),
    ];
    for (inst, rule) in cases {
        let words = spliced(
            &rt,
            rt.alloc(),
            &[0x0723_0203, VERSION_1_6, 0, 2, 0],
            5,
            0,
            inst,
        )?;
        assert_eq!(rt;
            refusal(&rt, rt.alloc(), words.as_slice(), 4 * (5 + inst.len()))?,
            Some((WordRule::W(rule), 5)),
            "rule {rule}"
        );
    }
    Ok(())
}

#[test]
fn bytes_that_are_no_words_break_the_first_rule(rt: HostRuntime) -> Result<(), Fail> {
    for count in [0, 16, 19, 151] {
        assert_eq!(rt;
            refusal(&rt, rt.alloc(), &EMPTY_SHADER, count)?,
            Some((WordRule::W(1), 0)),
            "{count} bytes"
        );
    }
    assert_eq!(rt; refusal(&rt, rt.alloc(), &EMPTY_SHADER, 20)?, None);
    Ok(())
}

#[test]
fn each_opcode_takes_its_operands(rt: HostRuntime) -> Result<(), Fail> {
    let alloc = rt.alloc();
    let misfit = Some((WordRule::W(7), 5));
    for (opcode, least, most, plain) in OPERANDS {
        assert!(rt; least < 16);
        assert_eq!(rt;
            refusal_of(&rt, alloc, opcode, least, MANY)?,
            None,
            "least of {opcode}"
        );
        if least > 0 {
            assert_eq!(rt;
                refusal_of(&rt, alloc, opcode, least - 1, MANY)?,
                misfit,
                "less than {opcode}"
            );
        }
        if most == MANY {
            assert_eq!(rt;
                refusal_of(&rt, alloc, opcode, least + 9, MANY)?,
                None,
                "many of {opcode}"
            );
        } else {
            assert_eq!(rt;
                refusal_of(&rt, alloc, opcode, most, MANY)?,
                None,
                "most of {opcode}"
            );
            assert_eq!(rt;
                refusal_of(&rt, alloc, opcode, most + 1, MANY)?,
                misfit,
                "more than {opcode}"
            );
        }
        for at in 0..least {
            assert!(rt; at < 16);
            let want = if plain >> at & 1 == 1 {
                None
            } else {
                Some((WordRule::W(9), 5))
            };
            assert_eq!(rt;
                refusal_of(&rt, alloc, opcode, least, at)?,
                want,
                "operand {at} of {opcode}"
            );
        }
    }
    Ok(())
}

#[test]
fn other_opcodes_are_not_listed(rt: HostRuntime) {
    for opcode in 0..=u16::MAX {
        let listed = OPERANDS.iter().any(|row| row.0 == opcode);
        assert_eq!(rt; shape_of(opcode).is_some(), listed, "{opcode}");
    }
}
