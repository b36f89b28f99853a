//! What each rule of the profile refuses, and where: the shader with one change each.

use crate::writer::{Change, container};
use dx_base::{Fault, Rule};
use dx_translate::translate;
use spv_form::Version;
use std::alloc::Global;
use std::test::Fail;

/// What is changed, and the rule that is broken with its bit; None where the shader still meets the profile.
type Case<'a> = (&'a [Change<'a>], Option<(Rule, u64)>);

/// The bits are those of the records of the body (tools/profile_rows.py).
const CASES: [Case<'static>; 62] = [
    // a truth value added to a number
    (&[(12, 11, &[(2, &[2, 1, 0])])], Some((Rule::P(1), 5044))),
    // an operand that is no value of the body
    (
        &[(12, 11, &[(2, &[2, 4294967289, 0])])],
        Some((Rule::P(1), 5044)),
    ),
    // the operation 13
    (&[(12, 11, &[(2, &[2, 6, 13])])], Some((Rule::P(2), 5044))),
    // a division of truth values
    (&[(12, 11, &[(2, &[1, 1, 3])])], Some((Rule::P(2), 5044))),
    // a truth value cut to a number
    (&[(12, 12, &[(3, &[2, 2, 0])])], Some((Rule::P(3), 5078))),
    // the predicate 42
    (&[(12, 9, &[(28, &[1, 5, 42])])], Some((Rule::P(4), 4970))),
    // a phi without an entry for block 2
    (&[(12, 18, &[(16, &[2, 2, 1])])], Some((Rule::P(5), 5336))),
    // an entry of a block that is no predecessor
    (
        &[(12, 18, &[(16, &[2, 2, 1, 14, 2, 14, 0])])],
        Some((Rule::P(5), 5336)),
    ),
    // two entries of one block that differ
    (
        &[(12, 18, &[(16, &[2, 2, 1, 14, 2, 22, 2])])],
        Some((Rule::P(5), 5336)),
    ),
    // two that are equal
    (&[(12, 18, &[(16, &[2, 2, 1, 14, 2, 14, 2])])], None),
    // a return of a value
    (&[(12, 20, &[(10, &[1])])], Some((Rule::P(6), 5482))),
    // two equal cases
    (
        &[(12, 17, &[(12, &[2, 11, 3, 10, 3, 10, 3])])],
        Some((Rule::P(7), 5278)),
    ),
    // a case that is a truth value
    (
        &[(12, 17, &[(12, &[2, 11, 3, 25, 3, 11, 3])])],
        Some((Rule::P(7), 5278)),
    ),
    // a switch on a constant
    (&[(12, 17, &[(12, &[2, 28, 3, 10, 3, 11, 3])])], None),
    // a switch on a truth value
    (
        &[(12, 17, &[(12, &[2, 6, 3, 10, 3, 11, 3])])],
        Some((Rule::P(1), 5278)),
    ),
    // a branch to block 0
    (&[(12, 16, &[(11, &[0])])], Some((Rule::P(8), 5256))),
    // an ALLOCA
    (
        &[(12, 20, &[(19, &[]), (10, &[])])],
        Some((Rule::P(9), 5482)),
    ),
    // a first index of 1
    (
        &[(12, 5, &[(43, &[1, 12, 30, 20, 3])])],
        Some((Rule::P(10), 4780)),
    ),
    // a variable of another space
    (&[(8, 0, &[(7, &[12, 18, 0])])], Some((Rule::P(10), 4780))),
    // a groupshared array of 32,772 bytes
    (&[(17, 13, &[(11, &[8193, 2])])], Some((Rule::P(11), 4780))),
    // one of 32,768
    (&[(17, 13, &[(11, &[8192, 2])])], None),
    // one of 32,768 and a further variable that is loaded later
    (
        &[
            (17, 13, &[(11, &[8192, 2])]),
            (12, 8, &[(20, &[24, 2, 0, 0])]),
        ],
        Some((Rule::P(11), 4930)),
    ),
    // one of 32,764 and that variable
    (
        &[
            (17, 13, &[(11, &[8191, 2])]),
            (12, 8, &[(20, &[24, 2, 0, 0])]),
        ],
        None,
    ),
    // a groupshared variable without a GEP
    (&[(12, 8, &[(20, &[31, 2, 0, 0])])], None),
    // a load of a truth value
    (
        &[
            (12, 8, &[(20, &[1, 3, 0, 0])]),
            (12, 9, &[(28, &[5, 5, 36])]),
        ],
        Some((Rule::P(12), 4930)),
    ),
    // the atomic operation 4
    (
        &[(12, 13, &[(38, &[5, 1, 4, 0, 0, 0])])],
        Some((Rule::P(12), 5112)),
    ),
    // a call of main
    (&[(12, 7, &[(34, &[0, 0, 30])])], Some((Rule::P(13), 4878))),
    // an opcode of 8 bits
    (
        &[(12, 7, &[(34, &[0, 0, 25, 8, 13])])],
        Some((Rule::P(14), 4878)),
    ),
    // the opcode 200
    (
        &[(12, 7, &[(34, &[0, 0, 25, 11, 13])])],
        Some((Rule::P(15), 4878)),
    ),
    // the opcode 110
    (
        &[
            (11, 13, &[(4, &[220])]),
            (12, 7, &[(34, &[0, 0, 25, 11, 13])]),
        ],
        Some((Rule::P(15), 4878)),
    ),
    // the opcode 13 on a float
    (
        &[
            (17, 0, &[(1, &[15])]),
            (17, 13, &[(11, &[64, 2]), (3, &[]), (21, &[0, 13, 2, 13])]),
            (8, 4, &[(8, &[14, 0, 1])]),
            (11, 8, &[(4, &[26])]),
            (11, 13, &[(1, &[13]), (6, &[1065353216]), (1, &[2])]),
            (
                14,
                2,
                &[(
                    1,
                    &[
                        4, 100, 120, 46, 111, 112, 46, 117, 110, 97, 114, 121, 46, 102, 51, 50,
                    ],
                )],
            ),
            (12, 19, &[(34, &[0, 0, 35, 24, 19])]),
        ],
        Some((Rule::P(15), 5478)),
    ),
    // a thread number by a function that gives nothing
    (
        &[(12, 7, &[(34, &[0, 0, 25, 15, 22])])],
        Some((Rule::P(16), 4878)),
    ),
    // the barrier mode 0
    (
        &[(12, 7, &[(34, &[0, 0, 25, 14, 22])])],
        Some((Rule::P(17), 4878)),
    ),
    // the barrier mode 16
    (&[(11, 11, &[(4, &[32])])], Some((Rule::P(17), 4878))),
    // the atomic operation 9 on a buffer
    (
        &[
            (17, 0, &[(1, &[14])]),
            (
                17,
                13,
                &[(11, &[64, 2]), (21, &[0, 2, 2, 5, 2, 2, 2, 2, 2])],
            ),
            (8, 4, &[(8, &[13, 0, 1])]),
            (11, 8, &[(4, &[156])]),
            (
                14,
                2,
                &[(
                    1,
                    &[
                        4, 100, 120, 46, 111, 112, 46, 97, 116, 111, 109, 105, 99, 66, 105, 110,
                        79, 112,
                    ],
                )],
            ),
            (12, 19, &[(34, &[0, 0, 35, 24, 13, 21, 12, 18, 18, 1])]),
        ],
        Some((Rule::P(17), 5446)),
    ),
    // its operation 6
    (
        &[
            (17, 0, &[(1, &[14])]),
            (
                17,
                13,
                &[(11, &[64, 2]), (21, &[0, 2, 2, 5, 2, 2, 2, 2, 2])],
            ),
            (8, 4, &[(8, &[13, 0, 1])]),
            (11, 8, &[(4, &[156])]),
            (
                14,
                2,
                &[(
                    1,
                    &[
                        4, 100, 120, 46, 111, 112, 46, 97, 116, 111, 109, 105, 99, 66, 105, 110,
                        79, 112,
                    ],
                )],
            ),
            (12, 19, &[(34, &[0, 0, 35, 24, 13, 31, 12, 18, 18, 1])]),
        ],
        None,
    ),
    // an undefined row id
    (
        &[(12, 1, &[(34, &[0, 0, 24, 13, 4, 5, 17, 1])])],
        Some((Rule::P(17), 4566)),
    ),
    // a mask of no part
    (
        &[(
            12,
            19,
            &[(34, &[0, 0, 35, 24, 13, 12, 18, 1, 18, 18, 18, 15])],
        )],
        Some((Rule::P(17), 5382)),
    ),
    // the row id 1
    (
        &[(12, 1, &[(34, &[0, 0, 24, 13, 4, 16, 17, 1])])],
        Some((Rule::P(18), 4566)),
    ),
    // a range of 4
    (
        &[(15, 13, &[(3, &[3, 0, 0, 3, 3, 7, 12, 13, 13, 13, 0])])],
        Some((Rule::P(19), 4566)),
    ),
    // the second of two rows of one place
    (
        &[
            (15, 14, &[(3, &[14, 18])]),
            (
                15,
                20,
                &[(10, &[16]), (3, &[9, 0, 0, 3, 3, 9, 12, 13, 13, 13, 0])],
            ),
            (12, 20, &[(34, &[0, 0, 37, 26, 17, 29, 30, 14]), (10, &[])]),
        ],
        Some((Rule::P(20), 5546)),
    ),
    // the same row again, by a handle that is not used
    (
        &[(12, 20, &[(34, &[0, 0, 37, 26, 17, 30, 30, 14]), (10, &[])])],
        None,
    ),
    // a store to a buffer that is read only
    (
        &[
            (15, 15, &[(3, &[15, 0, 0, 0])]),
            (12, 1, &[(34, &[0, 0, 24, 13, 2, 17, 17, 1])]),
        ],
        Some((Rule::P(21), 5382)),
    ),
    // a load by a handle that is a load
    (
        &[(
            12,
            19,
            &[(34, &[0, 0, 35, 24, 11, 12, 18, 1, 18, 18, 18, 17])],
        )],
        Some((Rule::P(21), 5382)),
    ),
    // the part 4 of a load
    (&[(12, 4, &[(26, &[1, 4])])], Some((Rule::P(22), 4752))),
    // two indices of a part
    (&[(12, 4, &[(26, &[1, 0, 0])])], Some((Rule::P(22), 4752))),
    // the part 2 of an exchange
    (&[(12, 15, &[(26, &[1, 2])])], Some((Rule::P(22), 5228))),
    // the part 3 of a load
    (&[(12, 4, &[(26, &[1, 3])])], None),
    // no part of a load
    (&[(12, 4, &[(2, &[2, 2, 0])])], None),
    // a forward operand with its type
    (&[(12, 11, &[(2, &[4294967295, 2, 6, 0])])], None),
    // with another type
    (
        &[(12, 11, &[(2, &[4294967295, 3, 6, 0])])],
        Some((Rule::P(1), 5044)),
    ),
    // an undefined number
    (&[(12, 11, &[(2, &[2, 12, 0])])], None),
    // a null truth value
    (&[(12, 11, &[(2, &[2, 8, 0])])], Some((Rule::P(1), 5044))),
    // a call that states its type
    (&[(12, 7, &[(34, &[0, 32768, 11, 25, 14, 13])])], None),
    // a constant place without a source type
    (
        &[
            (11, 13, &[(12, &[12, 0, 2, 9, 2, 10])]),
            (12, 8, &[(20, &[11, 2, 0, 0])]),
        ],
        None,
    ),
    // one with a source type
    (
        &[
            (11, 13, &[(20, &[12, 12, 0, 2, 9, 2, 10])]),
            (12, 8, &[(20, &[11, 2, 0, 0])]),
        ],
        None,
    ),
    // one whose index is no constant
    (
        &[
            (11, 13, &[(12, &[12, 0, 2, 9, 2, 27])]),
            (12, 8, &[(20, &[11, 2, 0, 0])]),
        ],
        Some((Rule::P(10), 4962)),
    ),
    // a part that the mask of a raw load allows
    (
        &[
            (17, 9, &[(21, &[0, 6, 2, 5, 2, 2, 4, 2])]),
            (11, 7, &[(4, &[278])]),
            (12, 3, &[(34, &[0, 0, 25, 14, 2, 1, 7, 6, 17])]),
        ],
        None,
    ),
    // one that it does not allow
    (
        &[
            (17, 9, &[(21, &[0, 6, 2, 5, 2, 2, 4, 2])]),
            (11, 7, &[(4, &[278])]),
            (12, 3, &[(34, &[0, 0, 25, 14, 2, 1, 7, 6, 17])]),
            (12, 4, &[(26, &[1, 1])]),
        ],
        Some((Rule::P(22), 4764)),
    ),
    // of two rules at one record the lesser
    (&[(12, 11, &[(2, &[2, 1, 13])])], Some((Rule::P(1), 5044))),
    // of two records the first
    (
        &[(12, 9, &[(28, &[1, 5, 42])]), (12, 11, &[(2, &[2, 1, 0])])],
        Some((Rule::P(4), 4970)),
    ),
    // nothing
    (&[], None),
];

/// The refusal of the shader with some changes.
fn refusal_of(alloc: Global, changes: &[Change]) -> Result<Option<Fault>, Fail> {
    let bytes = container(alloc, changes)?;
    if bytes.len() > 4096 {
        return Err(Fail::from("too long"));
    }
    Ok(translate(alloc, bytes.as_slice(), Version::V16).err())
}

#[test]
fn each_rule_is_told_at_its_record(rt: HostRuntime) -> Result<(), Fail> {
    for (number, (changes, wanted)) in CASES.iter().enumerate() {
        let wanted = wanted.map(|(rule, bit)| Fault::Refused { rule, bit });
        assert_eq!(rt; refusal_of(rt.alloc(), *changes)?, wanted, "case {number}");
    }
    Ok(())
}
