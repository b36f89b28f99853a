use dx_base::List;
use spirv_meaning::site_of;
use spv_form::{Inst, Module, Operands, Version, op};
use std::alloc::Global;
use std::test::Fail;

/// A module of these instructions.
fn module_of(alloc: Global, insts: &[(u16, &[u32])]) -> Result<Module, &'static str> {
    let mut list = List::new(alloc);
    for (opcode, words) in insts {
        let mut operands = Operands::new(alloc);
        for word in *words {
            operands.push(*word).map_err(|_| "memory")?;
        }
        let inst = Inst {
            opcode: *opcode,
            operands,
        };
        list.push(inst).map_err(|_| "memory")?;
    }
    Ok(Module {
        version: Version::V16,
        bound: 100,
        insts: list,
    })
}

#[test]
fn sites_of_a_module(rt: HostRuntime) -> Result<(), Fail> {
    // b0 is the label 4, b10 the label 5 by two names, and b1 names two labels; b2 is no label, b01 is the name of no block, and the last block that a name can have has the label 8.
    let m = module_of(
        rt.alloc(),
        &[
            (op::NAME, &[4, 0x3062]),
            (op::NAME, &[5, 0x30_3162]),
            (op::NAME, &[5, 0x30_3162]),
            (op::NAME, &[6, 0x3162]),
            (op::NAME, &[7, 0x3162]),
            (op::NAME, &[1, 0x3262]),
            (op::NAME, &[7, 0x31_3062]),
            (op::NAME, &[8, 0x3932_3462, 0x3736_3934, 0x35_3932]),
            (op::FUNCTION, &[2, 1, 0, 3]),
            (op::LABEL, &[4]),
            (op::LABEL, &[6]),
            (op::LABEL, &[7]),
            (op::LABEL, &[5]),
            (op::LABEL, &[8]),
        ],
    )?;
    for (k, site) in [
        (0, Some(9)),
        (10, Some(12)),
        (1, None),
        (2, None),
        (3, None),
        (4_294_967_295, Some(13)),
    ] {
        assert!(rt; m.insts.len() < 100);
        assert_eq!(rt; site_of(&m, k), site);
    }
    Ok(())
}
