use dx_base::{List, Numbers};
use dxil_form::{Class, Kind, Program, Resource, ResourceList};
use dxil_meaning::fits_launch;
use std::alloc::Global;
use std::test::Fail;

fn numbers(alloc: Global, items: &[u32]) -> Result<Numbers, &'static str> {
    let mut list = List::new(alloc);
    for item in items {
        list.push(*item).map_err(|_| "memory")?;
    }
    Ok(list)
}

/// A program that names a raw buffer and a constant buffer of two rows.
fn two_buffers(alloc: Global) -> Result<Program, &'static str> {
    let mut resources: ResourceList = List::new(alloc);
    for (class, kind) in [
        (Class::Uav, Kind::Raw),
        (Class::Cbv, Kind::Constant { rows: 2 }),
    ] {
        let resource = Resource {
            class,
            id: 0,
            space: 0,
            lower: 0,
            kind,
        };
        resources.push(resource).map_err(|_| "memory")?;
    }
    Ok(Program {
        local: [1, 1, 1],
        resources,
        shared: List::new(alloc),
        blocks: List::new(alloc),
    })
}

#[test]
fn sizes_that_fit_and_that_do_not(rt: HostRuntime) -> Result<(), Fail> {
    let p = two_buffers(rt.alloc())?;
    let cases: [(&[u32], bool); 6] = [
        (&[0, 8], true),
        (&[(1 << 30) - 1, 8], true),
        (&[1 << 30, 8], false),
        (&[0, 7], false),
        (&[0], false),
        (&[0, 8, 0], false),
    ];
    for (sizes, fits) in cases {
        assert_eq!(rt; fits_launch(&p, &numbers(rt.alloc(), sizes)?), fits);
    }
    Ok(())
}
