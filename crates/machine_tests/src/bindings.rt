use dxil_form::{Class, Kind, Resource};
use spirv_meaning::plain_binding;
use std::test::Fail;

#[test]
fn bindings_by_the_formula(rt: HostRuntime) -> Result<(), Fail> {
    // class, space and lower bound, and then set and binding; the last lower bound has the last three bindings
    let cases = [
        (Class::Srv, 0, 0, (0, 0)),
        (Class::Uav, 2, 3, (2, 10)),
        (Class::Cbv, 2, 3, (2, 11)),
        (Class::Srv, u32::MAX, 1 << 30, (u32::MAX, 3_221_225_472)),
        (Class::Cbv, 1, 1 << 30, (1, 3_221_225_474)),
    ];
    for (class, space, lower, pair) in cases {
        let resource = Resource {
            class,
            id: 7,
            space,
            lower,
            kind: Kind::Raw,
        };
        assert!(rt; lower <= 1 << 30);
        assert_eq!(rt; plain_binding(&resource), pair);
    }
    Ok(())
}
