use dxil_form::{OpKind, op_of};
use std::test::Fail;

#[test]
fn opcodes_are_those_of_the_list(rt: HostRuntime) -> Result<(), Fail> {
    assert_eq!(rt; op_of(30), Some(OpKind::Bfrev));
    assert_eq!(rt; op_of(13), None);
    assert_eq!(rt; op_of(140), Some(OpKind::RawStore));
    Ok(())
}
