//! The blocks that are open along a short list of items.

use bitstream_spelling::Item;
use llvm_items::{OpenBlocks, bit_of, fields_of};
use std::test::Fail;

#[test]
fn a_record_of_the_types_stands_in_the_module(rt: HostRuntime) -> Result<(), Fail> {
    let record = Item::Record {
        code: 7,
        first: 1,
        count: 2,
        bit: 70,
    };
    let end = Item::End { bit: 90 };
    let mut around = OpenBlocks::new(rt.alloc());
    let module = Item::Enter {
        id: 8,
        width: 3,
        bit: 32,
    };
    let types = Item::Enter {
        id: 17,
        width: 4,
        bit: 60,
    };
    assert!(rt; !around.enters(8, module));
    around.pass(module)?;
    assert!(rt; around.enters(17, types));
    assert!(rt; around.ends_module(end));
    around.pass(types)?;
    assert!(rt; around.has_record_of(17, record));
    assert!(rt; !around.has_record_of(8, record));
    assert!(rt; !around.ends_module(end));
    around.pass(end)?;
    assert!(rt; around.ends_module(end));
    assert_eq!(rt; bit_of(record), 70);
    assert_eq!(rt;
        fields_of(record, [5, 32, 0].as_slice()),
        [32, 0].as_slice()
    );
    Ok(())
}
