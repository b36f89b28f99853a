use spv_form::Operands;
use std::test::Fail;

const WORDS: [u32; 5] = [7, 0, 0xFFFF_FFFF, 1, 9];

#[test]
fn words_stand_in_the_order_in_which_they_came(rt: HostRuntime) -> Result<(), Fail> {
    let mut operands = Operands::new(rt.alloc());
    for (at, word) in WORDS.iter().enumerate() {
        assert_eq!(rt; operands.get(at), None);
        assert_eq!(rt; operands.as_slice(), &WORDS[..at]);
        assert_eq!(rt; operands.push(*word), Ok(()));
        assert_eq!(rt; operands.get(at), Some(word));
        assert_eq!(rt; operands.clone()?.as_slice(), &WORDS[..=at]);
        assert_eq!(rt; operands.len(), at + 1);
    }
    Ok(())
}
