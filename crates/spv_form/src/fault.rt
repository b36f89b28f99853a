use thiserror::Error;

/// A rule of a module's words, by the layer that asks it and its number there.
///
/// The layers are the words and their operands (`W`), the module's instructions (`V`) and the structure of its blocks (`S`).
#[derive(Clone, Copy, Debug, PartialEq, Eq)]
pub enum WordRule {
    W(u8),
    V(u8),
    S(u8),
}

/// Why a module is not accepted. A `word` counts from the first word of its file.
#[derive(Clone, Copy, Debug, PartialEq, Eq, Error)]
pub enum CheckFault {
    #[error("the module breaks a rule")]
    Refused { rule: WordRule, word: u32 },
    #[error("out of memory")]
    OutOfMemory,
}
