ghost use Rattle.std.specs.Prelude.{◌≡◌, ◌<◌, length, get_or};
ghost use Rattle.spirv_words.specs.FileWords.{words_of};

use std::marker::Model;

/// The words in the bytes of a file, four bytes each, the least significant first.
#[derive(Drop)]
pub struct FileWords<'a> {
    bytes: &'a [u8],
}

impl<'a> Model for FileWords<'a> {
    ghost use Rattle.std.specs.Prelude.{List, ℕ};
    ghost use Rattle.spirv_words.specs.FileWords.{words_of};

    ghost Value = { List ℕ };

    ghost view = { λ s. words_of s.bytes.now };
}

impl<'a> FileWords<'a> {
    pub fn new(bytes: &'a [u8]) -> FileWords<'a>
        ensures { result ≡ words_of bytes.now }
    {
        FileWords { bytes }
    }

    /// How many whole words there are.
    #[tactic(auto, using(crate::proofs::FileWordLaws::file_words))]
    pub fn len(&self) -> usize
        ensures { result ≡ length self.now }
    {
        self.bytes.len() / 4
    }

    /// The word at a place.
    #[tactic(auto, using(crate::proofs::FileWordLaws::file_words))]
    pub fn at(&self, place: usize) -> u32
        requires { place < length self.now }
        ensures { result ≡ get_or self.now place 0 }
    {
        let bytes = self.bytes;
        let from = 4 * place;
        u32::from_le_bytes([
            bytes[from],
            bytes[from + 1],
            bytes[from + 2],
            bytes[from + 3],
        ])
    }
}
