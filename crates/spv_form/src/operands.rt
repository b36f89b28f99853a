ghost use Rattle.std.specs.Prelude.{◌≡◌, ◌∷◌, ◌++◌, [], IfOk, IfErr, OnOk, OnErr, IsSome, ◌↔◌, ◌<◌, ◌≤◌, length, take, slice_get};
ghost use Rattle.std.specs.Option.{option_copied};
ghost use Rattle.spv_form.specs.Held.{held_words, IsHeld};

use dx_base::OutOfMemory;
use std::alloc::Global;
use std::marker::Model;
use std::mem::size_of;

/// The operand words of an instruction, which contracts see as a list.
///
/// Most instructions have three at most. Those stand in the value itself and take no memory of their own.
#[derive(Clone, Debug, Drop)]
pub struct Operands {
    alloc: Global,
    held: Held,
}

const _: () = prove!(size_of::<Operands>() == 16);

/// How many words stand in the value itself.
const FEW: usize = 3;

#[derive(Clone, Debug, Drop)]
enum Held {
    /// The first `count` of the words.
    Few { count: u8, words: [u32; FEW] },
    /// All of the words.
    Many(Box<Vec<u32>>),
}

impl Model for Operands {
    ghost use Rattle.std.specs.Prelude.{List, ℕ};
    ghost use Rattle.std.specs.Coded.{coded_list, coded_ℕ};

    ghost Value = { List ℕ };

    ghost coded = { coded_list coded_ℕ };

    ghost use Rattle.spv_form.specs.Held.{held_words, IsHeld};

    ghost view = { λ o. held_words o.held };

    ghost invariant = { λ o. IsHeld o.held };
}

impl Operands {
    /// No words, which takes no memory.
    pub fn new(alloc: Global) -> Self
        ensures { result ≡ [] }
    {
        Operands {
            alloc,
            held: Held::Few {
                count: 0,
                words: [0; FEW],
            },
        }
    }

    /// Adds the word at the end; where memory runs out it comes back, and the words are as before.
    pub fn push(&mut self, word: u32) -> Result<(), u32>
        ensures ok { OnOk result (self.new ≡ self.old ++ word ∷ []) }
        ensures err { OnErr result (self.new ≡ self.old) }
        ensures word { IfErr result (λ back. back ≡ word) }
    {
        match self.held {
            Held::Few { count, words } => match one_more(self.alloc, count, words, word) {
                Ok(held) => {
                    self.held = held;
                    Ok(())
                }
                Err(OutOfMemory) => Err(word),
            },
            Held::Many(ref mut words) => match words.push(word) {
                Ok(()) => Ok(()),
                Err(failed) => Err(failed.value),
            },
        }
    }

    /// How many words there are.
    pub fn len(&self) -> usize
        ensures { result ≡ length self.now }
    {
        self.as_slice().len()
    }

    /// The word at a place, counted from 0; None exactly where there is none.
    pub fn get(&self, at: usize) -> Option<&u32>
        ensures value { option_copied result ≡ slice_get self.now at }
        ensures within { IsSome result ↔ (at < length self.now) }
    {
        self.as_slice().get(at)
    }

    /// All words in order.
    pub fn as_slice(&self) -> &[u32]
        ensures { result.now ≡ self.now }
    {
        match &self.held {
            Held::Few { count, words } => &words[..*count as usize],
            Held::Many(words) => words.as_slice(),
        }
    }
}

/// The first `count` of the words, and one behind them.
fn one_more(alloc: Global, count: u8, mut words: [u32; FEW], word: u32) -> Result<Held, OutOfMemory>
    requires { count ≤ 3 }
    ensures holds { IfOk result (λ held. held_words held ≡ take count words ++ word ∷ []) }
    ensures held { IfOk result IsHeld }
{
    let at = count as usize;
    if at < FEW {
        words[at] = word;
        return Ok(Held::Few {
            count: count + 1,
            words,
        });
    }
    Ok(Held::Many(on_heap(alloc, words, word)?))
}

/// The words, and one behind them.
fn on_heap(alloc: Global, words: [u32; FEW], word: u32) -> Result<Box<Vec<u32>>, OutOfMemory>
    ensures { IfOk result (λ many. many.value.items ≡ words ++ word ∷ []) }
{
    let [first, second, third] = words;
    let many = vec![in alloc; first, second, third, word].map_err(|_| OutOfMemory)?;
    Box::new(alloc, many).map_err(|_| OutOfMemory)
}
