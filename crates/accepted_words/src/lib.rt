//! That `check` accepts the words that a program is translated into, as a theorem.
//!
//! The function does nothing: its contract states the theorem, which stands in `specs/Laws.antt`.
#![tactic(auto)]

ghost use Rattle.accepted_words.specs.Laws.{WordsAreAccepted};

/// A file of the words of any program, at each version, breaks none of the rules W, V and S.
pub fn words_are_accepted()
    ensures { WordsAreAccepted }
{}
