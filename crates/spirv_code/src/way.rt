/// How a block is left.
#[derive(Clone, Copy, Debug, PartialEq, Eq)]
pub enum Way {
    /// The program ends here.
    Ends,
    /// It goes to one block.
    Goes(u32),
    /// One selection chooses among several blocks.
    Chooses,
    /// Several selections choose, each by some of the cases of a switch.
    Splits,
}
