/// A type that a module declares, other than the pointers.
///
/// The types of a buffer go by the place of its resource, and those of a groupshared array by its place in the program's list.
#[derive(Clone, Copy, Debug, PartialEq, Eq, Hash)]
pub enum Sort {
    Int,
    Bool,
    /// A vector of three integers, as of a thread's number.
    Triple,
    /// A vector of four integers, which is a row of a constant buffer.
    Row,
    /// The array of a buffer's words, or of its rows.
    Words(u32),
    /// The structure whose one member is the array of a buffer.
    Block(u32),
    /// The array of a groupshared array's words.
    Array(u32),
}

/// A storage class (SPIR-V 1.6, section 3.7).
#[derive(Clone, Copy, Debug, PartialEq, Eq, Hash)]
pub enum Storage {
    Input,
    Uniform,
    Workgroup,
    Function,
    StorageBuffer,
}

/// A number of the invocation, by the name of its built-in (SPIR-V 1.6, section 3.21).
#[derive(Clone, Copy, Debug, PartialEq, Eq, Hash)]
pub enum BuiltIn {
    WorkgroupId,
    LocalInvocationId,
    GlobalInvocationId,
    LocalInvocationIndex,
}

/// What a module declares once, outside its function: a type, a constant or a variable.
#[derive(Clone, Copy, Debug, PartialEq, Eq, Hash)]
pub enum Global {
    Plain(Sort),
    Pointer { storage: Storage, to: Sort },
    Number(u32),
    Truth(bool),
    /// The variable that holds a number of the invocation.
    Input(BuiltIn),
    /// The variable over a resource.
    Buffer(u32),
    /// The variable of a groupshared array.
    Shared(u32),
}

/// A variable of the function. A register is a part of a value, and `truth` says that it is of type `i1`.
#[derive(Clone, Copy, Debug, PartialEq, Eq, Hash)]
pub enum Slot {
    /// What a register that a phi sets takes at the next block's head.
    Next { value: u32, part: u8, truth: bool },
    /// What a register holds.
    Kept { value: u32, part: u8, truth: bool },
    /// The number of the block that is wanted.
    Want,
    /// The value of a switch whose cases are tested in several selections.
    Pick,
}
