ghost use Rattle.std.specs.Prelude.{◌≡◌, ◌≢◌, IfSome, OnSome, IsNone};
ghost use Rattle.dxil_form.specs.Operations.{code_of};

/// The DXIL operations that a program may call (DXIL.rst, "Operations", by their names there).
#[derive(Clone, Copy, Debug, PartialEq, Eq)]
pub enum OpKind {
    Bfrev,
    Countbits,
    IMax,
    IMin,
    UMax,
    UMin,
    IMad,
    UMad,
    CreateHandle,
    CBufferLoad,
    BufferLoad,
    BufferStore,
    AtomicBinOp,
    AtomicCompareExchange,
    Barrier,
    ThreadId,
    GroupId,
    ThreadIdInGroup,
    FlatId,
    RawLoad,
    RawStore,
}

/// The operation of an opcode, which is the first argument of a call; None exactly for a code that no operation of the list has.
pub fn op_of(code: u32) -> Option<OpKind>
    ensures found { IfSome result (λ kind. code_of kind ≡ code) }
    ensures missing { IsNone result → (kind : OpKind) → code_of kind ≢ code }
{
    Some(match code {
        30 => OpKind::Bfrev,
        31 => OpKind::Countbits,
        37 => OpKind::IMax,
        38 => OpKind::IMin,
        39 => OpKind::UMax,
        40 => OpKind::UMin,
        48 => OpKind::IMad,
        49 => OpKind::UMad,
        57 => OpKind::CreateHandle,
        59 => OpKind::CBufferLoad,
        68 => OpKind::BufferLoad,
        69 => OpKind::BufferStore,
        78 => OpKind::AtomicBinOp,
        79 => OpKind::AtomicCompareExchange,
        80 => OpKind::Barrier,
        93 => OpKind::ThreadId,
        94 => OpKind::GroupId,
        95 => OpKind::ThreadIdInGroup,
        96 => OpKind::FlatId,
        139 => OpKind::RawLoad,
        140 => OpKind::RawStore,
        _ => return None,
    })
}
