use dxil_form::{AtomicOp, BinOp, CmpOp};

pub fn bin_op(number: u32) -> BinOp {
    match number {
        0 => BinOp::Add,
        1 => BinOp::Sub,
        2 => BinOp::Mul,
        3 => BinOp::UDiv,
        4 => BinOp::SDiv,
        5 => BinOp::URem,
        6 => BinOp::SRem,
        7 => BinOp::Shl,
        8 => BinOp::LShr,
        9 => BinOp::AShr,
        10 => BinOp::And,
        11 => BinOp::Or,
        _ => BinOp::Xor,
    }
}

pub fn cmp_op(number: u32) -> CmpOp {
    match number {
        0 => CmpOp::Eq,
        1 => CmpOp::Ne,
        2 => CmpOp::UGt,
        3 => CmpOp::UGe,
        4 => CmpOp::ULt,
        5 => CmpOp::ULe,
        6 => CmpOp::SGt,
        7 => CmpOp::SGe,
        8 => CmpOp::SLt,
        _ => CmpOp::SLe,
    }
}

pub fn atomic_op(number: u32) -> AtomicOp {
    match number {
        0 => AtomicOp::Add,
        1 => AtomicOp::Sub,
        2 => AtomicOp::And,
        3 => AtomicOp::Or,
        4 => AtomicOp::Xor,
        5 => AtomicOp::SMin,
        6 => AtomicOp::SMax,
        7 => AtomicOp::UMin,
        8 => AtomicOp::UMax,
        _ => AtomicOp::Exchange,
    }
}
