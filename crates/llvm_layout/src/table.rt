ghost use Rattle.std.specs.Prelude.{◌≡◌, ◌<◌, ◌^◌, IsTrue, map};
ghost use Rattle.llvm_layout.specs.Table.{forms, call_forms, is_listed as listed, seen};

use crate::code::{
    ALLOCA, ATOMICRMW, BINOP, BR, CALL, CAST, CMP2, CMPXCHG, DEBUG_LOC, DEBUG_LOC_AGAIN,
    DECLAREBLOCKS, EXTRACTVAL, GEP, LOAD, PHI, RET, STORE, SWITCH, UNREACHABLE, VSELECT,
};
use crate::letter::Form;
use crate::rows::{
    AB, B, BBR, EMPTY, N, NNTV, NNV, NTV, R, SB, T, TRB, V, VN, VNN, VRN, VRNN, VRNNNN, VRV, VTN,
    VTNN, VVNN, VVRNNN, VVRNNNN, VVRNNNNN,
};

const DECLAREBLOCKS_FORMS: &[Form] = &[Form {
    head: N,
    again: EMPTY,
}];

const BINOP_FORMS: &[Form] = &[
    Form {
        head: VRN,
        again: EMPTY,
    },
    Form {
        head: VRNN,
        again: EMPTY,
    },
];

const CAST_FORMS: &[Form] = &[Form {
    head: VTN,
    again: EMPTY,
}];

const RET_FORMS: &[Form] = &[
    Form {
        head: EMPTY,
        again: EMPTY,
    },
    Form {
        head: V,
        again: EMPTY,
    },
];

const BR_FORMS: &[Form] = &[
    Form {
        head: B,
        again: EMPTY,
    },
    Form {
        head: BBR,
        again: EMPTY,
    },
];

const SWITCH_FORMS: &[Form] = &[Form {
    head: TRB,
    again: AB,
}];

const UNREACHABLE_FORMS: &[Form] = &[Form {
    head: EMPTY,
    again: EMPTY,
}];

const PHI_FORMS: &[Form] = &[Form { head: T, again: SB }];

const ALLOCA_FORMS: &[Form] = &[Form {
    head: EMPTY,
    again: N,
}];

const LOAD_FORMS: &[Form] = &[
    Form {
        head: VNN,
        again: EMPTY,
    },
    Form {
        head: VTNN,
        again: EMPTY,
    },
];

const EXTRACTVAL_FORMS: &[Form] = &[Form { head: VN, again: N }];

const CMP2_FORMS: &[Form] = &[
    Form {
        head: VRN,
        again: EMPTY,
    },
    Form {
        head: VRNN,
        again: EMPTY,
    },
];

const VSELECT_FORMS: &[Form] = &[Form {
    head: VRV,
    again: EMPTY,
}];

const DEBUG_FORMS: &[Form] = &[Form {
    head: EMPTY,
    again: N,
}];

const ATOMICRMW_FORMS: &[Form] = &[Form {
    head: VRNNNN,
    again: EMPTY,
}];

const GEP_FORMS: &[Form] = &[Form {
    head: NTV,
    again: V,
}];

const STORE_FORMS: &[Form] = &[Form {
    head: VVNN,
    again: EMPTY,
}];

const CMPXCHG_FORMS: &[Form] = &[
    Form {
        head: VVRNNN,
        again: EMPTY,
    },
    Form {
        head: VVRNNNN,
        again: EMPTY,
    },
    Form {
        head: VVRNNNNN,
        again: EMPTY,
    },
];

const CALL_FORMS: &[Form] = &[Form {
    head: NNV,
    again: R,
}];

const STATED_CALL_FORMS: &[Form] = &[Form {
    head: NNTV,
    again: R,
}];

const NO_FORMS: &[Form] = &[];

/// The layouts that a record of this code may have; none where it is no record of a body. A call has layouts of its own.
pub fn forms_of(code: u64) -> &'static [Form]
    ensures { map seen result.now ≡ forms code }
{
    match code {
        DECLAREBLOCKS => DECLAREBLOCKS_FORMS,
        BINOP => BINOP_FORMS,
        CAST => CAST_FORMS,
        RET => RET_FORMS,
        BR => BR_FORMS,
        SWITCH => SWITCH_FORMS,
        UNREACHABLE => UNREACHABLE_FORMS,
        PHI => PHI_FORMS,
        ALLOCA => ALLOCA_FORMS,
        LOAD => LOAD_FORMS,
        EXTRACTVAL => EXTRACTVAL_FORMS,
        CMP2 => CMP2_FORMS,
        VSELECT => VSELECT_FORMS,
        DEBUG_LOC_AGAIN | DEBUG_LOC => DEBUG_FORMS,
        ATOMICRMW => ATOMICRMW_FORMS,
        GEP => GEP_FORMS,
        STORE => STORE_FORMS,
        CMPXCHG => CMPXCHG_FORMS,
        _ => NO_FORMS,
    }
}

/// Whether the table has this code.
pub fn is_listed(code: u64) -> bool
    ensures value { result ≡ listed code }
    ensures small { IsTrue result → code < 2 ^ 32 }
{
    match code {
        DECLAREBLOCKS | BINOP | CAST | RET | BR | SWITCH | UNREACHABLE => true,
        PHI | ALLOCA | LOAD | EXTRACTVAL | CMP2 | VSELECT => true,
        DEBUG_LOC_AGAIN | CALL | DEBUG_LOC => true,
        ATOMICRMW | GEP | STORE | CMPXCHG => true,
        _ => false,
    }
}

/// The layout of a call, which states its callee's type or does not.
pub fn call_forms_of(states: bool) -> &'static [Form]
    ensures { map seen result.now ≡ call_forms states }
{
    if states {
        STATED_CALL_FORMS
    } else {
        CALL_FORMS
    }
}
