//! Rows of letters, each named by what they are: V a typed operand, R one counted back, S a signed one, A an absolute one, T a type number, B a
//! block number, N a plain field.

use crate::letter::Letter;

pub const N: &[Letter] = &[Letter::Plain];

pub const EMPTY: &[Letter] = &[];

pub const VRN: &[Letter] = &[Letter::Typed, Letter::Back, Letter::Plain];

pub const VRNN: &[Letter] = &[Letter::Typed, Letter::Back, Letter::Plain, Letter::Plain];

pub const VTN: &[Letter] = &[Letter::Typed, Letter::TypeNumber, Letter::Plain];

pub const V: &[Letter] = &[Letter::Typed];

pub const B: &[Letter] = &[Letter::BlockNumber];

pub const BBR: &[Letter] = &[Letter::BlockNumber, Letter::BlockNumber, Letter::Back];

pub const TRB: &[Letter] = &[Letter::TypeNumber, Letter::Back, Letter::BlockNumber];

pub const AB: &[Letter] = &[Letter::Absolute, Letter::BlockNumber];

pub const T: &[Letter] = &[Letter::TypeNumber];

pub const SB: &[Letter] = &[Letter::Signed, Letter::BlockNumber];

pub const VNN: &[Letter] = &[Letter::Typed, Letter::Plain, Letter::Plain];

pub const VTNN: &[Letter] = &[
    Letter::Typed,
    Letter::TypeNumber,
    Letter::Plain,
    Letter::Plain,
];

pub const VN: &[Letter] = &[Letter::Typed, Letter::Plain];

pub const VRV: &[Letter] = &[Letter::Typed, Letter::Back, Letter::Typed];

pub const VRNNNN: &[Letter] = &[
    Letter::Typed,
    Letter::Back,
    Letter::Plain,
    Letter::Plain,
    Letter::Plain,
    Letter::Plain,
];

pub const NTV: &[Letter] = &[Letter::Plain, Letter::TypeNumber, Letter::Typed];

pub const VVNN: &[Letter] = &[Letter::Typed, Letter::Typed, Letter::Plain, Letter::Plain];

pub const VVRNNN: &[Letter] = &[
    Letter::Typed,
    Letter::Typed,
    Letter::Back,
    Letter::Plain,
    Letter::Plain,
    Letter::Plain,
];

pub const VVRNNNN: &[Letter] = &[
    Letter::Typed,
    Letter::Typed,
    Letter::Back,
    Letter::Plain,
    Letter::Plain,
    Letter::Plain,
    Letter::Plain,
];

pub const VVRNNNNN: &[Letter] = &[
    Letter::Typed,
    Letter::Typed,
    Letter::Back,
    Letter::Plain,
    Letter::Plain,
    Letter::Plain,
    Letter::Plain,
    Letter::Plain,
];

pub const NNV: &[Letter] = &[Letter::Plain, Letter::Plain, Letter::Typed];

pub const R: &[Letter] = &[Letter::Back];

pub const NNTV: &[Letter] = &[
    Letter::Plain,
    Letter::Plain,
    Letter::TypeNumber,
    Letter::Typed,
];
