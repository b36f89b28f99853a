//! The program that the entry function of a DXIL file states, as plain data, and the words in which contracts speak of it.
//!
//! A program is a list of blocks of instructions over registers, buffers and groupshared arrays. `Sound`, in `specs/`, says what is true of each program that
//! the reader of a file makes. Beside the data stand the words on its branch graph and on the regions that its blocks are nested into.
#![tactic(auto)]

mod block;
mod instr;
mod op;
mod program;
mod region;
mod value;

pub use block::{Block, BlockList, Entry, EntryList, InstrList, Phi, PhiList, Term};
pub use instr::{Addr, AtomicOp, BinOp, CastOp, CmpOp, IdOp, Instr, OneOp, Scope, Target, TwoOp};
pub use op::{OpKind, op_of};
pub use program::{Class, Kind, Program, Resource, ResourceList};
pub use region::{Region, RegionList, Regions};
pub use value::{Operand, Reg, Ty};
