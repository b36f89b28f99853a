//! What the code of the lines of a block does, as a theorem: where what leaves the block matches, all states between two events of the block match.
//!
//! The function does nothing: its contract states the theorem. The states between two events stand in `specs/Inside.antt`.
#![tactic(auto)]

ghost use Rattle.std.specs.Prelude.{◌≡◌, ℕ, suc, ◌+◌, ◌*◌, length, None, Some, slice_get};
ghost use Rattle.dxil_form.specs.declared.block.Block.{Block};
ghost use Rattle.dxil_form.specs.Sound.{Sound};
ghost use Rattle.dxil_meaning.specs.Fits.{Fits};
ghost use Rattle.dxil_meaning.specs.Source.{State as SourceState, Line};
ghost use Rattle.spirv_meaning.specs.Target.{State};
ghost use Rattle.spirv_code.specs.Reads.{Env};
ghost use Rattle.line_runs.specs.Held.{Setting, Held};
ghost use Rattle.line_runs.specs.Declared.{Declares};
ghost use Rattle.block_runs.specs.Inside.{Inside};
ghost use Rattle.block_runs.specs.Laws.{Match};

/// A block of a program, the place behind the code of its lines, and a relation that holds of all states between two of its events.
///
/// `leaves` says that what leaves the block matches: where all lines are done, and the module's machine holds the registers behind their code.
pub trait LeavesBlock {
    ghost setting: { Setting };

    ghost declares: { Declares setting };

    ghost sound: { Sound setting.program };

    ghost fits: { Fits setting.program setting.launch };

    ghost number: { ℕ };

    ghost block: { Block };

    ghost stands: { slice_get setting.program.blocks number ≡ Some block };

    ghost end: { ℕ };

    ghost known: { Env };

    ghost invocation: { ℕ };

    ghost source_steps: { ℕ };

    ghost target_steps: { ℕ };

    ghost relation: { ℕ → SourceState → State → Type 0 };

    ghost inside: { (x : SourceState) (t : State) → Inside setting number block end known invocation x t → relation invocation x t };

    ghost leaves: { (k : ℕ) (x : SourceState) (t : State) → x.block ≡ number → x.spot ≡ Line k → slice_get block.instrs k ≡ None → Held setting known end x.regs t → Match setting relation source_steps target_steps invocation x t };
}

/// All states between two events of the block match, with four steps more for each line and the first, and as many as the last place of the lines' code.
pub fn lines_match<M: LeavesBlock>()
    ensures { (x : SourceState) (t : State) → Inside M.setting M.number M.block M.end M.known M.invocation x t → Match M.setting M.relation (4 * length M.block.instrs + 4 + M.source_steps) (M.end + suc M.target_steps) M.invocation x t }
{}
