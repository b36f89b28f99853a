ghost use Rattle.std.specs.Prelude.{◌≡◌, ℕ, []};
ghost use Rattle.dxil_form.specs.declared.program.Program.{Program as ProgramValue};
ghost use Rattle.dxil_form.specs.Sound.{Sound};
ghost use Rattle.spv_form.specs.declared.module.Module.{Module as ModuleValue};
ghost use Rattle.dxil_meaning.specs.Steps.{Matched, Starting};
ghost use Rattle.dxil_meaning.specs.Source.{Launch, source, State as SourceState};
ghost use Rattle.dxil_meaning.specs.Fits.{Fits};
ghost use Rattle.spirv_meaning.specs.Bindings.{Bindings as BindingsValue, AreApart, ArePlainWords, plain_bindings};
ghost use Rattle.spirv_meaning.specs.Target.{target, local_size, State as TargetState};
ghost use Rattle.spirv_meaning.specs.Same.{Same, source_steps, target_steps};
ghost use Rattle.spirv_meaning.specs.Empty.{empty_program, empty_module, BeforeReturn};
ghost use Rattle.spirv_meaning.specs.Laws.{SitesAreBelow, SitesBegin, SitesRise};
ghost use Rattle.spirv_meaning.specs.EmptyRun as empty;

use dxil_form::Program;

/// A relation between the states of a program and those of a module, by launch and invocation, that their steps keep.
///
/// `at` gives each resource of the program its set and binding in the module. The module's LocalSize is the program's thread counts.
pub trait StepMatching {
    ghost program: { ProgramValue };

    ghost at: { BindingsValue };

    ghost module_of: { ModuleValue };

    ghost local: { local_size module_of.insts ≡ program.local };

    ghost relation: { Launch → ℕ → SourceState → TargetState → Type 0 };

    ghost matched: { (l : Launch) → Fits program l → (i : ℕ) (s : SourceState) (t : TargetState) → relation l i s t → Matched SourceState TargetState (source program l) (target module_of at l) (relation l) (source_steps program) (target_steps module_of) i s t };

    ghost starting: { (l : Launch) → Fits program l → (i : ℕ) → Starting SourceState TargetState (source program l) (target module_of at l) (relation l) (source_steps program) (target_steps module_of) i };
}

/// A program and a module whose states match from event to event and from block to block do the same, in every launch and by every schedule.
///
/// The function does nothing: it is a theorem, which its contract states.
pub fn same_by_matching<M: StepMatching>()
    ensures { Same M.program M.at M.module_of }
{}

/// The program that only returns, and its module.
pub struct EmptyShader;

impl StepMatching for EmptyShader {
    ghost program = { empty_program };

    ghost at = { [] };

    ghost module_of = { empty_module };

    ghost local = { empty.local };

    ghost relation = { BeforeReturn };

    ghost matched = { λ l fits. empty.matched l };

    ghost starting = { λ l fits. empty.starting l };
}

/// The program that only returns and its module do the same.
pub fn empty_shader_is_same()
    ensures { Same empty_program [] empty_module }
{
    same_by_matching::<EmptyShader>()
}

/// The bindings by the formula give no two resources of a program the same set and binding, and fit in 32 bits.
///
/// The function does nothing: it is a theorem, which its contract states.
pub fn plain_bindings_fit(p: &Program)
    requires { Sound p.now }
    ensures apart { AreApart p.now (plain_bindings p.now) }
    ensures words { ArePlainWords p.now }
{}

/// At each label exactly those blocks begin whose site it is, by rising number.
///
/// The function does nothing: it is a theorem, which its contract states.
pub fn sites_begin()
    ensures below { SitesAreBelow }
    ensures begin { SitesBegin }
    ensures rise { SitesRise }
{}
