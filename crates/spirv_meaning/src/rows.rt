ghost use Rattle.spirv_meaning.specs.Rows.{ArmWithoutValueIsUndefined, ArmsOfTwoKindsAreUndefined, AtomicMinimum, AtomicOfAnotherScopeIsUndefined, BarrierOfNobody, BindingsNameTheResource, ChosenArmIsStored, ControlBarrierSyncs, DivisionByZeroIsUndefined, EmptyShaderBeginsBlock, EmptyShaderEnds, EmptyShaderIsBusy, GroupNumberIsStored, LabelIsSite, LastWordIsLoaded, LengthIsStored, LocalSizeIsTheModules, MemoryBarrierDoesNot, NoBindingIsUndefined, OtherLocalSizeIsNotSame, PastTheEndIsUndefined, PlainBindingsAreTheFormula, RowIsFourWords, SharedWordIsStored, SignedMinimum, StoreToAnInputIsUndefined, SwapBeginsBlocks, SwapIsBusy, SwapStores};

/// What small modules do, by the definitions: the empty shader, groups of another size, bindings, accesses of each kind of memory, barriers, selects, divisions, and the swap of two phis.
///
/// The function does nothing: it is a theorem, which its contract states.
pub fn worked_rows()
    ensures label_is_site { LabelIsSite }
    ensures empty_shader_ends { EmptyShaderEnds }
    ensures empty_shader_is_busy { EmptyShaderIsBusy }
    ensures empty_shader_begins_block { EmptyShaderBeginsBlock }
    ensures local_size_is_the_modules { LocalSizeIsTheModules }
    ensures other_local_size_is_not_same { OtherLocalSizeIsNotSame }
    ensures plain_bindings_are_the_formula { PlainBindingsAreTheFormula }
    ensures group_number_is_stored { GroupNumberIsStored }
    ensures last_word_is_loaded { LastWordIsLoaded }
    ensures past_the_end_is_undefined { PastTheEndIsUndefined }
    ensures bindings_name_the_resource { BindingsNameTheResource }
    ensures no_binding_is_undefined { NoBindingIsUndefined }
    ensures row_is_four_words { RowIsFourWords }
    ensures store_to_an_input_is_undefined { StoreToAnInputIsUndefined }
    ensures shared_word_is_stored { SharedWordIsStored }
    ensures atomic_minimum { AtomicMinimum }
    ensures signed_minimum { SignedMinimum }
    ensures atomic_of_another_scope_is_undefined { AtomicOfAnotherScopeIsUndefined }
    ensures control_barrier_syncs { ControlBarrierSyncs }
    ensures memory_barrier_does_not { MemoryBarrierDoesNot }
    ensures barrier_of_nobody { BarrierOfNobody }
    ensures arms_of_two_kinds_are_undefined { ArmsOfTwoKindsAreUndefined }
    ensures arm_without_value_is_undefined { ArmWithoutValueIsUndefined }
    ensures chosen_arm_is_stored { ChosenArmIsStored }
    ensures division_by_zero_is_undefined { DivisionByZeroIsUndefined }
    ensures length_is_stored { LengthIsStored }
    ensures swap_stores { SwapStores }
    ensures swap_is_busy { SwapIsBusy }
    ensures swap_begins_blocks { SwapBeginsBlocks }
{}
