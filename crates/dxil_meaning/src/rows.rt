ghost use Rattle.dxil_meaning.specs.Edges as edge;
ghost use Rattle.dxil_meaning.specs.Rows.{Arithmetic, AtomicMinimum, BarrierAtAnotherSiteIsUndefined, ElementIsAtWord14, EndWhileWaitingIsUndefined, FewStepsAreBusy, GroupIsReleased, MaskedStoreIsOne, MissedBarrierIsUndefined, OffsetBetweenWordsIsUndefined, PhiSwapIsBusy, PhiSwapStores, SignedMinimum, ThreadNumbers, UnsignedMinimum};

/// What operations give and what small programs do, by the definitions: the swap of two phis, accesses, masks, minima, and barriers.
///
/// The function does nothing: it is a theorem, which its contract states.
pub fn worked_rows()
    ensures arithmetic { Arithmetic }
    ensures thread_numbers { ThreadNumbers }
    ensures phi_swap_stores { PhiSwapStores }
    ensures phi_swap_is_busy { PhiSwapIsBusy }
    ensures masked_store_is_one { MaskedStoreIsOne }
    ensures element_is_at_word14 { ElementIsAtWord14 }
    ensures offset_between_words_is_undefined { OffsetBetweenWordsIsUndefined }
    ensures atomic_minimum { AtomicMinimum }
    ensures unsigned_minimum { UnsignedMinimum }
    ensures signed_minimum { SignedMinimum }
    ensures group_is_released { GroupIsReleased }
    ensures end_while_waiting_is_undefined { EndWhileWaitingIsUndefined }
    ensures missed_barrier_is_undefined { MissedBarrierIsUndefined }
    ensures barrier_at_another_site_is_undefined { BarrierAtAnotherSiteIsUndefined }
    ensures few_steps_are_busy { FewStepsAreBusy }
{}

/// What accesses do at the last word of their memory and past it, by the definitions: parts, elements, rows, atomics and swaps out of range, and sizes.
///
/// The function does nothing: it is a theorem, which its contract states.
pub fn edge_rows()
    ensures last_word_is_loaded { edge.LastWordIsLoaded }
    ensures load_past_the_end_is_zero { edge.LoadPastTheEndIsZero }
    ensures offset_past_the_end_is_undefined { edge.OffsetPastTheEndIsUndefined }
    ensures two_parts_are_stored { edge.TwoPartsAreStored }
    ensures dropped_parts_are_steps { edge.DroppedPartsAreSteps }
    ensures dropped_value_is_read { edge.DroppedValueIsRead }
    ensures parts_past_the_element_are_zero { edge.PartsPastTheElementAreZero }
    ensures far_element_is_zero { edge.FarElementIsZero }
    ensures part_of_an_element_is_zero { edge.PartOfAnElementIsZero }
    ensures row_past_the_end_is_zero { edge.RowPastTheEndIsZero }
    ensures atomic_past_the_end_is_zero { edge.AtomicPastTheEndIsZero }
    ensures atomic_value_is_read { edge.AtomicValueIsRead }
    ensures swap_past_the_end_fails { edge.SwapPastTheEndFails }
    ensures size_is_in_words { edge.SizeIsInWords }
{}
