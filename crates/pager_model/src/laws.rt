//! Examples of the definitions, and laws over them: each is a function that does nothing, whose contract the gate proves.

ghost use Rattle.std.specs.Prelude.{◌≡◌, ℕ, ◌∷◌, ◌++◌, ◌==◌, [], Some, None, true, false, List, codes, nat_lt, option_map};
ghost use Rattle.pager_model.specs.declared.entry.Entry.{Entry};
ghost use Rattle.pager_model.specs.declared.entry.What.TheVariants.{Claim, Clear, Pin, Kept, Rest};
ghost use Rattle.pager_model.specs.declared.call.Call.TheVariants.{Grow, Unmap, Protect, Load, Store, Sync, Evict, Discard, Wire, Unwire};
ghost use Rattle.pager_model.specs.declared.region.Kind.TheVariants.{Fixed, Wired};
ghost use Rattle.pager_model.specs.declared.region.Rights.TheVariants.{NoAccess, Write};
ghost use Rattle.pager_model.specs.declared.reply.Reply.TheVariants.{Done, Value, Clean, Unmapped, Denied, Busy};
ghost use Rattle.pager_model.specs.Ages.{with_member, oldest_in};
ghost use Rattle.pager_model.specs.Examples.{eight_pages, eight_pinned, eight_growing, eight_wired, one_discarded, one_wired, one_unwired, one_claimed, wire_done, wire_busy, discard_after, answer, missed, two_processors, while_claimed, after_finding, out_page_zero, after_map, two_frames, one_taken, one_broken, one_given, one_carved, both_taken, want_eight, small_setting, legal_history, exchanged_history, discarding_history, wiring_history, small_script, take_page_one, on_both, on_frames, eight_places, eight_parts_used, one_turn, got_turn, failing_turn, idle_turn, spent_turn, second_claim, goes_on_failing, failing_load, made_up_fault, untold_space, run_of_pages, with_dirty, with_read, with_region, writable, small_tile, base_and_64, base_and_512, all_but_8, one_of_sixty_four, sixty_four_places, all_places, is_spread};
ghost use Rattle.pager_model.specs.Order.{progress_of, at_rest};
ghost use Rattle.pager_model.specs.SpaceStates.{IsAsked};
ghost use Rattle.pager_model.specs.Flat.{after_call, reply_of};
ghost use Rattle.pager_model.specs.FrameStates.{layout_of, take_frame, frame_of, held_by, dropped, free_count, reserved_count, wired_count, has_evictable, pin_range, lowest_claimed};
ghost use Rattle.pager_model.specs.FreeBlocks.{choice};
ghost use Rattle.pager_model.specs.Headline.{list_in};
ghost use Rattle.pager_model.specs.Layouts.{oldest_of};
ghost use Rattle.pager_model.specs.PreferredSize.{preferred_size, preferred_among};
ghost use Rattle.pager_model.specs.PrintedText.{answers_text, history_line, reply_words};
ghost use Rattle.pager_model.specs.Records.{is_used, yield_of, kept_part, part_at, goes_on_at};
ghost use Rattle.pager_model.specs.Regions.{wanted};
ghost use Rattle.pager_model.specs.TraceText.{HasText, first_line, call_line, line_words, text_of};
ghost use Rattle.pager_model.specs.Legal.{IsLegal, MayFollow, space_at};
ghost use Rattle.pager_model.specs.Settings.{Given};
ghost use Rattle.pager_model.specs.SizeSets.{all_sizes, size_within, size_below};
ghost use Rattle.pager_model.specs.Images.{is_in_image, images_with, touched, still_tiles};
ghost use Rattle.pager_model.specs.Tiles.{tile_of, tile_with, size_at, tile_in, tile_size_in, is_promoted_in};

/// A legal history goes on by an entry that may follow it.
pub fn legal_goes_on()
    ensures { (g : Given) (history : List Entry) (e : Entry) → IsLegal g history → MayFollow g history e → IsLegal g (history ++ e ∷ []) }
{}

/// No entry changes which page sizes a space has.
pub fn a_space_keeps_its_sizes()
    ensures { (g : Given) (history : List Entry) (s : ℕ) → (space_at g history s).sizes ≡ g.sizes }
{}

/// Where only base pages and pages of 512 are there, the largest size up to that of 64 pages is the base page's, and so is the next one
/// below that of 512.
pub fn sizes_may_be_missing()
    ensures within { size_within base_and_512 2 ≡ 0 }
    ensures itself { size_within base_and_512 3 ≡ 3 }
    ensures below { size_below base_and_512 3 ≡ Some 0 }
    ensures last { size_below base_and_512 0 ≡ None }
{}

/// Of free blocks of two frames at 2 and one frame at 5, the choice of one frame is the block of one: the lowest free frames
/// are not the choice.
pub fn choice_is_the_least_block()
    ensures one { choice (false ∷ false ∷ true ∷ true ∷ false ∷ true ∷ false ∷ false ∷ []) 0 ≡ Some 5 }
    ensures none_of_eight { choice (false ∷ false ∷ true ∷ true ∷ false ∷ true ∷ false ∷ false ∷ []) 1 ≡ None }
{}

/// A stored word is loaded again, another page's word is still zero, and a page past the region is unmapped.
pub fn flat_memory_keeps_words()
    ensures stored { reply_of (after_call eight_pages (Store 0 8192 5)) (Load 0 8192) ≡ Value 5 }
    ensures other { reply_of (after_call eight_pages (Store 0 8192 5)) (Load 0 0) ≡ Value 0 }
    ensures past { reply_of eight_pages (Load 0 65536) ≡ Unmapped }
{}

/// A discarded page's word is zero, and so is its copy; the page isn't dirty, and its rights stay. Another page keeps its word, and a range past
/// the region's end is unmapped.
pub fn a_discard_leaves_zero_words()
    ensures word { reply_of one_discarded (Load 0 16384) ≡ Value 0 }
    ensures copy { one_discarded.copies 2 ≡ Some (λ i. 0) }
    ensures clean { one_discarded.dirty 2 ≡ false }
    ensures rights { one_discarded.rights 2 ≡ Write }
    ensures other { reply_of one_discarded (Load 0 8192) ≡ Value 5 }
    ensures past { reply_of eight_pages (Discard 0 7 2) ≡ Unmapped }
{}

/// A pinned region is wired: none of its pages is evicted or discarded, and its wants are wired. It may be unwired, and may grow; one whose kind
/// is wired stays so.
pub fn a_pinned_region_is_wired()
    ensures evict { reply_of eight_pinned (Evict 0 5) ≡ Denied }
    ensures discard { reply_of eight_pinned (Discard 0 0 8) ≡ Denied }
    ensures want { wanted eight_pinned.regions 3 ≡ Some (record want_eight { wired = true }) }
    ensures unwired { reply_of (after_call eight_pinned (Unwire 0 7)) (Evict 0 5) ≡ Clean }
    ensures grows { reply_of eight_growing (Grow 0 0 8) ≡ Done }
    ensures stays { reply_of eight_wired (Unwire 0 0) ≡ Denied }
    ensures again { reply_of eight_wired (Wire 0 0) ≡ Done }
    ensures past { reply_of eight_pages (Wire 0 8) ≡ Unmapped }
{}

/// The used places of a range of pages of a space are wired and may not be evicted, until they are wired no longer. A claimed place is found by its
/// page.
pub fn places_are_wired()
    ensures wired { wired_count one_wired ≡ 1 }
    ensures none { has_evictable one_wired ≡ false }
    ensures unwired { wired_count one_unwired ≡ 0 }
    ensures one { has_evictable one_unwired ≡ true }
    ensures other_space { wired_count (pin_range one_taken 1 0 8 true) ≡ 0 }
    ensures other_pages { wired_count (pin_range one_taken 0 4 4 true) ≡ 0 }
    ensures claimed { lowest_claimed one_claimed 0 0 8 ≡ Some 3 }
    ensures beside { lowest_claimed one_claimed 0 4 4 ≡ None }
{}

/// Of eight frames the first taking reserves all, at the frame of the page's place in its extent, and the next page of the extent
/// has the frame of its own place.
pub fn a_page_has_its_place()
    ensures first { frame_of one_taken 0 3 ≡ Some 3 }
    ensures reserved { reserved_count one_taken ≡ 7 }
    ensures next { option_map (λ t. t.frame) (take_frame one_taken 0 5 want_eight) ≡ Some 5 }
{}

/// Where no frame is free, a page of another space breaks the reservation: it has a frame of the least free block that is left,
/// the used place stays, and the breaking is counted.
pub fn a_reservation_is_broken_when_frames_run_short()
    ensures frame { frame_of one_broken 1 0 ≡ Some 2 }
    ensures stays { frame_of one_broken 0 3 ≡ Some 3 }
    ensures free { free_count one_broken ≡ 6 }
    ensures counted { one_broken.preemptions ≡ 1 }
{}

/// A page that gives its frame up has none, and a reservation without a used place is free.
pub fn a_reservation_without_a_page_is_free()
    ensures none { frame_of one_given 0 3 ≡ None }
    ensures free { free_count one_given ≡ 8 }
{}

/// A claimed frame that is given up is carved out of its reservation, and its claimer holds it. Dropped it is free, and may be taken
/// again.
pub fn a_claimed_frame_comes_to_its_claimer()
    ensures held { held_by one_carved 0 ≡ Some 3 }
    ensures free { free_count one_carved ≡ 7 }
    ensures dropped { free_count (dropped one_carved 0) ≡ 8 }
    ensures taken { option_map (λ t. t.frame) (take_frame (dropped one_carved 0) 0 3 want_eight) ≡ Some 3 }
{}

/// Two frames are too few for a reservation of eight: the takings have one each, and a third has none.
pub fn smaller_sizes_are_tried()
    ensures first { option_map (λ t. t.frame) (take_frame two_frames 0 3 want_eight) ≡ Some 0 }
    ensures third { take_frame both_taken 0 7 want_eight ≡ None }
    ensures place { frame_of both_taken 0 5 ≡ Some 1 }
{}

/// A reservation each of whose eight parts has a used place yields one frame: it is broken, and as no part was empty, so is its
/// lowest part. A page of another space then has the frame beside the first.
pub fn a_break_goes_on_where_no_part_is_empty()
    ensures none_free { free_count eight_parts_used ≡ 0 }
    ensures frame { option_map (λ t. t.frame) (take_frame eight_parts_used 1 0 want_eight) ≡ Some 1 }
    ensures free { option_map (λ t. free_count t.state) (take_frame eight_parts_used 1 0 want_eight) ≡ Some 6 }
    ensures reserved { option_map (λ t. reserved_count t.state) (take_frame eight_parts_used 1 0 want_eight) ≡ Some 49 }
    ensures counted { option_map (λ t. t.state.preemptions) (take_frame eight_parts_used 1 0 want_eight) ≡ Some 1 }
{}

/// A turn of a daemon with a low mark of 2 that evicts one page is a whole turn, and no sequence of a processor that makes calls.
pub fn a_turn_ends_with_a_rest()
    ensures whole { progress_of 2 one_turn ≡ Some (at_rest 2 1) }
    ensures no_call { progress_of 0 one_turn ≡ None }
    ensures got { progress_of 2 got_turn ≡ Some (at_rest 2 1) }
    ensures idle { progress_of 2 (idle_turn false) ≡ Some (at_rest 2 1) }
{}

/// A turn is short of frames at its end only after as many evictions as its mark, and makes no more than these. A write that fails ends it.
pub fn a_turn_ends_by_its_mark_or_a_fault()
    ensures short { progress_of 1 spent_turn ≡ Some (at_rest 1 1) }
    ensures early { progress_of 2 spent_turn ≡ None }
    ensures at_once { progress_of 1 (idle_turn true) ≡ None }
    ensures over { progress_of 1 second_claim ≡ None }
    ensures failed { progress_of 2 failing_turn ≡ Some (at_rest 2 1) }
    ensures gone_on { progress_of 2 goes_on_failing ≡ None }
{}

/// A wire is done after a pin of a range that has its page, or is kept from it by the page that was found; a discard is done after a clearing of
/// its range alone.
pub fn a_wire_and_a_discard_end_as_they_began()
    ensures done { progress_of 0 wire_done ≡ Some (at_rest 0 1) }
    ensures busy { progress_of 0 (wire_busy 5) ≡ Some (at_rest 0 1) }
    ensures other_page { progress_of 0 (wire_busy 6) ≡ None }
    ensures not_alone { progress_of 0 (answer 0 (Wire 0 3) (Busy 5) ∷ []) ≡ None }
    ensures not_at_once { progress_of 0 (answer 0 (Wire 0 3) Done ∷ []) ≡ None }
    ensures not_denied { progress_of 0 (answer 0 (Wire 0 3) Denied ∷ []) ≡ None }
    ensures denied { progress_of 0 (answer 0 (Unwire 0 3) Denied ∷ []) ≡ Some (at_rest 0 1) }
    ensures discarded { progress_of 0 (discard_after 1) ≡ Some (at_rest 0 1) }
    ensures more_cleared { progress_of 0 (discard_after 2) ≡ None }
{}

/// A load whose victim could not be written is answered with the fault of the victim's store, and with no other.
pub fn a_fault_is_answered_as_it_was()
    ensures told { progress_of 0 failing_load ≡ Some (at_rest 0 1) }
    ensures made_up { progress_of 0 made_up_fault ≡ None }
{}

/// In a space whose store tells nothing a loaded word is the one that was stored last, and where none was it may be any.
pub fn an_untold_word_is_tied_to_its_latest_answer()
    ensures stored { IsAsked untold_space (Load 0 8192) (Value 5) }
    ensures other_word { IsAsked untold_space (Load 0 8200) (Value 77) }
    ensures not_another { IsAsked untold_space (Load 0 8192) (Value 6) → ⊥ }
{}

/// A page that was never taken has no answer: the history is legal as it is, and isn't with two entries exchanged.
pub fn a_store_waits_for_its_frame()
    ensures legal { IsLegal small_setting legal_history }
    ensures exchanged { IsLegal small_setting exchanged_history → ⊥ }
{}

/// A page is discarded, and what is loaded from it then is zero; a page is wired, isn't evicted then, and is wired no longer.
pub fn a_discard_and_a_wire_are_legal()
    ensures discard { IsLegal small_setting discarding_history }
    ensures wire { IsLegal small_setting wiring_history }
{}

/// A wire of a region one of whose frames is claimed is kept from being done by the lowest such page, with its frame: by no other page, frame
/// or range, and the frames aren't wired in its place. Then that wire alone is answered, by its processor, and as it found.
pub fn a_claimed_page_keeps_a_wire()
    ensures busy { IsLegal two_processors (after_finding (answer 3 (Wire 0 3) (Busy 0) ∷ [])) }
    ensures other_page { IsLegal two_processors (while_claimed (on_both 0 (Kept 0 8 1 1) ∷ [])) → ⊥ }
    ensures other_frame { IsLegal two_processors (while_claimed (on_both 0 (Kept 0 8 0 1) ∷ [])) → ⊥ }
    ensures other_range { IsLegal two_processors (while_claimed (on_both 0 (Kept 0 4 0 0) ∷ [])) → ⊥ }
    ensures wired { IsLegal two_processors (while_claimed (on_both 0 (Pin 0 8 true) ∷ [])) → ⊥ }
    ensures between { IsLegal two_processors (after_finding (out_page_zero ∷ [])) → ⊥ }
    ensures to_a_load { IsLegal two_processors (after_finding (answer 3 (Load 0 0) (Busy 0) ∷ [])) → ⊥ }
    ensures to_an_unwire { IsLegal two_processors (after_finding (answer 3 (Unwire 0 3) (Busy 0) ∷ [])) → ⊥ }
    ensures to_another_page { IsLegal two_processors (after_finding (answer 3 (Wire 0 3) (Busy 1) ∷ [])) → ⊥ }
    ensures done { IsLegal two_processors (after_finding (answer 3 (Wire 0 3) Done ∷ [])) → ⊥ }
{}

/// A pin is of a whole region, and none ends the wires of one whose kind is wired; what was pinned for a wire is no unwire. Pages past a region's end
/// aren't cleared.
pub fn a_pin_and_a_clear_are_of_regions()
    ensures part { IsLegal small_setting (after_map Fixed (on_both 0 (Pin 0 4 true) ∷ [])) → ⊥ }
    ensures wired_kind { IsLegal small_setting (after_map Wired (on_both 0 (Pin 0 8 false) ∷ [])) → ⊥ }
    ensures other_way { IsLegal small_setting (after_map Fixed (on_both 0 (Pin 0 8 true) ∷ answer 1 (Unwire 0 3) Done ∷ [])) → ⊥ }
    ensures past { IsLegal small_setting (after_map Fixed (on_both 0 (Clear 6 4) ∷ [])) → ⊥ }
{}

/// A trace of two calls has this text, one of base pages and superpages of 512 this first line, a call of each other kind this line, and a legal history prints these answers.
pub fn small_texts()
    ensures trace { text_of small_script ≡ codes "trace 1 512 1 1\n0 map 0 0 8 fixed write\n0 store 0 8192 5\nend\n" }
    ensures sizes { first_line (record small_script { version = 2; sizes = base_and_512 }) ≡ codes "trace 2 512 1 1 03\n" }
    ensures all_sizes { first_line (record small_script { version = 2 }) ≡ codes "trace 2 512 1 1 0123\n" }
    ensures version { HasText (record small_script { sizes = base_and_512 }) → ⊥ }
    ensures early_wire { HasText (record small_script { version = 2; calls = record { processor = 0; call = Wire 0 3 } ∷ [] }) → ⊥ }
    ensures sizes_of_3 { first_line (record small_script { version = 3; sizes = base_and_512 }) ≡ codes "trace 3 512 1 1 03\n" }
    ensures grow { call_line (record { processor = 1; call = Grow 2 1048575 1048576 }) ≡ codes "1 grow 2 1048575 1048576\n" }
    ensures unmap { call_line (record { processor = 15; call = Unmap 15 0 }) ≡ codes "15 unmap 15 0\n" }
    ensures protect { call_line (record { processor = 0; call = Protect 0 300 1 NoAccess }) ≡ codes "0 protect 0 300 1 none\n" }
    ensures load { call_line (record { processor = 0; call = Load 0 8589934584 }) ≡ codes "0 load 0 8589934584\n" }
    ensures copies { line_words (record { processor = 0; call = Sync 1 3 }) ≡ codes "0" ∷ codes "sync" ∷ codes "1" ∷ codes "3" ∷ [] }
    ensures evict { call_line (record { processor = 0; call = Evict 1 3 }) ≡ codes "0 evict 1 3\n" }
    ensures discard { call_line (record { processor = 0; call = Discard 0 300 8 }) ≡ codes "0 discard 0 300 8\n" }
    ensures wire { call_line (record { processor = 0; call = Wire 1 3 }) ≡ codes "0 wire 1 3\n" }
    ensures unwire { call_line (record { processor = 0; call = Unwire 1 3 }) ≡ codes "0 unwire 1 3\n" }
    ensures answers { answers_text 1 legal_history ≡ codes "0 0 done\n0 1 done miss 0\n0 2 unmapped\n" }
    ensures taking { history_line (record { number = 1; entry = take_page_one }) ≡ codes "1 0 s0+f take 1 0 0 8 8 0\n" }
    ensures claim { history_line (record { number = 0; entry = on_both 0 (Claim 1 6 2 (Some (record { page = 1; writing = true }))) }) ≡ codes "0 0 s0+f claim 1 6 2 for 1 write\n" }
    ensures pin { history_line (record { number = 3; entry = on_both 0 (Pin 0 8 true) }) ≡ codes "3 0 s0+f pin 0 8 1\n" }
    ensures kept { history_line (record { number = 3; entry = on_both 0 (Kept 0 8 5 2) }) ≡ codes "3 0 s0+f kept 0 8 5 2\n" }
    ensures busy { reply_words (Busy 5) ≡ codes "busy" ∷ codes "5" ∷ [] }
    ensures rest { history_line (record { number = 12; entry = on_frames (Rest false) }) ≡ codes "12 0 f rest 0\n" }
{}

/// Page 5 of a region of pages 0 to 15 has a reservation of eight pages, and one of a single page where a reservation has
/// page 7, where at most seven pages may be had, or where the size is missing. In a region of 512 pages it has one of the largest size
/// that there is.
pub fn preferred_sizes()
    ensures eight { preferred_size (λ k first. false) 5 (record { low = 0; high = 16; cap = 16; wired = false }) ≡ 1 }
    ensures in_the_way { preferred_size (λ k first. nat_lt 0 k) 5 (record { low = 0; high = 16; cap = 16; wired = false }) ≡ 0 }
    ensures capped { preferred_size (λ k first. false) 5 (record { low = 0; high = 16; cap = 7; wired = false }) ≡ 0 }
    ensures missing { preferred_among base_and_512 (λ k first. false) 5 (record { low = 0; high = 16; cap = 16; wired = false }) ≡ 0 }
    ensures largest { preferred_among base_and_64 (λ k first. false) 5 (record { low = 0; high = 512; cap = 512; wired = false }) ≡ 2 }
{}

/// A reservation of eight places with its fourth used yields one page; with all used it yields nothing; and its parts are
/// reservations where they are used.
pub fn yields_and_parts()
    ensures one_used { yield_of (λ frame. frame == 19) eight_places ≡ Some 0 }
    ensures full { yield_of (λ frame. nat_lt 15 frame) eight_places ≡ None }
    ensures used_part { kept_part (λ frame. frame == 19) eight_places 3 ≡ Some (record { space = 0; first = 11; size = 0; frame = 19; stamp = 7 }) }
    ensures empty_part { kept_part (λ frame. frame == 19) eight_places 4 ≡ None }
{}

/// A reservation of 64 places with one used place has eight together without one. Where the size of eight is missing it yields one frame,
/// and stands in that list alone.
pub fn a_reservation_is_listed_by_the_sizes()
    ensures by_all { yield_of (is_used (layout_of one_of_sixty_four).used) sixty_four_places ≡ Some 1 }
    ensures by_these { list_in one_of_sixty_four sixty_four_places ≡ Some 0 }
    ensures listed { oldest_of (layout_of one_of_sixty_four) 0 ≡ Some 0 }
    ensures alone { oldest_of (layout_of one_of_sixty_four) 1 ≡ None }
{}

/// Of a reservation of 512 places whose first part of 64 yields one frame, and each other part eight, a breaking goes on at the second
/// part; and at the first where the size of eight is missing, so that all parts yield one.
pub fn a_break_goes_on_by_the_sizes()
    ensures by_all { goes_on_at all_sizes is_spread all_places ≡ Some (part_at 2 all_places 1) }
    ensures by_these { goes_on_at all_but_8 is_spread all_places ≡ Some (part_at 2 all_places 0) }
{}

/// Of two reservations with one stamp the one with the lower frame is the older.
pub fn equal_stamps_go_by_frame()
    ensures { oldest_in (with_member (record { stamp = 3; frame = 9 }) (with_member (record { stamp = 3; frame = 12 }) [])) ≡ Some 9 }
{}

/// Eight resident pages in eight frames of an extent are one tile; in frames that begin at no multiple of eight, or with one dirty page,
/// each is a tile of its own.
pub fn tiles_are_aligned_and_uniform()
    ensures eight { tile_of (run_of_pages 16 8) 3 ≡ Some (tile_with 1 0 (writable 16 false)) }
    ensures unaligned { size_at (run_of_pages 12 8) 3 ≡ 0 }
    ensures one_dirty { size_at (with_dirty 5 (run_of_pages 16 8)) 3 ≡ 0 }
    ensures other_right { size_at (with_read 5 (run_of_pages 16 8)) 3 ≡ 0 }
    ensures two_regions { size_at (with_region 5 (run_of_pages 16 8)) 3 ≡ 0 }
    ensures absent { tile_of (run_of_pages 16 8) 8 ≡ None }
{}

/// Of 511 resident pages in frames from 512 on the first seven extents of 64 pages are tiles, and the last page is one by itself; with one
/// page more all are one tile.
pub fn a_tile_is_the_largest()
    ensures sixty_four { size_at (run_of_pages 512 511) 300 ≡ 2 }
    ensures eight { size_at (run_of_pages 512 511) 449 ≡ 1 }
    ensures one { size_at (run_of_pages 512 511) 510 ≡ 0 }
    ensures all { size_at (run_of_pages 512 512) 300 ≡ 3 }
{}

/// Where sizes are missing, a page's tile is the largest of those that there are: the page alone in place of its 64 pages, and these in
/// place of 512. An extent of a missing size is not promoted.
pub fn a_tile_is_of_the_sizes()
    ensures alone { tile_in base_and_512 (run_of_pages 512 511) 300 ≡ Some (tile_with 0 300 (writable 812 false)) }
    ensures sixty_four { tile_size_in base_and_64 (run_of_pages 512 512) 300 ≡ 2 }
    ensures not_promoted { is_promoted_in base_and_512 (run_of_pages 16 7) (run_of_pages 16 8) 0 ≡ false }
    ensures promoted { is_promoted_in base_and_512 (run_of_pages 512 511) (run_of_pages 512 512) 0 ≡ true }
{}

/// The eighth page promotes its extent once, and the first dirty page demotes it once.
pub fn a_promotion_is_counted_at_the_first_page()
    ensures promoted { is_promoted_in all_sizes (run_of_pages 16 7) (run_of_pages 16 8) 0 ≡ true }
    ensures once { is_promoted_in all_sizes (run_of_pages 16 7) (run_of_pages 16 8) 7 ≡ false }
    ensures demoted { is_promoted_in all_sizes (with_dirty 5 (run_of_pages 16 8)) (run_of_pages 16 8) 0 ≡ true }
{}

/// An access puts its page's tile into its own processor's image alone, and each entry takes out of every image what is no tile any more.
pub fn an_entry_changes_the_images()
    ensures own { images_with all_sizes (run_of_pages 16 7) 1 (Some (small_tile 0)) (λ c. small_tile 1 ∷ []) 1 ≡ small_tile 0 ∷ small_tile 1 ∷ [] }
    ensures other { images_with all_sizes (run_of_pages 16 7) 1 (Some (small_tile 0)) (λ c. small_tile 1 ∷ []) 0 ≡ small_tile 1 ∷ [] }
    ensures gone { images_with all_sizes (run_of_pages 16 8) 1 None (λ c. small_tile 1 ∷ []) 0 ≡ [] }
{}

/// The tile used last comes to the front and stands once, and a tile that is none any more is gone.
pub fn an_image_keeps_what_was_used_last()
    ensures front { touched (small_tile 1) (touched (small_tile 0) (touched (small_tile 1) [])) ≡ small_tile 1 ∷ small_tile 0 ∷ [] }
    ensures gone { still_tiles all_sizes (run_of_pages 16 8) (touched (small_tile 0) []) ≡ [] }
    ensures stays { is_in_image (still_tiles all_sizes (run_of_pages 16 7) (touched (small_tile 0) [])) (Some (small_tile 0)) ≡ true }
{}
