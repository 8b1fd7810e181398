//! What holds of every state of frames and spaces, and of every legal history: each is a clause of a function that does nothing.

ghost use Rattle.std.specs.Prelude.{◌≡◌, ℕ, ◌<◌, Bool, List, Option, option_map, Some, None, true, length, ◌≢◌, ◌⊎◌, ◌↔◌, ◌∷◌, ◌++◌, [], false, ◌+◌, ◌≤◌};
ghost use Rattle.pager_model.specs.declared.call.Call.TheVariants.{Map, Unmap, Protect, Discard};
ghost use Rattle.pager_model.specs.declared.call.Call.{Call as MemoryCall};
ghost use Rattle.pager_model.specs.declared.entry.Entry.{Entry};
ghost use Rattle.pager_model.specs.declared.entry.Want.{Want};
ghost use Rattle.pager_model.specs.declared.entry.What.TheVariants.{Answer, Out, Failed};
ghost use Rattle.pager_model.specs.declared.region.Kind.{Kind};
ghost use Rattle.pager_model.specs.declared.region.Region.{Region};
ghost use Rattle.pager_model.specs.declared.region.Rights.{Rights};
ghost use Rattle.pager_model.specs.declared.reply.Answered.{Answered};
ghost use Rattle.pager_model.specs.declared.reply.Reply.{Reply};
ghost use Rattle.pager_model.specs.declared.reservation.Reservation.{Reservation};
ghost use Rattle.pager_model.specs.declared.tile.Tile.{Tile};
ghost use Rattle.pager_model.specs.Agreement.{Agrees, IsPartition, NothingHeld, OwnsBy};
ghost use Rattle.pager_model.specs.CallEntries.{answer_entry};
ghost use Rattle.pager_model.specs.Flat.{Flat, after_call, space_of_call};
ghost use Rattle.pager_model.specs.FrameStates.{layout_of, frame_of, take_frame, IsFull, free_count, reserved_count, used_count, held_count};
ghost use Rattle.pager_model.specs.Headline.{PreemptsOldest, RefusesRightly, KeepsRightly, IsNeverShort, AllAnswered, AllServed};
ghost use Rattle.pager_model.specs.Images.{still_tiles};
ghost use Rattle.pager_model.specs.Laws.{KeepsFrames, KeepsWires, EqualsItsCopy, WasCleared, KeepsLawsAllAlong};
ghost use Rattle.pager_model.specs.Layouts.{Layout, break_layout, meets_any, record_at};
ghost use Rattle.pager_model.specs.Legal.{AllWhole, IsLegal, frames_at, frames_state, progress_at, space_at};
ghost use Rattle.pager_model.specs.Order.{Progress};
ghost use Rattle.pager_model.specs.PreferredSize.{preferred_size, preferred_among};
ghost use Rattle.pager_model.specs.Records.{is_used, yield_of, yield_in};
ghost use Rattle.pager_model.specs.Regions.{in_range, region_at};
ghost use Rattle.pager_model.specs.Settings.{Given};
ghost use Rattle.pager_model.specs.SizeSets.{SizeSet, has_size, size_within};
ghost use Rattle.pager_model.specs.SpaceStates.{SpaceState, SpaceAllows, IsResident, ReplyAllowed, pages_of, served_page, space_after};
ghost use Rattle.pager_laws.specs.Allowed.{AreFrameEntries};
ghost use Rattle.pager_laws.specs.Breaking.{Breaks};
ghost use Rattle.pager_laws.specs.Copies.{LosesItsCopy, IsWithoutService};
ghost use Rattle.pager_laws.specs.Faults.{HasFailed};
ghost use Rattle.pager_laws.specs.Hits.{HasHit, retiled};
ghost use Rattle.pager_laws.specs.Laid.{IsLaid};
ghost use Rattle.pager_laws.specs.NewPages.{IsNew, IsNewButForRights, done};

// The frames.

/// A reservation that isn't full is broken: an extent of its yield is free then, each of its used places is one of a reservation
/// with its stamp, and nothing beside it changes.
pub fn breaking_frees_the_yield()
    ensures { (l : Layout) (r : Reservation) (k : ℕ) → IsLaid l → record_at l r.frame ≡ Some r → yield_in l.sizes (is_used l.used) r ≡ Some k
        → Breaks r k l (break_layout r l) }
{}

/// The yield by some sizes is the largest of them that is at most the yield by all four.
pub fn a_yield_is_cut_to_the_sizes()
    ensures { (z : SizeSet) (used : ℕ → Bool) (r : Reservation) → yield_in z used r ≡ option_map (size_within z) (yield_of used r) }
{}

/// The preferred size by some sizes is the largest of them that is at most the one by all four.
pub fn a_preferred_size_is_cut_to_the_sizes()
    ensures { (z : SizeSet) (space page : ℕ) (records : List (Option Reservation)) (want : Want)
        → preferred_among z (meets_any space records) page want ≡ size_within z (preferred_size (meets_any space records) page want) }
{}

/// No entry changes which page sizes there are, and each reservation is of one of them.
pub fn the_sizes_stay()
    ensures stay { (g : Given) (history : List Entry) → (frames_at g history).sizes ≡ g.sizes }
    ensures kept { (g : Given) (history : List Entry) (id : ℕ) (r : Reservation)
        → record_at (layout_of (frames_at g history)) id ≡ Some r → has_size g.sizes r.size ≡ true }
{}

/// Whatever entries the frames allow, each frame is in one role; every reservation has a used place, and no two of one space have a
/// common page; no two used places are of one age; and a processor claims at most one frame, and holds none while it does.
pub fn frames_keep()
    ensures { (g : Given) (entries : List Entry) → AreFrameEntries g entries → KeepsFrames g.frames (frames_state g entries) }
{}

/// After every legal history the frames keep this too.
pub fn frames_keep_their_laws()
    ensures { (g : Given) (history : List Entry) → IsLegal g history → KeepsFrames g.frames (frames_at g history) }
{}

/// For a page without a frame a taking has no result exactly where no frame is free and every reservation is full.
pub fn taking_fails_only_when_full()
    ensures full { (g : Given) (entries : List Entry) → AreFrameEntries g entries → (space page : ℕ) (want : Want)
        → frame_of (frames_state g entries) space page ≡ None
        → take_frame (frames_state g entries) space page want ≡ None → IsFull (frames_state g entries) }
    ensures none { (g : Given) (entries : List Entry) → AreFrameEntries g entries → (space page : ℕ) (want : Want)
        → frame_of (frames_state g entries) space page ≡ None → IsFull (frames_state g entries)
        → take_frame (frames_state g entries) space page want ≡ None }
{}

/// After every legal history each frame is in one role, and spaces and frames agree on the resident pages. Where a processor's
/// place in its order says that it claims or holds a frame it does, and elsewhere it claims and holds nothing; so nothing is
/// claimed or held where each processor's list is whole.
pub fn frames_have_one_role()
    ensures partition { (g : Given) (history : List Entry) → IsLegal g history → IsPartition g.frames (frames_at g history) }
    ensures agrees { (g : Given) (history : List Entry) → IsLegal g history → Agrees g history }
    ensures owns { (g : Given) (history : List Entry) → IsLegal g history → (c : ℕ) (p : Progress) → c < length g.marks
        → progress_at g history c ≡ Some p → OwnsBy (frames_at g history) c p.doing }
    ensures held { (g : Given) (history : List Entry) → IsLegal g history → AllWhole g history → NothingHeld (frames_at g history) }
{}

/// After every legal history a used place is wired exactly where its page's region is, but between a pin and the next entry of the space, where
/// the places of its range are as it said; and no place is both wired and claimed.
pub fn a_place_is_wired_as_its_region_is()
    ensures { (g : Given) (history : List Entry) → IsLegal g history → KeepsWires g history }
{}

/// In every legal history each reservation that a taking preempts, so that none of its size begins at its first frame any more, was
/// the oldest of its list.
pub fn the_oldest_is_preempted()
    ensures { (g : Given) (history : List Entry) → IsLegal g history → PreemptsOldest g history }
{}

/// In every legal history each answer that says that no frame could be had comes after a refusal with its numbers, which was its
/// processor's last entry. When that was made each frame was held by a processor, or under a page that was wired or whose frame was
/// claimed.
pub fn a_refusal_finds_no_frame()
    ensures { (g : Given) (history : List Entry) → IsLegal g history → RefusesRightly g history }
{}

/// In every legal history each answer that says that a page kept it from being done is of a wire, and comes after an entry that found this page,
/// which was its processor's last entry. When that was made the range was that of the region of the wire's page, and the page was the lowest of
/// it whose frame a processor claimed.
pub fn a_busy_wire_was_kept()
    ensures { (g : Given) (history : List Entry) → IsLegal g history → KeepsRightly g history }
{}

/// In every legal history a refusal's numbers sum to all frames, and the wired places that it tells are, together with the processors, more than the
/// frames.
pub fn no_frame_is_refused_before_all_are_kept()
    ensures { (g : Given) (history : List Entry) → IsLegal g history → IsNeverShort g history }
{}

/// After every legal history the free frames, the unused and the used places of reservations, and the frames that are held are all frames.
pub fn the_roles_are_all_frames()
    ensures { (g : Given) (history : List Entry) → IsLegal g history
        → free_count (frames_at g history) + reserved_count (frames_at g history) + used_count (frames_at g history) + held_count (frames_at g history) ≡ g.frames }
{}

// The spaces.

/// An unmap leaves no word, no right and no frame of its region's pages to the next map.
pub fn an_unmap_leaves_nothing_to_the_next_map()
    ensures { (st : SpaceState) (c d m n space page first len p : ℕ) (kind : Kind) (rights : Rights) (r : Region)
        → region_at st.flat.regions page ≡ Some r
        → SpaceAllows st (answer_entry c m (Unmap space page) done)
        → SpaceAllows (space_after st (answer_entry c m (Unmap space page) done)) (answer_entry d n (Map space first len kind rights) done)
        → in_range r.first r.length p ≡ true
        → in_range first len p ≡ true
        → IsNew (space_after (space_after st (answer_entry c m (Unmap space page) done)) (answer_entry d n (Map space first len kind rights) done)) rights p }
{}

/// After a discard that is done the pages of its range are new but for their rights, which they keep.
pub fn a_discard_leaves_its_pages_new()
    ensures { (st : SpaceState) (c n space first len page : ℕ)
        → SpaceAllows st (answer_entry c n (Discard space first len) done)
        → in_range first len page ≡ true
        → IsNewButForRights st (space_after st (answer_entry c n (Discard space first len) done)) page }
{}

/// A protect changes no word.
pub fn a_protect_changes_no_word()
    ensures { (f : Flat) (space page len : ℕ) (rights : Rights) → (after_call f (Protect space page len rights)).words ≡ f.words }
{}

/// A call of one space changes no other space's state.
pub fn a_call_changes_no_other_space()
    ensures { (g : Given) (history : List Entry) (c number s : ℕ) (call : MemoryCall) (a : Answered)
        → space_of_call call ≢ s
        → space_at g (history ++ answer_entry c number call a ∷ []) s ≡ space_at g history s }
{}

/// A page that isn't dirty equals its copy, after every legal history.
pub fn a_clean_page_equals_its_copy()
    ensures { (g : Given) (history : List Entry) (s page : ℕ)
        → IsLegal g history
        → (space_at g history s).flat.dirty page ≡ false
        → EqualsItsCopy (space_at g history s).flat page }
{}

/// A dirty page is resident, after every legal history, but for one of a range that was cleared, whose unmap or discard comes next.
pub fn a_dirty_page_is_resident()
    ensures { (g : Given) (history : List Entry) (s page : ℕ)
        → IsLegal g history
        → (space_at g history s).flat.dirty page ≡ true
        → IsResident (space_at g history s).base page ⊎ WasCleared (space_at g history s).next page }
{}

/// A page is written to its copy, or fails to be, only where it is dirty.
pub fn a_clean_page_is_never_written()
    ensures written { (st : SpaceState) (e : Entry) (page : ℕ) → SpaceAllows st e → e.what ≡ Out page true → st.flat.dirty page ≡ true }
    ensures failed { (st : SpaceState) (e : Entry) (page count : ℕ) → SpaceAllows st e → e.what ≡ Failed page true count → st.flat.dirty page ≡ true }
{}

/// A failed write leaves its page's copy unknown, and changes nothing else: the page is dirty and resident still, with the same words.
pub fn a_failed_write_loses_the_copy_alone()
    ensures { (st : SpaceState) (e : Entry) (page count : ℕ) → SpaceAllows st e → e.what ≡ Failed page true count → LosesItsCopy page st (space_after st e) }
{}

/// An answer for want of a frame or of memory, for a store's fault, or of a wire that a page kept from being done, changes nothing in the flat
/// memory and leaves every page its frame.
pub fn an_answer_without_service_changes_nothing()
    ensures flat { (st : SpaceState) (e : Entry) (number : ℕ) (call : MemoryCall) (a : Answered)
        → SpaceAllows st e
        → e.what ≡ Answer number call a
        → IsWithoutService a.reply
        → (space_after st e).flat ≡ st.flat }
    ensures frames { (st : SpaceState) (e : Entry) (number : ℕ) (call : MemoryCall) (a : Answered)
        → SpaceAllows st e
        → e.what ≡ Answer number call a
        → IsWithoutService a.reply
        → (space_after st e).base ≡ st.base }
{}

/// After every legal history each image has tiles of the resident pages as they are, and nothing else.
pub fn an_image_has_tiles_alone()
    ensures { (g : Given) (history : List Entry) (s c : ℕ)
        → IsLegal g history
        → still_tiles (space_at g history s).sizes (pages_of (space_at g history s)) ((space_at g history s).images c) ≡ (space_at g history s).images c }
{}

/// A hit is told only of a page whose tile, as it was before the access, stood in its processor's image.
pub fn a_hit_is_of_the_tile_before()
    ensures { (st : SpaceState) (e : Entry) (number : ℕ) (call : MemoryCall) (a : Answered)
        → SpaceAllows st e
        → e.what ≡ Answer number call a
        → a.hit ≡ true
        → HasHit st e.processor (served_page call a.reply) }
{}

/// Tiles and images are seen in hits and sizes alone: what became a tile or was broken, and what the images have, moves no word and changes no
/// reply.
pub fn a_promotion_changes_no_answer()
    ensures words { (st : SpaceState) (e : Entry) (images : ℕ → List Tile) (promotions demotions : ℕ)
        → (space_after (retiled st images promotions demotions) e).flat ≡ (space_after st e).flat }
    ensures replies { (st : SpaceState) (images : ℕ → List Tile) (promotions demotions c : ℕ) (call : MemoryCall) (reply : Reply)
        → ReplyAllowed st c call reply ↔ ReplyAllowed (retiled st images promotions demotions) c call reply }
{}

/// A space that isn't known has no resident page, after every legal history.
pub fn an_unknown_space_has_no_page()
    ensures { (g : Given) (history : List Entry) (s page : ℕ) → IsLegal g history → length g.told ≤ s → (space_at g history s).base page ≡ None }
{}

// Both.

/// Every legal history keeps the laws of copies, of frames, and of spaces and frames together, at its end and at each place of it.
pub fn a_legal_history_keeps_its_laws()
    ensures { (g : Given) (history : List Entry) → IsLegal g history → KeepsLawsAllAlong g history }
{}

/// Where no store failed, each answer of a legal history is the flat memory's, or says that no frame or no memory could be had, or which page
/// kept a wire from being done.
pub fn an_answer_is_served_where_no_store_failed()
    ensures { (g : Given) (history : List Entry) → IsLegal g history → ((s count : ℕ) → HasFailed g history s count → ⊥) → AllServed g history }
{}

/// Whatever stores did, each answer of a legal history is the flat memory's, or says that no frame or no memory could be had, that a store failed,
/// or which page kept a wire from being done.
pub fn an_answer_is_served_or_says_why()
    ensures { (g : Given) (history : List Entry) → IsLegal g history → AllAnswered g history }
{}
