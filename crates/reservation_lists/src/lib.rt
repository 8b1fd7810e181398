//! The lists of reservations by age: one for each size of extent that a reservation can give back.
//!
//! A reservation that isn't full stands in the list of its yield, the largest size of an extent inside it without a used
//! place. Each list is a double-ended queue in order of the stamp and then of the first frame, in memory that `create` took. The
//! reservation to break is the first member of the first list that isn't empty, from that of the wanted size on. A member's place is
//! searched for by halves, and what goes in or out there moves the shorter side of the list: the parts of a broken reservation, which
//! are the oldest, go in near the head and move few members. Beside the lists stands for each frame which list has the reservation that
//! begins at it, and by which stamp; so one is taken out with nothing asked but its first frame.
#![tactic(auto)]

ghost use Rattle.std.specs.Prelude.{◌≡◌, ◌-◌, ◌<◌, ◌≤◌, IfOk, true, false, if◌then◌else◌, Some};
ghost use Rattle.std.specs.List.{prefix_len};
ghost use Rattle.std.specs.VecDeque.{deque_len, deque_capacity};
ghost use Rattle.pager_model.specs.Ages.{first_oldest, is_before, list_at, oldest_in, with_list, with_member};
ghost use Rattle.reservation_lists.specs.Kept.{Differ, IsInOrder, has_member_of, is_listed, moved_to, no_members, without_frame, without_member, without_member_of};

mod listed;

use listed::{Listed, Listing};
use pager_model::{NoMemory, Size};
use std::alloc::Global;
use std::collections::VecDeque;
use std::marker::Model;

/// A reservation in a list.
#[derive(PartialEq, Eq, Drop)]
struct Member {
    stamp: u64,
    frame: u32,
}

impl Model for Member {
    ghost use Rattle.pager_model.specs.Ages.{Member};

    ghost Value = { Member };

    ghost view = { λ m. record { stamp = m.stamp; frame = m.frame } };

    ghost inverse = { λ m. record { stamp = m.stamp; frame = m.frame } };
}

impl Member {
    /// Whether it stands before the other in a list.
    fn is_before(&self, other: &Member) -> bool
        ensures { result ≡ is_before self.now other.now }
    {
        self.stamp < other.stamp || (self.stamp == other.stamp && self.frame < other.frame)
    }
}

/// Where a member stands in a list in order, or would stand: after those that come before it.
fn position_of(list: &VecDeque<Member>, member: &Member) -> usize
    requires { IsInOrder list.now.items }
    ensures { result ≡ prefix_len (λ m. is_before m member.now) list.now.items }
{
    match list.back() {
        // Most members that go in have the youngest stamp, and stand at the end.
        Some(last) if last.is_before(member) => list.len(),
        _ => list.partition_point(|m| m.is_before(member)),
    }
}

/// Puts a member in its place in the list, which is in order, has room for it and has no member of its frame.
fn insert_in(list: &mut VecDeque<Member>, new: Member)
    requires ordered { IsInOrder list.old.items }
    requires room { deque_len list.old < deque_capacity list.old }
    requires unlisted { has_member_of new.frame list.old.items ≡ false }
    ensures items { list.new.items ≡ with_member new list.old.items }
    ensures capacity { deque_capacity list.old ≤ deque_capacity list.new }
{
    let place = position_of(list, &new);
    // Mostly the place is the end, where a push costs less than an insertion.
    if place == list.len() {
        list.push_back_reserved(new)
    } else {
        list.insert(place, new).unwrap()
    }
}

/// Takes a member out of the list, which is in order, where it stands there.
fn remove_from(list: &mut VecDeque<Member>, gone: &Member)
    requires { IsInOrder list.old.items }
    ensures items { list.new.items ≡ without_member gone.now list.old.items }
    ensures capacity { deque_capacity list.new ≡ deque_capacity list.old }
{
    // The youngest stands at the end: it goes out with no search.
    if list.back() == Some(gone) {
        list.pop_back();
        return;
    }
    let place = position_of(list, gone);
    if list.get(place) == Some(gone) {
        list.remove(place);
    }
}

/// Puts the new member in place of the last one of the list, which is in order, where that is of the same frame and no younger, and
/// notes its stamp. There it goes in once the last one has gone out: all others come before it. Answers whether it did.
fn renew_last(list: &mut VecDeque<Member>, listing: &mut Listing, size: Size, new: Member) -> bool
    requires ordered { IsInOrder list.old.items }
    requires differ { Differ list.old.items }
    ensures stood { result ≡ true → has_member_of new.frame list.old.items ≡ true }
    ensures items { list.new.items ≡ (if result then with_member new (without_member_of new.frame list.old.items) else list.old.items) }
    ensures capacity { deque_capacity list.new ≡ deque_capacity list.old }
    ensures listing { listing.new ≡ (if result then Some (record { size = size; stamp = new.stamp }) else listing.old) }
{
    let Some(last) = list.back_mut() else {
        return false;
    };
    if last.frame != new.frame || last.stamp > new.stamp {
        return false;
    }
    *listing = Listing::of(Listed {
        size,
        stamp: new.stamp,
    });
    *last = new;
    true
}

/// The lists of the sizes below the largest.
#[derive(Drop)]
pub struct Lists {
    frames: u32,
    /// For each frame what list has the reservation that begins at it, where one has.
    listed: Vec<Listing>,
    base: VecDeque<Member>,
    small: VecDeque<Member>,
    middle: VecDeque<Member>,
}

impl Model for Lists {
    ghost use Rattle.std.specs.VecDeque.{deque_capacity};
    ghost use Rattle.reservation_lists.specs.Kept.{KeptLists, HasRoom, AreTold, lists_in};

    ghost Value = { KeptLists };

    ghost view = { λ l. record { lists = lists_in l; frames = l.frames } };

    ghost invariant = { λ l. HasRoom l.frames (deque_capacity l.base) l.base.items
        × HasRoom l.frames (deque_capacity l.small) l.small.items
        × HasRoom l.frames (deque_capacity l.middle) l.middle.items
        × AreTold l.frames l.listed.items (lists_in l) };
}

impl Lists {
    /// Empty lists, with all the memory that they ever need for reservations over so many frames.
    pub fn create(alloc: Global, frames: u32) -> Result<Lists, NoMemory>
        ensures { IfOk result (λ kept. kept ≡ record { lists = no_members; frames = frames }) }
    {
        Ok(Lists {
            frames,
            listed: vec![in alloc; Listing::NONE; frames as usize]?,
            base: VecDeque::with_capacity(alloc, frames as usize)?,
            small: VecDeque::with_capacity(alloc, frames as usize)?,
            middle: VecDeque::with_capacity(alloc, frames as usize)?,
        })
    }

    /// Puts the reservation of this stamp and first frame in its place in the list of a size.
    pub fn insert(&mut self, size: Size, stamp: u64, frame: u32)
        requires has_list { size < 3 }
        requires known { frame < self.old.frames }
        requires unlisted { is_listed frame self.old.lists ≡ false }
        ensures { self.new ≡ record self.old {
          lists = with_list self.old.lists size
              (with_member (record { stamp = stamp; frame = frame }) (list_at self.old.lists size));
        } }
    {
        self.listed[frame as usize] = Listing::of(Listed { size, stamp });
        let new = Member { stamp, frame };
        match size.level() {
            0 => insert_in(&mut self.base, new),
            1 => insert_in(&mut self.small, new),
            _ => insert_in(&mut self.middle, new),
        }
    }

    /// Takes the reservation of this first frame out of the list that it stands in, where it stands in one.
    pub fn remove(&mut self, frame: u32)
        requires known { frame < self.old.frames }
        ensures { self.new ≡ record self.old { lists = without_frame frame self.old.lists } }
    {
        let Some(listed) = self.listed[frame as usize].take() else {
            return;
        };
        let gone = Member {
            stamp: listed.stamp,
            frame,
        };
        match listed.size.level() {
            0 => remove_from(&mut self.base, &gone),
            1 => remove_from(&mut self.small, &gone),
            _ => remove_from(&mut self.middle, &gone),
        }
    }

    /// Where the reservation of this first frame is the last in the list of a size, and no younger than the stamp, gives it the stamp
    /// there. Answers whether it did.
    fn renew(&mut self, size: Size, stamp: u64, frame: u32) -> bool
        requires has_list { size < 3 }
        requires known { frame < self.old.frames }
        ensures { self.new ≡ (if result then moved_to size (record { stamp = stamp; frame = frame }) self.old else self.old) }
    {
        let new = Member { stamp, frame };
        let listing = &mut self.listed[frame as usize];
        match size.level() {
            0 => renew_last(&mut self.base, listing, size, new),
            1 => renew_last(&mut self.small, listing, size, new),
            _ => renew_last(&mut self.middle, listing, size, new),
        }
    }

    /// Takes the reservation of this first frame out of the list that it stands in, where it stands in one, and puts it with this stamp in
    /// its place in the list of a size.
    pub fn move_to(&mut self, size: Size, stamp: u64, frame: u32)
        requires has_list { size < 3 }
        requires known { frame < self.old.frames }
        ensures { self.new ≡ moved_to size (record { stamp = stamp; frame = frame }) self.old }
    {
        // Mostly the reservation that gets a page is the youngest, and its yield stays the same.
        if !self.renew(size, stamp, frame) {
            self.remove(frame);
            self.insert(size, stamp, frame);
        }
    }

    /// The first frame of the oldest reservation in the list of a size: of those with the least stamp the lowest.
    pub fn oldest(&self, size: Size) -> Option<u32>
        requires { size < 3 }
        ensures { result ≡ oldest_in (list_at self.now.lists size) }
    {
        let list = match size.level() {
            0 => &self.base,
            1 => &self.small,
            _ => &self.middle,
        };
        list.front().map(|m| m.frame)
    }

    /// The first frame of the oldest reservation of the first list that isn't empty, from that of a size on; None where all these are
    /// empty, and for the largest size, which has no list.
    pub fn first_oldest(&self, size: Size) -> Option<u32>
        ensures { result ≡ first_oldest (list_at self.now.lists) size (3 - size) }
    {
        for level in size.level()..3 {
            let oldest = self.oldest(Size::at_level(level));
            if oldest.is_some() {
                return oldest;
            }
        }
        None
    }
}
