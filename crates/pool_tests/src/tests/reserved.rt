//! Reservations: their frames, their used places, and what they can give back.
ghost use Rattle.std.specs.Prelude.{◌≡◌, ℕ, ◌<◌, ◌≤◌, ◌+◌, ◌^◌, true, false, IsSomeAnd, length};
ghost use Rattle.pager_model.specs.Records.{is_used, none_used};
ghost use Rattle.pager_model.specs.Agreement.{has_frame};
ghost use Rattle.pager_model.specs.Layouts.{frame_for};
ghost use Rattle.reservations.specs.Kept.{reservation_at, CoversPage};

use super::{NO_MEMORY, count, level_of, number, size, words};
use pager_model::Reservation;
use reservations::{Part, Reservations, frame_for};
use std::alloc::Global;
use std::process::Abort;

const FRAMES: u32 = 1024;

fn reservation(level: u8, first: u32, frame: u32, stamp: u64) -> Reservation {
    Reservation {
        space: 1,
        first,
        size: size(level),
        frame,
        stamp,
    }
}

/// Whether these frames are in no reservation.
fn is_free(kept: &Reservations, first: u32, count: u32) -> bool
    requires { first + count < 2 ^ 32 }
    ensures { result ≡ true → (frame id : ℕ) → first ≤ frame → frame < first + count → has_frame frame (reservation_at kept.now id) ≡ false }
{
    for frame in first..first + count {
        if kept.id_of(frame).is_some() {
            return false;
        }
    }
    true
}

/// Adds a reservation over frames of none.
fn add(rt: &impl Abort, kept: &mut Reservations, reservation: Reservation, page: u32)
    requires { length kept.old.records ≡ 1024 }
    ensures { length kept.new.records ≡ 1024 }
{
    let pages = reservation.size.pages();
    assert!(rt; pages != 0 && reservation.frame % pages == 0 && reservation.first % pages == 0);
    assert!(rt; pages <= FRAMES && reservation.frame <= FRAMES - pages);
    assert!(rt; reservation.first <= page && page - reservation.first < pages);
    assert!(rt; is_free(kept, reservation.frame, pages));
    kept.add(reservation, page);
}

/// The frame that the reservation at `id` joins to a page of it.
fn place(rt: &impl Abort, kept: &Reservations, id: u32, page: u32) -> u32
    ensures { IsSomeAnd (reservation_at kept.now id) (λ r. CoversPage r page × (result ≡ frame_for page r)) }
{
    let reservation = kept.get(id).expect(rt, "a reservation");
    assert!(rt; reservation.first <= page && page - reservation.first < reservation.size.pages());
    frame_for(&reservation, page)
}

fn populate(rt: &impl Abort, kept: &mut Reservations, id: u32, page: u32, stamp: u64) {
    let frame = place(rt, kept, id, page);
    assert!(rt; !kept.used(frame));
    kept.populate(id, page, stamp);
}

/// The level of the yield.
fn yields(rt: &impl Abort, kept: &Reservations, id: u32) -> Option<u32> {
    assert!(rt; kept.get(id).is_some());
    let size = kept.yields(id)?;
    Some(u32::from(size.level()))
}

fn split(rt: &impl Abort, kept: &mut Reservations, id: u32) -> [Part; 8] {
    let reservation = kept.get(id).expect(rt, "a reservation");
    assert!(rt; reservation.size.level() > 0);
    kept.split(id)
}

/// No reservation yet, over 1,024 frames.
fn none(rt: &impl Abort, alloc: Global) -> Reservations
    ensures { length result.records ≡ 1024 }
{
    Reservations::create(alloc, FRAMES).expect(rt, NO_MEMORY)
}

/// Vacates the place of a page, and says whether it was the last used one.
fn vacate(rt: &impl Abort, kept: &mut Reservations, id: u32, page: u32) -> bool
    ensures { IsSomeAnd (reservation_at kept.new id) (λ r. result ≡ none_used (is_used kept.new.used) r.frame (8 ^ r.size)) }
{
    let frame = place(rt, kept, id, page);
    assert!(rt; kept.used(frame));
    kept.vacate(id, page)
}

/// Vacates the last used place of a reservation, and dissolves it.
fn dissolve(rt: &impl Abort, kept: &mut Reservations, id: u32, page: u32) -> bool {
    let last = vacate(rt, kept, id, page);
    assert!(rt; last);
    kept.dissolve(id);
    last
}

/// Which parts aren't empty, a bit for each. None if they are not of this level, side by side from the frame on.
fn kept_of(parts: &[Part; 8], level: u8, frame: u32) -> Option<u32> {
    let mut kept = 0u32;
    for i in 0..8u32 {
        let part = &parts[i as usize];
        let first = i.wrapping_mul(size(level).pages()).wrapping_add(frame);
        if part.extent.size.level() != level || part.extent.first != first {
            return None;
        }
        if !part.empty {
            kept |= 1 << i;
        }
    }
    Some(kept)
}

/// Reservations that are added, each as `LEVEL FIRST FRAME STAMP PAGE`: its first page and its first frame, and the page that is populated first.
/// And then steps, of which ID is the first frame of a reservation:
///
/// - `fill ID PAGE STAMP`: the page is populated with this stamp. So many pages from it on are where a number follows, and at this distance where
///   one more does;
/// - `vacate ID PAGE LAST`: its place isn't used any more, and LAST is 1 where it was the last one. `dissolve ID PAGE LAST`: the reservation goes then;
/// - `get ID LEVEL FIRST STAMP`: the reservation there, or a dash for none. `yield ID LEVEL`: that of the largest extent in it
///   without a used place, or a dash where it is full;
/// - `split ID LEVEL BITS`: it is split into eight parts of this level, and the bits, the lowest for the first part, are 1 where a part isn't empty;
/// - `at FRAME ID USED`: the reservation that has the frame, or none, and USED is 1 where the frame is a used place.
///
/// So `1 24 64 3 29` is read: a reservation of level 1 for the eight pages from page 24 on, over the frames from frame 64 on, of stamp 3, with page
/// 29 populated; and `at 69 64 1`: frame 69 is of that reservation, and a used place.
static SCENES: [(&str, &str); 12] = [
    (
        "1 24 64 3 29, 0 7 72 4 7",
        "\
get 64 1 24 3
get 72 0 7 4
at 63 - 0
at 64 64 0
at 68 64 0
at 69 64 1
at 71 64 0
at 72 72 1
at 73 - 0
",
    ),
    // A page populated makes that reservation alone younger.
    (
        "1 8 0 3 8, 1 0 8 4 0",
        "\
fill 0 13 5
get 0 1 8 5
get 8 1 0 4
at 5 0 1
at 13 8 0
",
    ),
    (
        "3 512 0 3 600",
        "\
fill 0 512 4
fill 0 1023 5
vacate 0 600 0
vacate 0 1023 0
vacate 0 512 1
get 0 3 512 5
yield 0 3
",
    ),
    // What is dissolved has no frame.
    (
        "1 8 0 3 8, 1 0 8 4 0",
        "\
dissolve 0 8 1
at 0 - 0
at 7 - 0
at 8 8 1
at 15 8 0
get 0 -
get 8 1 0 4
",
    ),
    // Eight pages are split into pages.
    (
        "1 16 8 3 18",
        "\
fill 8 23 4
split 8 0 132
get 10 0 18 4
get 15 0 23 4
",
    ),
    // 64 pages of which the third eighth is populated, and the first page and the last. The parts with a used place stay.
    (
        "2 128 64 3 128",
        "\
fill 64 144 7 8
fill 64 191 9
split 64 1 133
get 64 1 128 9
at 64 64 1
yield 64 0
get 72 -
at 72 - 0
get 80 1 144 9
at 80 80 1
yield 80 -
get 88 -
get 96 -
get 104 -
get 112 -
at 112 - 0
get 120 1 184 9
at 120 120 0
yield 120 0
",
    ),
    // No reservation and no used place at first.
    (
        "",
        "\
at 0 - 0
at 1023 - 0
at 1024 - 0
at 4294967295 - 0
get 0 -
get 1023 -
get 1024 -
get 4294967295 -
",
    ),
    // A page of its own has no yield, and larger ones until they are full.
    (
        "0 1024 512 0 1024, 1 2048 0 0 2048",
        "\
yield 512 -
yield 0 0
fill 0 2049 1 6
yield 0 0
fill 0 2055 1
yield 0 -
",
    ),
    // It falls with the room that is left at the end.
    (
        "2 1024 512 0 1024",
        "\
yield 512 1
fill 512 1025 1 55
yield 512 1
fill 512 1080 1
yield 512 0
fill 512 1081 1 6
yield 512 0
fill 512 1087 1
yield 512 -
",
    ),
    (
        "3 1024 512 0 1024",
        "\
yield 512 2
fill 512 1025 1 447
yield 512 2
fill 512 1472 1
yield 512 1
fill 512 1473 1 55
yield 512 1
fill 512 1528 1
yield 512 0
fill 512 1529 1 6
yield 512 0
fill 512 1535 1
yield 512 -
",
    ),
    // A part with one used place isn't empty.
    (
        "2 1024 512 0 1024",
        "\
fill 512 1032 1 6 8
yield 512 1
fill 512 1080 1
yield 512 0
fill 512 1025 1 7
fill 512 1033 1 7
fill 512 1041 1 7
fill 512 1049 1 7
fill 512 1057 1 7
fill 512 1065 1 7
fill 512 1073 1 7
fill 512 1081 1 6
yield 512 0
fill 512 1087 1
yield 512 -
",
    ),
    (
        "3 1024 512 0 1024",
        "\
fill 512 1088 1 6 64
yield 512 2
fill 512 1472 1
yield 512 1
fill 512 1032 1 7 8
fill 512 1096 1 7 8
fill 512 1160 1 7 8
fill 512 1224 1 7 8
fill 512 1288 1 7 8
fill 512 1352 1 7 8
fill 512 1416 1 7 8
fill 512 1480 1 6 8
yield 512 1
fill 512 1528 1
yield 512 0
",
    ),
];

/// Adds the reservations of a scene.
fn add_all(rt: &impl Abort, kept: &mut Reservations, rows: &str)
    requires { length kept.old.records ≡ 1024 }
{
    for row in rows.split_terminator(", ") {
        let [level, first, frame, stamp, page, ..] = words(row);
        let stamp = u64::from(count(stamp));
        let new = reservation(level_of(level), count(first), count(frame), stamp);
        add(rt, kept, new, count(page));
    }
}

/// Populates the pages of a row.
fn fill(rt: &impl Abort, kept: &mut Reservations, row: &[&str; 8]) {
    let [_, id, page, stamp, times, step, ..] = *row;
    let (id, page, stamp) = (count(id), count(page), u64::from(count(stamp)));
    for i in 0..count(times).max(1) {
        let behind = i.wrapping_mul(count(step).max(1));
        populate(rt, kept, id, page.wrapping_add(behind), stamp);
    }
}

/// Whether the reservation at a frame is this one, where it has a level.
fn is_at(kept: &Reservations, frame: u32, level: &str, first: u32, stamp: u64) -> bool {
    if number(level).is_none() {
        return kept.get(frame).is_none();
    }
    kept.get(frame) == Some(reservation(level_of(level), first, frame, stamp))
}

/// Whether a step goes as its row says.
fn goes(rt: &impl Abort, kept: &mut Reservations, row: &str) -> bool {
    let row = words(row);
    let [call, id, second, third, fourth, ..] = row;
    let (id, page, told) = (count(id), count(second), third == "1");
    match call {
        "at" => (kept.id_of(id), kept.used(id)) == (number(second), told),
        "get" => is_at(kept, id, second, count(third), u64::from(count(fourth))),
        "fill" => {
            fill(rt, kept, &row);
            true
        }
        "split" => kept_of(&split(rt, kept, id), level_of(second), id) == number(third),
        "yield" => yields(rt, kept, id) == number(second),
        "vacate" => vacate(rt, kept, id, page) == told,
        _ => dissolve(rt, kept, id, page) == told,
    }
}

/// Asserts that the steps go as their rows say.
fn go(rt: &impl Abort, kept: &mut Reservations, rows: &str) {
    for row in rows.lines() {
        assert!(rt; goes(rt, kept, row), "{row} of {rows}");
    }
}

#[test]
fn each_call_reads_or_changes_one_reservation(rt: HostRuntime) {
    for &(added, rows) in SCENES.iter() {
        let mut kept = none(&rt, rt.alloc());
        add_all(&rt, &mut kept, added);
        go(&rt, &mut kept, rows);
        drop(kept);
    }
}
