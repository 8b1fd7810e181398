//! The lists of reservations by age.
ghost use Rattle.std.specs.Prelude.{◌≡◌, ◌<◌};

use super::{NO_MEMORY, count, level_of, number, size, words};
use reservation_lists::Lists;
use std::process::Abort;

/// How many frames there are.
const FRAMES: u32 = 4096;

/// Steps on new lists: `in` with a level, a stamp and a frame puts a member in, `to` with these moves it there, `out` with a frame
/// takes one out, and `next` with a level takes the oldest out, which is that of the frame, or none. `first` with a
/// level tells the oldest of the first list that isn't empty, from that level on, or none, and takes none out. So `in 0 30 2` is read: the member
/// of frame 2 comes into the list of level 0 with stamp 30; and `next 0 8`: the oldest of level 0 is that of frame 8, and goes out.
static STEPS: [&str; 11] = [
    // The oldest comes first, whatever the order of insertion.
    "in 0 30 2, in 0 10 8, in 0 40 0, in 0 20 63, next 0 8, next 0 63, next 0 2, next 0 0, next 0 -",
    // Of equal stamps the lowest frame comes first.
    "in 1 5 24, in 1 5 8, in 1 4 40, in 1 5 16, next 1 40, next 1 8, next 1 16, next 1 24, next 1 -",
    // Each size has a list of its own.
    "in 0 3 1, in 1 2 8, in 2 1 0, next 1 8, next 1 -, next 2 0, next 0 1, next 0 -",
    // A removal takes only the member of that frame, from whichever list it is in.
    "in 0 7 1, in 1 7 2, in 2 7 3, in 0 7 4, out 1, out 2, out 3, next 1 -, next 2 -, next 0 4, next 0 -",
    // A frame that stands in no list changes none, whether it never stood in one or went out before.
    "out 2, in 0 7 1, in 1 7 8, out 2, out 4095, next 0 1, out 1, next 0 -, next 1 8",
    // A member that comes in again stands by its new stamp, and goes out by that one.
    "in 0 7 1, in 0 8 2, out 1, in 0 9 1, next 0 2, next 0 1, in 0 3 1, in 0 2 2, in 0 4 3, out 1, next 0 2, next 0 3, next 0 -",
    // Or in another list.
    "in 0 7 1, out 1, in 2 6 1, next 0 -, out 1, next 2 -, in 1 5 1, next 2 -, next 1 1, next 1 -",
    // The last of a list that gets a later stamp stays behind the others, and is once in the list. It goes out by that stamp.
    "in 0 7 1, in 0 8 2, to 0 9 2, in 0 8 3, next 0 1, next 0 3, next 0 2, next 0 -, in 0 7 1, to 0 9 1, out 1, next 0 -",
    // One before the last goes behind it, and one that gets an earlier stamp before those that are younger.
    "in 0 7 1, in 0 8 2, to 0 9 1, to 0 6 1, next 0 1, next 0 2, in 0 5 4, in 0 6 8, to 0 5 8, to 0 5 3, next 0 3, next 0 4, next 0 8",
    // One goes from list to list, and one that stood in none comes in.
    "in 0 7 1, to 2 7 1, next 0 -, to 1 7 1, next 2 -, next 1 1, to 1 3 5, next 1 5, next 1 -",
    // An earlier list comes before a later one, though that has an older member; the largest size has no list.
    "first 0 -, in 2 1 8, in 1 9 16, first 0 16, first 1 16, first 2 8, first 3 -, in 0 10 1, first 0 1, first 1 16",
];

/// Puts a member of a frame in, which has no other then, or moves it there.
fn put(lists: &mut Lists, is_new: bool, level: u8, stamp: u64, frame: u32)
    requires level { level < 3 }
    requires known { frame < lists.old.frames }
    ensures { lists.new.frames ≡ lists.old.frames }
{
    if is_new {
        lists.remove(frame);
        lists.insert(size(level), stamp, frame);
    } else {
        lists.move_to(size(level), stamp, frame);
    }
}

/// Takes the oldest of a size below the largest out, and tells its frame.
fn take_oldest(lists: &mut Lists, level: u8) -> Option<u32>
    requires { lists.old.frames ≡ 4096 }
    ensures { lists.new.frames ≡ 4096 }
{
    let oldest = lists.oldest(size(level.min(2)))?;
    if oldest < FRAMES {
        lists.remove(oldest);
    }
    Some(oldest)
}

/// Whether a step goes as it says.
fn goes(rt: &impl Abort, lists: &mut Lists, step: &str) -> bool
    requires { lists.old.frames ≡ 4096 }
    ensures { lists.new.frames ≡ 4096 }
{
    let [call, first, second, third, ..] = words(step);
    let (level, stamp, frame) = (level_of(first), u64::from(count(second)), count(third));
    match call {
        "in" | "to" => {
            assert!(rt; level < 3 && frame < FRAMES);
            put(lists, call == "in", level, stamp, frame);
            true
        }
        "out" => {
            let frame = count(first);
            assert!(rt; frame < FRAMES);
            lists.remove(frame);
            true
        }
        "first" => lists.first_oldest(size(level)) == number(second),
        _ => take_oldest(lists, level) == number(second),
    }
}

/// Asserts that the steps go as they say.
fn go(rt: &impl Abort, lists: &mut Lists, steps: &str)
    requires { lists.old.frames ≡ 4096 }
{
    for step in steps.split(", ") {
        assert!(rt; goes(rt, lists, step), "{step} of {steps}");
    }
}

#[test]
fn the_oldest_of_a_size_comes_first(rt: HostRuntime) {
    for steps in STEPS.iter() {
        let mut lists = Lists::create(rt.alloc(), FRAMES).expect(&rt, NO_MEMORY);
        go(&rt, &mut lists, steps);
        drop(lists);
    }
}
