//! What C is answered: a status, and what the call tells where it is done. Else each number beside the status is 0.

ghost use Rattle.std.specs.Prelude.{◌≡◌, Some, IfOk, IfErr, IfSome, IfNone, if◌then◌else◌};
ghost use Rattle.std.specs.Result.{result_err};
ghost use Rattle.superpager_c.specs.Statuses.{status_of};
ghost use Rattle.superpager_c.specs.Answers.{given_answer, refused_frame, refused_size, refused_give, refused_claim, refused_collect, refused_pin, refused_counts};

use crate::status::{CLAIMED, CLOSED, DONE, status_of};
use frame_pool::{Counts, Kept};
use frame_table::{Collected, Given, Refusal};
use pager_model::{Size, Victim};

/// A frame.
#[repr(C)]
#[derive(Clone, Copy)]
pub struct FrameAnswer {
    pub status: u32,
    pub frame: u32,
}

impl FrameAnswer {
    /// The pool is closed.
    pub(crate) fn closed() -> FrameAnswer
        ensures { result ≡ refused_frame 1 }
    {
        FrameAnswer {
            status: CLOSED,
            frame: 0,
        }
    }

    /// The answer of a pool that is open.
    pub(crate) fn of(answer: Result<u32, Refusal>) -> FrameAnswer
        ensures status { result.status ≡ status_of (result_err answer) }
        ensures frame { IfOk answer (λ frame. result.frame ≡ frame) }
        ensures none { IfErr answer (λ _. result ≡ refused_frame result.status) }
    {
        match answer {
            Ok(frame) => FrameAnswer {
                status: DONE,
                frame,
            },
            Err(why) => FrameAnswer {
                status: status_of(why),
                frame: 0,
            },
        }
    }
}

/// A size, by its level: 0 to 3, of 1, 8, 64 or 512 pages.
#[repr(C)]
#[derive(Clone, Copy)]
pub struct SizeAnswer {
    pub status: u32,
    pub size: u32,
}

impl SizeAnswer {
    /// The pool is closed.
    pub(crate) fn closed() -> SizeAnswer
        ensures { result ≡ refused_size 1 }
    {
        SizeAnswer {
            status: CLOSED,
            size: 0,
        }
    }

    /// The answer of a pool that is open.
    pub(crate) fn of(answer: Result<Size, Refusal>) -> SizeAnswer
        ensures status { result.status ≡ status_of (result_err answer) }
        ensures size { IfOk answer (λ size. result.size ≡ size) }
        ensures none { IfErr answer (λ _. result ≡ refused_size result.status) }
    {
        match answer {
            Ok(size) => SizeAnswer {
                status: DONE,
                size: u32::from(size.level()),
            },
            Err(why) => SizeAnswer {
                status: status_of(why),
                size: 0,
            },
        }
    }
}

/// The frame that a page gave up, and the processor that claimed it and holds it now, where `is_held` is 1.
#[repr(C)]
#[derive(Clone, Copy)]
pub struct GiveAnswer {
    pub status: u32,
    pub frame: u32,
    pub is_held: u32,
    pub processor: u32,
}

impl GiveAnswer {
    /// The pool is closed.
    pub(crate) fn closed() -> GiveAnswer
        ensures { result ≡ refused_give 1 }
    {
        GiveAnswer {
            status: CLOSED,
            frame: 0,
            is_held: 0,
            processor: 0,
        }
    }

    /// The answer of a pool that is open.
    pub(crate) fn of(answer: Result<Given, Refusal>) -> GiveAnswer
        ensures status { result.status ≡ status_of (result_err answer) }
        ensures given { IfOk answer (λ given. result ≡ given_answer given.frame given.claimer) }
        ensures none { IfErr answer (λ _. result ≡ refused_give result.status) }
    {
        match answer {
            Ok(given) => GiveAnswer {
                status: DONE,
                frame: given.frame,
                is_held: u32::from(given.claimer.is_some()),
                processor: given.claimer.unwrap_or(0),
            },
            Err(why) => GiveAnswer {
                status: status_of(why),
                frame: 0,
                is_held: 0,
                processor: 0,
            },
        }
    }
}

/// A page whose frame is claimed.
#[repr(C)]
#[derive(Clone, Copy)]
pub struct VictimAnswer {
    pub status: u32,
    pub space: u32,
    pub page: u32,
    pub frame: u32,
}

impl VictimAnswer {
    /// The pool is closed.
    pub(crate) fn closed() -> VictimAnswer
        ensures { result ≡ refused_claim 1 }
    {
        VictimAnswer {
            status: CLOSED,
            space: 0,
            page: 0,
            frame: 0,
        }
    }

    /// The answer of a pool that is open.
    pub(crate) fn of(answer: Result<Victim, Refusal>) -> VictimAnswer
        ensures status { result.status ≡ status_of (result_err answer) }
        ensures victim { IfOk answer (λ v. (result.space ≡ v.space) × (result.page ≡ v.page) × (result.frame ≡ v.frame)) }
        ensures none { IfErr answer (λ _. result ≡ refused_claim result.status) }
    {
        match answer {
            Ok(victim) => VictimAnswer {
                status: DONE,
                space: victim.space,
                page: victim.page,
                frame: victim.frame,
            },
            Err(why) => VictimAnswer {
                status: status_of(why),
                space: 0,
                page: 0,
                frame: 0,
            },
        }
    }
}

/// The frame that a processor claims, or holds where `is_held` is 1.
#[repr(C)]
#[derive(Clone, Copy)]
pub struct CollectAnswer {
    pub status: u32,
    pub frame: u32,
    pub is_held: u32,
}

impl CollectAnswer {
    /// The pool is closed.
    pub(crate) fn closed() -> CollectAnswer
        ensures { result ≡ refused_collect 1 }
    {
        CollectAnswer {
            status: CLOSED,
            frame: 0,
            is_held: 0,
        }
    }

    /// The answer of a pool that is open.
    pub(crate) fn of(answer: Result<Collected, Refusal>) -> CollectAnswer
        ensures status { result.status ≡ status_of (result_err answer) }
        ensures collected { IfOk answer (λ c. (result.frame ≡ c.frame) × (result.is_held ≡ (if c.is_held then 1 else 0))) }
        ensures none { IfErr answer (λ _. result ≡ refused_collect result.status) }
    {
        match answer {
            Ok(collected) => CollectAnswer {
                status: DONE,
                frame: collected.frame,
                is_held: u32::from(collected.is_held),
            },
            Err(why) => CollectAnswer {
                status: status_of(why),
                frame: 0,
                is_held: 0,
            },
        }
    }
}

/// The lowest page whose claimed frame kept a range from being wired, where the status is `CLAIMED`.
#[repr(C)]
#[derive(Clone, Copy)]
pub struct PinAnswer {
    pub status: u32,
    pub page: u32,
    pub frame: u32,
}

impl PinAnswer {
    /// The pool is closed.
    pub(crate) fn closed() -> PinAnswer
        ensures { result ≡ refused_pin 1 }
    {
        PinAnswer {
            status: CLOSED,
            page: 0,
            frame: 0,
        }
    }

    /// The answer of a pool that is open.
    pub(crate) fn of(answer: Result<Option<Kept>, Refusal>) -> PinAnswer
        ensures kept { IfOk answer (λ kept. IfSome kept (λ k. result ≡ record { status = 11; page = k.page; frame = k.frame })) }
        ensures pinned { IfOk answer (λ kept. IfNone kept (result ≡ refused_pin 0)) }
        ensures none { IfErr answer (λ why. result ≡ refused_pin (status_of (Some why))) }
    {
        match answer {
            Ok(Some(kept)) => PinAnswer {
                status: CLAIMED,
                page: kept.page,
                frame: kept.frame,
            },
            Ok(None) => PinAnswer {
                status: DONE,
                page: 0,
                frame: 0,
            },
            Err(why) => PinAnswer {
                status: status_of(why),
                page: 0,
                frame: 0,
            },
        }
    }
}

/// How many frames are in each role, and how many takings broke a reservation.
#[repr(C)]
#[derive(Clone, Copy)]
pub struct CountAnswer {
    pub preempted: u64,
    pub status: u32,
    pub free: u32,
    pub reserved: u32,
    pub used: u32,
    pub wired: u32,
    pub claimed: u32,
    pub held: u32,
}

impl CountAnswer {
    /// The pool is closed.
    pub(crate) fn closed() -> CountAnswer
        ensures { result ≡ refused_counts 1 }
    {
        CountAnswer {
            preempted: 0,
            status: CLOSED,
            free: 0,
            reserved: 0,
            used: 0,
            wired: 0,
            claimed: 0,
            held: 0,
        }
    }

    /// The answer of a pool that is open.
    pub(crate) fn of(counts: Counts, preempted: u64) -> CountAnswer
        ensures { result ≡ record {
          preempted = preempted;
          status = 0;
          free = counts.free;
          reserved = counts.reserved;
          used = counts.used;
          wired = counts.wired;
          claimed = counts.claimed;
          held = counts.held;
        } }
    {
        CountAnswer {
            preempted,
            status: DONE,
            free: counts.free,
            reserved: counts.reserved,
            used: counts.used,
            wired: counts.wired,
            claimed: counts.claimed,
            held: counts.held,
        }
    }
}
