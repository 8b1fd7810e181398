//! What C is answered: a status, and what the call tells where it is done. Else each number beside the status is 0.

ghost use Rattle.std.specs.Prelude.{◌≡◌};
ghost use Rattle.superpager_machine.specs.Answers.{answer_of, counts_answer, pages_in, plain_answer, refused_call, refused_counts, reply_number};

use crate::status::{CLOSED, DONE};
use live_pager::Told;
use pager_model::{Reply, Size, Summary};

/// What a call was answered, and what it did. Of the numbers beside `reply` some say more of some replies.
#[repr(C)]
#[derive(Clone, Copy)]
pub struct CallAnswer {
    pub value: u64,
    pub faults: u64,
    pub promotions: u64,
    pub demotions: u64,
    pub preemptions: u64,
    pub evictions: u64,
    pub status: u32,
    pub reply: u32,
    pub is_hit: u32,
    pub pages: u32,
    pub has_frame: u32,
    pub frame: u32,
    pub wired: u32,
    pub claimed: u32,
    pub held: u32,
    pub space: u32,
    pub page: u32,
}

impl CallAnswer {
    /// Nothing was done.
    pub(crate) fn refused(status: u32) -> CallAnswer
        ensures { result ≡ refused_call status }
    {
        CallAnswer {
            value: 0,
            faults: 0,
            promotions: 0,
            demotions: 0,
            preemptions: 0,
            evictions: 0,
            status,
            reply: 0,
            is_hit: 0,
            pages: 0,
            has_frame: 0,
            frame: 0,
            wired: 0,
            claimed: 0,
            held: 0,
            space: 0,
            page: 0,
        }
    }

    /// The answer of a call that was made.
    pub(crate) fn of(told: Told) -> CallAnswer
        ensures { result ≡ answer_of told }
    {
        let reply = told.answered.reply;
        let plain = CallAnswer::plain(told);
        match reply {
            Reply::Value(word) => CallAnswer {
                value: word,
                ..plain
            },
            Reply::NoFrames {
                wired,
                claimed,
                held,
            } => CallAnswer {
                wired,
                claimed,
                held,
                ..plain
            },
            Reply::StoreFault { space, count } => CallAnswer {
                space,
                faults: count,
                ..plain
            },
            Reply::Busy { page } => CallAnswer { page, ..plain },
            _ => plain,
        }
    }

    /// Without what only some replies say.
    fn plain(told: Told) -> CallAnswer
        ensures { result ≡ plain_answer told }
    {
        CallAnswer {
            value: 0,
            faults: 0,
            promotions: told.promotions,
            demotions: told.demotions,
            preemptions: told.preemptions,
            evictions: told.evictions,
            status: DONE,
            reply: reply_number(&told.answered.reply),
            is_hit: u32::from(told.answered.hit),
            pages: pages_in(told.answered.size),
            has_frame: u32::from(told.frame.is_some()),
            frame: told.frame.unwrap_or(0),
            wired: 0,
            claimed: 0,
            held: 0,
            space: 0,
            page: 0,
        }
    }
}

/// A reply by its number.
fn reply_number(reply: &Reply) -> u32
    ensures { result ≡ reply_number reply.now }
{
    match reply {
        Reply::Done => 0,
        Reply::Value(_) => 1,
        Reply::Clean => 2,
        Reply::Written => 3,
        Reply::Unmapped => 4,
        Reply::Denied => 5,
        Reply::Overlap => 6,
        Reply::OutOfSpace => 7,
        Reply::NotGrowing => 8,
        Reply::RegionsFull => 9,
        Reply::NoFrames { .. } => 10,
        Reply::StoreFault { .. } => 11,
        Reply::NoMemory => 12,
        Reply::Busy { .. } => 13,
    }
}

/// How many base pages a translation has, where there is one.
fn pages_in(size: Option<Size>) -> u32
    ensures { result ≡ pages_in size }
{
    match size {
        Some(size) => size.pages(),
        None => 0,
    }
}

/// The counts of the calls so far.
#[repr(C)]
#[derive(Clone, Copy)]
pub struct CountAnswer {
    pub promotions: u64,
    pub demotions: u64,
    pub preemptions: u64,
    pub hits: u64,
    pub misses: u64,
    pub status: u32,
    pub calls: u32,
    pub tiles_1: u32,
    pub tiles_8: u32,
    pub tiles_64: u32,
    pub tiles_512: u32,
    pub free: u32,
    pub reserved: u32,
    pub used: u32,
}

impl CountAnswer {
    /// The pager is closed.
    pub(crate) fn closed() -> CountAnswer
        ensures { result ≡ refused_counts 1 }
    {
        CountAnswer {
            promotions: 0,
            demotions: 0,
            preemptions: 0,
            hits: 0,
            misses: 0,
            status: CLOSED,
            calls: 0,
            tiles_1: 0,
            tiles_8: 0,
            tiles_64: 0,
            tiles_512: 0,
            free: 0,
            reserved: 0,
            used: 0,
        }
    }

    /// The counts of a pager that is open.
    pub(crate) fn of(calls: u32, counts: &Summary) -> CountAnswer
        ensures { result ≡ counts_answer calls counts.now }
    {
        CountAnswer {
            promotions: counts.promotions,
            demotions: counts.demotions,
            preemptions: counts.preemptions,
            hits: counts.hits,
            misses: counts.misses,
            status: DONE,
            calls,
            tiles_1: counts.tiles[0],
            tiles_8: counts.tiles[1],
            tiles_64: counts.tiles[2],
            tiles_512: counts.tiles[3],
            free: counts.free,
            reserved: counts.reserved,
            used: counts.used,
        }
    }
}
