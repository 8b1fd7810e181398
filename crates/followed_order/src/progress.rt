//! How far a processor has come.

ghost use Rattle.std.specs.Prelude.{◌≡◌, ◌+◌, ◌-◌, ◌^◌, ◌<◌, ◌≤◌, ◌==◌, ◌&&◌, true, false, Some, None, IfSome};
ghost use Rattle.std.specs.Option.{option_and_then};
ghost use Rattle.pager_model.specs.Order.{at_rest, between, is_victim};
ghost use Rattle.pager_model.specs.Order.{after_answer, after_take, after_use, after_clear, after_pin, after_kept, after_out, after_failure, after_give, after_claim, after_got, after_unclaim, after_drop, after_refusal, after_rest, lacking_for, faulted_for, dropped_for, progress_after, progress_by, leads, victim_in};
ghost use Rattle.followed_order.specs.Doings.{doing_of, purpose_of, IsFew, IsBegun};

use crate::doing::{Access, Doing, Purpose};
use pager_model::{Call, Entry, Need, Reply, Victim, What};
use std::marker::Model;

/// How many calls a processor has answered, or turns it has made, and where it is in the next.
#[derive(Drop)]
pub struct Progress {
    made: u64,
    doing: Doing,
}

impl Model for Progress {
    ghost use Rattle.pager_model.specs.Order.{Progress as Place};
    ghost use Rattle.followed_order.specs.Doings.{doing_of, IsFew};

    ghost Value = { Place };

    ghost view = { λ p. record { made = p.made; doing = doing_of p.doing } };

    ghost invariant = { λ p. IsFew p.doing };
}

/// Whether the page is the victim's.
fn is_victim(victim: &Victim, space: u32, page: u32) -> bool
    ensures { result ≡ is_victim victim.now space page }
{
    space == victim.space && page == victim.page
}

/// One more is made, and the next is not begun.
fn more(made: u64, doing: Doing) -> Option<Progress>
    requires few { IsFew doing }
    requires room { made < 2 ^ 64 - 1 }
    ensures { result ≡ Some (record { made = made + 1; doing = doing_of doing }) }
{
    Some(Progress {
        made: made + 1,
        doing,
    })
}

impl Progress {
    /// No call was answered, and no turn made.
    pub fn start(mark: u32) -> Progress
        ensures { result ≡ at_rest mark 0 }
    {
        Progress {
            made: 0,
            doing: between(mark),
        }
    }

    /// How many calls were answered, or turns made.
    pub fn made(&self) -> u64
        ensures { result ≡ self.now.made }
    {
        self.made
    }

    /// Whether a processor of this mark is between two calls, or between two turns.
    pub fn is_at_rest(&self, mark: u32) -> bool
        ensures rest { result ≡ true → self.now ≡ at_rest mark self.now.made }
        ensures other { result ≡ false → self.now ≡ at_rest mark self.now.made → ⊥ }
    {
        match self.doing {
            Doing::Idle => mark == 0,
            Doing::Looking {
                mark: own,
                evictions,
            } => mark != 0 && own == mark && evictions == 0,
            _ => false,
        }
    }

    /// The victim whose frame the processor claims or holds, where its place says so.
    pub fn victim(&self) -> Option<Victim>
        ensures { result ≡ victim_in self.now.doing }
    {
        match self.doing {
            Doing::Claiming { victim, .. } => Some(victim),
            Doing::Emptied { victim, .. } => Some(victim),
            Doing::Unwritten { victim, .. } => Some(victim),
            Doing::Holding { victim, .. } => Some(victim),
            _ => None,
        }
    }

    /// It goes on there, in the same call or turn, where the test holds.
    fn goes(&self, holds: bool, doing: Doing) -> Option<Progress>
        requires { IsFew doing }
        ensures is { result ≡ leads holds self.now.made (doing_of doing) }
        ensures made { IfSome result (λ p. p.made ≡ self.now.made) }
    {
        if holds {
            Some(Progress {
                made: self.made,
                doing,
            })
        } else {
            None
        }
    }

    fn after_answer(&self, number: u32, call: &Call, reply: Reply) -> Option<Progress>
        requires { self.now.made < 2 ^ 64 - 1 }
        ensures is { result ≡ after_answer self.now number call.now reply }
        ensures made { IfSome result (λ p. p.made ≤ self.now.made + 1) }
    {
        if u64::from(number) == self.made && self.doing.may_answer(call, reply) {
            more(self.made, Doing::Idle)
        } else {
            None
        }
    }

    fn after_take(&self, space: u32, page: u32, frame: u32) -> Option<Progress>
        ensures is { result ≡ after_take self.now.made self.now.doing space page frame }
        ensures made { IfSome result (λ p. p.made ≤ self.now.made + 1) }
    {
        let Doing::Idle = self.doing else {
            return None;
        };
        let access = Access {
            space,
            page,
            writing: None,
        };
        self.goes(true, Doing::Filling { access, frame })
    }

    fn after_use(&self, space: u32, page: u32, frame: u32) -> Option<Progress>
        ensures is { result ≡ after_use self.now.made self.now.doing space page frame }
        ensures made { IfSome result (λ p. p.made ≤ self.now.made + 1) }
    {
        match self.doing {
            Doing::Holding {
                purpose: Purpose::ForAccess(access),
                ..
            } => self.goes(access.is_at(space, page), Doing::Filling { access, frame }),
            _ => None,
        }
    }

    fn after_clear(&self, space: u32, first: u32, length: u32) -> Option<Progress>
        ensures is { result ≡ after_clear self.now.made self.now.doing space first length }
        ensures made { IfSome result (λ p. p.made ≤ self.now.made + 1) }
    {
        let Doing::Idle = self.doing else {
            return None;
        };
        self.goes(
            true,
            Doing::Cleared {
                space,
                first,
                length,
            },
        )
    }

    fn after_pin(&self, space: u32, first: u32, length: u32, wired: bool) -> Option<Progress>
        ensures is { result ≡ after_pin self.now.made self.now.doing space first length wired }
        ensures made { IfSome result (λ p. p.made ≤ self.now.made + 1) }
    {
        let Doing::Idle = self.doing else {
            return None;
        };
        self.goes(
            true,
            Doing::Pinned {
                space,
                first,
                length,
                wired,
            },
        )
    }

    fn after_kept(&self, space: u32, first: u32, length: u32, page: u32) -> Option<Progress>
        ensures is { result ≡ after_kept self.now.made self.now.doing space first length page }
        ensures made { IfSome result (λ p. p.made ≤ self.now.made + 1) }
    {
        let Doing::Idle = self.doing else {
            return None;
        };
        self.goes(
            true,
            Doing::Blocked {
                space,
                first,
                length,
                page,
            },
        )
    }

    fn after_out(&self, space: u32, page: u32) -> Option<Progress>
        ensures is { result ≡ after_out self.now.made self.now.doing space page }
        ensures made { IfSome result (λ p. p.made ≤ self.now.made + 1) }
    {
        let Doing::Claiming { purpose, victim } = self.doing else {
            return None;
        };
        self.goes(
            is_victim(&victim, space, page),
            Doing::Emptied { purpose, victim },
        )
    }

    fn after_failure(&self, space: u32, page: u32, writing: bool, count: u64) -> Option<Progress>
        ensures is { result ≡ after_failure self.now.made self.now.doing space page writing count }
        ensures made { IfSome result (λ p. p.made ≤ self.now.made + 1) }
    {
        match self.doing {
            Doing::Idle => self.goes(writing, Doing::Uncopied { space, page, count }),
            Doing::Claiming { purpose, victim } => self.goes(
                writing && is_victim(&victim, space, page),
                Doing::Unwritten {
                    purpose,
                    victim,
                    count,
                },
            ),
            Doing::Filling { access, frame } => self.goes(
                !writing && access.is_at(space, page),
                Doing::Unfilling {
                    access,
                    frame,
                    count,
                },
            ),
            _ => None,
        }
    }

    fn after_give(&self, space: u32, page: u32, frame: u32) -> Option<Progress>
        ensures is { result ≡ after_give self.now.made self.now.doing space page frame }
        ensures made { IfSome result (λ p. p.made ≤ self.now.made + 1) }
    {
        match self.doing {
            Doing::Unfilling {
                access,
                frame: own,
                count,
            } => self.goes(
                access.is_at(space, page) && frame == own,
                Doing::Faulted {
                    access,
                    space,
                    count,
                },
            ),
            Doing::Emptied { purpose, victim } => self.goes(
                is_victim(&victim, space, page) && frame == victim.frame,
                Doing::Holding { purpose, victim },
            ),
            _ => None,
        }
    }

    fn after_claim(
        &self,
        space: Option<u32>,
        victim: Victim,
        need: Option<Need>,
    ) -> Option<Progress>
        ensures is { result ≡ after_claim self.now.made self.now.doing space victim need }
        ensures made { IfSome result (λ p. p.made ≤ self.now.made + 1) }
    {
        match (self.doing, space, need) {
            (Doing::Idle, Some(space), Some(need)) => {
                let access = Access {
                    space,
                    page: need.page,
                    writing: Some(need.writing),
                };
                let purpose = Purpose::ForAccess(access);
                self.goes(true, Doing::Claiming { purpose, victim })
            }
            (Doing::Looking { mark, evictions }, None, None) if evictions < mark => {
                let purpose = Purpose::ForTurn { mark, evictions };
                self.goes(true, Doing::Claiming { purpose, victim })
            }
            _ => None,
        }
    }

    fn after_got(&self, frame: u32) -> Option<Progress>
        ensures is { result ≡ after_got self.now.made self.now.doing frame }
        ensures made { IfSome result (λ p. p.made ≤ self.now.made + 1) }
    {
        let Doing::Claiming { purpose, victim } = self.doing else {
            return None;
        };
        self.goes(frame == victim.frame, Doing::Holding { purpose, victim })
    }

    fn lacking(&self, purpose: Purpose, space: u32) -> Option<Progress>
        requires { self.now.made < 2 ^ 64 - 1 }
        ensures is { result ≡ lacking_for self.now.made (purpose_of purpose) space }
        ensures made { IfSome result (λ p. p.made ≤ self.now.made + 1) }
    {
        match purpose {
            Purpose::ForAccess(access) => self.goes(true, Doing::Lacking { access, space }),
            Purpose::ForTurn { mark, .. } => more(self.made, Doing::Looking { mark, evictions: 0 }),
        }
    }

    fn faulted(&self, purpose: Purpose, space: u32, count: u64) -> Option<Progress>
        requires { self.now.made < 2 ^ 64 - 1 }
        ensures is { result ≡ faulted_for self.now.made (purpose_of purpose) space count }
        ensures made { IfSome result (λ p. p.made ≤ self.now.made + 1) }
    {
        match purpose {
            Purpose::ForAccess(access) => self.goes(
                true,
                Doing::Faulted {
                    access,
                    space,
                    count,
                },
            ),
            Purpose::ForTurn { mark, .. } => more(self.made, Doing::Looking { mark, evictions: 0 }),
        }
    }

    fn after_unclaim(&self, space: u32, frame: u32) -> Option<Progress>
        requires { self.now.made < 2 ^ 64 - 1 }
        ensures is { result ≡ after_unclaim self.now.made self.now.doing space frame }
        ensures made { IfSome result (λ p. p.made ≤ self.now.made + 1) }
    {
        match self.doing {
            Doing::Claiming { purpose, victim } => {
                if space == victim.space && frame == victim.frame {
                    self.lacking(purpose, space)
                } else {
                    None
                }
            }
            Doing::Unwritten {
                purpose,
                victim,
                count,
            } => {
                if space == victim.space && frame == victim.frame {
                    self.faulted(purpose, space, count)
                } else {
                    None
                }
            }
            _ => None,
        }
    }

    fn dropped(&self, purpose: Purpose) -> Option<Progress>
        requires { IsBegun purpose }
        ensures is { result ≡ dropped_for self.now.made (purpose_of purpose) }
        ensures made { IfSome result (λ p. p.made ≤ self.now.made + 1) }
    {
        match purpose {
            Purpose::ForAccess(access) => self.goes(true, Doing::Late(access)),
            Purpose::ForTurn { mark, evictions } => self.goes(
                true,
                Doing::Looking {
                    mark,
                    evictions: evictions + 1,
                },
            ),
        }
    }

    fn after_drop(&self, frame: u32) -> Option<Progress>
        ensures is { result ≡ after_drop self.now.made self.now.doing frame }
        ensures made { IfSome result (λ p. p.made ≤ self.now.made + 1) }
    {
        match self.doing {
            Doing::Holding { purpose, victim } if frame == victim.frame => self.dropped(purpose),
            _ => None,
        }
    }

    fn after_refusal(&self, wired: u32, claimed: u32, held: u32) -> Option<Progress>
        ensures is { result ≡ after_refusal self.now.made self.now.doing wired claimed held }
        ensures made { IfSome result (λ p. p.made ≤ self.now.made + 1) }
    {
        let Doing::Idle = self.doing else {
            return None;
        };
        self.goes(
            true,
            Doing::Refusing {
                wired,
                claimed,
                held,
            },
        )
    }

    fn after_rest(&self, short: bool) -> Option<Progress>
        requires { self.now.made < 2 ^ 64 - 1 }
        ensures is { result ≡ after_rest self.now.made self.now.doing short }
        ensures made { IfSome result (λ p. p.made ≤ self.now.made + 1) }
    {
        match self.doing {
            Doing::Looking { mark, evictions } if !short || evictions == mark => {
                more(self.made, Doing::Looking { mark, evictions: 0 })
            }
            _ => None,
        }
    }

    /// What an entry on a space leads to.
    fn after_on(&self, space: u32, what: &What) -> Option<Progress>
        requires { self.now.made < 2 ^ 64 - 1 }
        ensures is { result ≡ progress_after self.now (Some space) what.now }
        ensures made { IfSome result (λ p. p.made ≤ self.now.made + 1) }
    {
        match *what {
            What::Answer {
                number,
                call,
                answered,
            } => self.after_answer(number, &call, answered.reply),
            What::Out { page, .. } => self.after_out(space, page),
            What::Failed {
                page,
                writing,
                count,
            } => self.after_failure(space, page, writing, count),
            What::Take { page, frame, .. } => self.after_take(space, page, frame),
            What::Give { page, frame } => self.after_give(space, page, frame),
            What::Clear { first, length } => self.after_clear(space, first, length),
            What::Claim {
                space: owner,
                page,
                frame,
                need,
            } => self.after_claim(
                Some(space),
                Victim {
                    space: owner,
                    page,
                    frame,
                },
                need,
            ),
            What::UseHeld { page, frame, .. } => self.after_use(space, page, frame),
            What::DropHeld { frame } => self.after_drop(frame),
            What::Got { frame } => self.after_got(frame),
            What::Unclaim { frame } => self.after_unclaim(space, frame),
            What::Refused {
                wired,
                claimed,
                held,
            } => self.after_refusal(wired, claimed, held),
            What::Pin {
                first,
                length,
                wired,
            } => self.after_pin(space, first, length, wired),
            What::Kept {
                first,
                length,
                page,
                ..
            } => self.after_kept(space, first, length, page),
            What::Rest { short } => self.after_rest(short),
        }
    }

    /// What an entry without a space leads to.
    fn after_alone(&self, what: &What) -> Option<Progress>
        requires { self.now.made < 2 ^ 64 - 1 }
        ensures is { result ≡ progress_after self.now None what.now }
        ensures made { IfSome result (λ p. p.made ≤ self.now.made + 1) }
    {
        match *what {
            What::Answer {
                number,
                call,
                answered,
            } => self.after_answer(number, &call, answered.reply),
            What::Claim {
                space,
                page,
                frame,
                need,
            } => self.after_claim(None, Victim { space, page, frame }, need),
            What::DropHeld { frame } => self.after_drop(frame),
            What::Got { frame } => self.after_got(frame),
            What::Refused {
                wired,
                claimed,
                held,
            } => self.after_refusal(wired, claimed, held),
            What::Rest { short } => self.after_rest(short),
            What::Out { .. }
            | What::Failed { .. }
            | What::Take { .. }
            | What::Give { .. }
            | What::Clear { .. }
            | What::UseHeld { .. }
            | What::Unclaim { .. }
            | What::Pin { .. }
            | What::Kept { .. } => None,
        }
    }

    /// Where the next entry of the processor leads. `None` exactly where it breaks the order.
    pub fn after(&self, entry: &Entry) -> Option<Progress>
        requires { self.now.made < 2 ^ 64 - 1 }
        ensures is { result ≡ progress_by (Some self.now) entry.now }
        ensures made { IfSome result (λ p. p.made ≤ self.now.made + 1) }
    {
        match entry.space {
            Some(space) => self.after_on(space, &entry.what),
            None => self.after_alone(&entry.what),
        }
    }
}

/// Between two calls, and between two turns.
fn between(mark: u32) -> Doing
    ensures is { doing_of result ≡ between mark }
    ensures few { IsFew result }
{
    if mark == 0 {
        Doing::Idle
    } else {
        Doing::Looking { mark, evictions: 0 }
    }
}
