ghost use Rattle.std.specs.Prelude.{◌≡◌};

use pager_model::{Reservation, Size};
use std::marker::Model;
use std::mem::size_of;

/// The reservation that begins at a frame, if one does, in 24 bytes: an `Option<Reservation>` takes 32, and there is a record for
/// each frame.
///
/// Contracts see it as the option.
#[derive(Clone, Copy)]
pub(crate) struct Record {
    stamp: u64,
    space: u32,
    first: u32,
    frame: u32,
    /// The level of its size, since `NONE`, a constant, can't make a `Size`.
    level: u8,
    /// Whether a reservation begins at the frame. Where none does, all else is zero.
    begins: bool,
}

const _: () = prove!(size_of::<Record>() == 24);

impl Model for Record {
    ghost use Rattle.std.specs.Prelude.{Option, option_map, unwrap_or, is_some};
    ghost use Rattle.pager_model.specs.declared.reservation.Reservation.{Reservation};
    ghost use Rattle.reservations.specs.RecordFields.{record_in, IsPlain};

    ghost Value = { Option Reservation };

    ghost view = { λ r. record_in r.begins r.space r.first r.level r.frame r.stamp };

    ghost invariant = { λ r. IsPlain r.begins r.space r.first r.level r.frame r.stamp };

    ghost inverse = { λ o. record {
      stamp = unwrap_or (option_map (λ (r : Reservation). r.stamp) o) 0;
      space = unwrap_or (option_map (λ (r : Reservation). r.space) o) 0;
      first = unwrap_or (option_map (λ (r : Reservation). r.first) o) 0;
      frame = unwrap_or (option_map (λ (r : Reservation). r.frame) o) 0;
      level = unwrap_or (option_map (λ (r : Reservation). r.size) o) 0;
      begins = is_some o;
    } };
}

impl Record {
    /// No reservation.
    pub(crate) const NONE: Record = Record {
        stamp: 0,
        space: 0,
        first: 0,
        frame: 0,
        level: 0,
        begins: false,
    };

    /// The record of a reservation, or of none.
    pub(crate) fn of(reservation: Option<Reservation>) -> Record
        ensures { result ≡ reservation }
    {
        let Some(reservation) = reservation else {
            return Record::NONE;
        };
        Record {
            stamp: reservation.stamp,
            space: reservation.space,
            first: reservation.first,
            frame: reservation.frame,
            level: reservation.size.level(),
            begins: true,
        }
    }

    /// The reservation, where there is one.
    pub(crate) fn get(&self) -> Option<Reservation>
        ensures { result ≡ self.now }
    {
        self.begins.then_some(Reservation {
            space: self.space,
            first: self.first,
            size: Size::at_level(self.level),
            frame: self.frame,
            stamp: self.stamp,
        })
    }
}
