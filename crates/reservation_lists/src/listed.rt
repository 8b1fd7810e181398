ghost use Rattle.std.specs.Prelude.{◌≡◌, Some, None};

use pager_model::Size;
use std::marker::Model;
use std::mem::size_of;

/// The list that has a reservation, and the stamp by which it stands there.
#[derive(Clone, Copy)]
pub(crate) struct Listed {
    pub(crate) size: Size,
    pub(crate) stamp: u64,
}

/// The list that has the reservation that begins at a frame, if one has it, in 16 bytes: an `Option<Listed>` takes 24, and there is
/// an entry for each frame.
///
/// Contracts see it as the option.
#[derive(Clone, Copy)]
pub(crate) struct Listing {
    stamp: u64,
    /// The level of the list's size, since `NONE`, a constant, can't make a `Size`.
    level: u8,
    /// Whether a list has it. Where none has, all else is zero.
    is_listed: bool,
}

const _: () = prove!(size_of::<Listing>() == 16);

impl Model for Listing {
    ghost use Rattle.std.specs.Prelude.{Option, option_map, unwrap_or, is_some};
    ghost use Rattle.reservation_lists.specs.declared.listed.Listed.{Listed};
    ghost use Rattle.reservation_lists.specs.ListingFields.{listing_in, IsPlain};

    ghost Value = { Option Listed };

    ghost view = { λ l. listing_in l.is_listed l.level l.stamp };

    ghost invariant = { λ l. IsPlain l.is_listed l.level l.stamp };

    ghost inverse = { λ o. record {
      stamp = unwrap_or (option_map (λ (l : Listed). l.stamp) o) 0;
      level = unwrap_or (option_map (λ (l : Listed). l.size) o) 0;
      is_listed = is_some o;
    } };
}

impl Listing {
    /// No list.
    pub(crate) const NONE: Listing = Listing {
        stamp: 0,
        level: 0,
        is_listed: false,
    };

    /// The list, and the stamp by which the reservation stands there.
    pub(crate) fn of(listed: Listed) -> Listing
        ensures { result ≡ Some listed }
    {
        Listing {
            stamp: listed.stamp,
            level: listed.size.level(),
            is_listed: true,
        }
    }

    /// What list has the reservation, if one has it.
    pub(crate) fn get(&self) -> Option<Listed>
        ensures { result ≡ self.now }
    {
        self.is_listed.then_some(Listed {
            size: Size::at_level(self.level),
            stamp: self.stamp,
        })
    }

    /// What list had the reservation, if one had it. None has it from then on.
    pub(crate) fn take(&mut self) -> Option<Listed>
        ensures value { result ≡ self.old }
        ensures after { self.new ≡ None }
    {
        let listed = self.get();
        *self = Listing::NONE;
        listed
    }
}
