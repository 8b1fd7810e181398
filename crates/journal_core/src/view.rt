//! What a seat at the journal's word knows, and the names of the steps on the word.

use atomic_table::{Join, Play, Shared, Split, TableRule};
use pager_model::{Entry, Numbered, Setting};
use std::collections::LinkedList;
use std::marker::{Brand, PhantomData};

/// A part, and all its entries.
pub struct Part {
    pub part: u32,
    pub entries: LinkedList<Entry>,
}

/// A processor, and all its entries.
pub struct Own {
    pub processor: u32,
    pub entries: LinkedList<Numbered>,
}

/// What a seat knows: of the authors and the passes that it has, their lists. No value of it is made.
pub struct View {
    /// `false` once another seat has taken it in.
    pub live: bool,
    pub setting: Setting,
    pub authors: LinkedList<Part>,
    pub passes: LinkedList<Own>,
}

/// The rule of the journal's word.
pub struct Order;

impl TableRule<(), View, Setting> for Order {
    ghost use Rattle.journal_core.specs.Views.{Holds, opener};

    ghost holds = { Holds };

    ghost first = { opener };
}

/// The first author of a view.
pub struct FirstAuthor;

impl Split<View> for FirstAuthor {
    ghost use Rattle.journal_core.specs.Views.{first_author, without_author};

    ghost left = { without_author };

    ghost right = { first_author };
}

/// The first pass of a view.
pub struct FirstPass;

impl Split<View> for FirstPass {
    ghost use Rattle.journal_core.specs.Views.{first_pass, without_pass};

    ghost left = { without_pass };

    ghost right = { first_pass };
}

/// The lists of two views.
pub struct Both;

impl Join<View> for Both {
    ghost use Rattle.journal_core.specs.Views.{joined, spent};

    ghost both = { joined };

    ghost spent = { spent };
}

/// A step that makes a seat with no author and no pass.
pub struct Enter;

impl Play<(), View> for Enter {
    ghost use Rattle.journal_core.specs.Views.{Entered};

    ghost then = { Entered };
}

/// A step that looks.
pub struct Look;

impl Play<(), View> for Look {
    ghost use Rattle.journal_core.specs.Views.{Looks};

    ghost then = { Looks };
}

/// Names the entry of a commit. Each call picks it.
pub trait Naming {
    ghost use Rattle.pager_model.specs.declared.entry.Entry.{Entry};

    ghost entry: { Entry };
}

impl Naming for Brand {
    ghost use Rattle.journal_core.specs.Views.{some_entry};

    ghost entry = { some_entry };
}

/// A step that adds an entry.
pub struct Commit<N> {
    of: PhantomData<N>,
}

impl<N: Naming> Play<(), View> for Commit<N> {
    ghost use Rattle.journal_core.specs.Views.{Commits};

    ghost then = { Commits N.entry };
}

/// The journal's word, which all threads share.
pub type Word = Shared<(), View, Setting, Order>;

/// A seat at the word, with its view.
pub type Seat = atomic_table::Seat<(), View>;
