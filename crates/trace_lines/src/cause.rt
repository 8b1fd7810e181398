//! What is wrong with a line.

use std::fmt;

/// What is wrong with a line of a text.
#[derive(Clone, Copy, Debug, PartialEq, Eq)]
pub enum LineCause {
    /// No form that may stand there has so many words, or these words where no number stands.
    Form,
    /// The leftmost place at fault holds no number.
    Number,
    /// The leftmost place at fault holds a number that is out of its range.
    Range,
    /// It stands behind the line `end`. No function here tells it: who reads the whole text does.
    After,
}

impl fmt::Display for LineCause {
    fn fmt<W: fmt::Write>(&self, f: &mut fmt::Formatter<W>) -> fmt::Result {
        f.write_str(match self {
            LineCause::Form => "form",
            LineCause::Number => "number",
            LineCause::Range => "range",
            LineCause::After => "after",
        })
    }
}
