//! Laws of the definitions in `pager_model`, and of every legal history. None names a type of the crates above, so that whoever keeps a
//! history, checks one or plans one may cite them.
#![tactic(auto)]

pub mod laws;
