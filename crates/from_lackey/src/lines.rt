//! The calls that a line becomes.

ghost use Rattle.std.specs.Prelude.{◌≡◌, IfErr, OnOk, length};
ghost use Rattle.lackey_layout.specs.Places.{Keeps};
ghost use Rattle.lackey_regions.specs.LineCalls.{MadeAt};
ghost use Rattle.lackey_regions.specs.Held.{regions_of};
ghost use Rattle.lackey_regions.specs.Refusals.{most_regions};
ghost use Rattle.from_lackey.specs.Converted.{IsRefused};
ghost use Rattle.from_lackey.specs.LineWords.{is_wanted, line_words};

use lackey_lines::{AccessKind, access_of, system_call_of};
use lackey_regions::{Memory, Refusal};
use pager_model::Line;

/// What a line became.
#[derive(Clone, Copy, Debug, PartialEq, Eq)]
pub enum Became {
    /// Calls, or none where what it tells changes nothing.
    Calls,
    /// Nothing, since it tells nothing.
    Nothing,
}

/// Adds the calls that a line becomes, behind so many that were written before.
#[tactic(auto, using(crate::proofs::MadeLines::made_none, crate::proofs::MadeLines::made_nothing))]
pub fn add_line(
    memory: &mut Memory,
    instructions: bool,
    line: &[u8],
    before: u64,
    calls: &mut Vec<Line>,
) -> Result<Became, Refusal>
    ensures made { OnOk result (MadeAt memory.new.layout calls.old.items calls.new.items (line_words instructions line.now)) }
    ensures keeps { Keeps memory.old.layout memory.new.layout }
    ensures refused { IfErr result (λ refusal. IsRefused memory.new.layout refusal line.now) }
    ensures full { IfErr result (λ refusal. refusal ≡ Refusal.MoreRegions → length (regions_of memory.new) ≡ most_regions) }
{
    if let Some(access) = access_of(line) {
        if is_wanted(instructions, access.kind) {
            memory.access(access, before, calls)?;
        }
        return Ok(Became::Calls);
    }
    if let Some(call) = system_call_of(line) {
        memory.system_call(call, calls)?;
        return Ok(Became::Calls);
    }
    Ok(Became::Nothing)
}

/// Whether an access of this kind becomes calls.
fn is_wanted(instructions: bool, kind: AccessKind) -> bool
    ensures { result ≡ is_wanted instructions kind }
{
    match kind {
        AccessKind::Instruction => instructions,
        _ => true,
    }
}
