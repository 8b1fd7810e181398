//! A trace that is made from a number.

ghost use Rattle.std.specs.Prelude.{◌≡◌, ◌-◌, ◌%◌, ◌++◌, ◌<◌, IfOk, map};
ghost use Rattle.std.specs.List.{range_with_len};
ghost use Rattle.pager_model.specs.Schedules.{next_state};
ghost use Rattle.trace_make.specs.Made.{CanMake, after_call, after_line, drawn_address, drawn_call, drawn_line, drawn_lines, drawn_page, drawn_rights, made, map_line};

use pager_model::{
    Call, Generator, Kind, Line, NoMemory, PAGE_BYTES, Rights, Sizes, Trace, WORD_BYTES, WORDS,
};
use std::alloc::Global;

/// How many pages the region of each space has.
const REGION: u32 = 4096;

/// At how many of them, its first, most calls are.
const OFTEN: u32 = 512;

/// Makes a trace from a number, by drawing from it as Knuth's generator of MMIX does: a map of 4,096 pages of each space, and then loads,
/// stores, syncs, evicts and protects, most of them at the first 512 pages.
///
/// `calls` counts the maps, so it is at least `spaces`, and at most 262,144; `processors` and `spaces` are from 1 to 16, and `frames` is a
/// multiple of 512 from 512 up to 32,768.
pub fn make(
    alloc: Global,
    number: u64,
    calls: u32,
    processors: u32,
    spaces: u32,
    frames: u32,
) -> Result<Trace, NoMemory>
    requires { CanMake calls processors spaces frames }
    ensures { IfOk result (λ trace. trace ≡ made number calls processors spaces frames) }
{
    let mut lines = Vec::with_capacity(alloc, calls as usize)?;
    add_maps(&mut lines, processors, spaces)?;
    add_drawn(
        &mut lines,
        Generator::of(number),
        processors,
        spaces,
        calls - spaces,
    )?;
    Ok(Trace::of(1, frames, processors, spaces, Sizes::all(), None, lines))
}

/// Adds a map of a region of each space.
fn add_maps(lines: &mut Vec<Line>, processors: u32, spaces: u32) -> Result<(), NoMemory>
    requires { 0 < processors }
    ensures { IfOk result (λ _. lines.new.items ≡ lines.old.items ++ map (map_line processors) (range_with_len 0 spaces)) }
{
    for space in 0..spaces {
        lines.push(map_line(processors, space))?;
    }
    Ok(())
}

/// The map of a space's region.
#[tactic(auto, unfolding(crate::specs::Made::map_line))]
fn map_line(processors: u32, space: u32) -> Line
    requires { 0 < processors }
    ensures { result ≡ map_line processors space }
{
    let call = Call::Map {
        space,
        page: 0,
        length: REGION,
        kind: Kind::Fixed,
        rights: Rights::Write,
    };
    Line {
        processor: space % processors,
        call,
    }
}

/// Adds so many drawn lines.
fn add_drawn(
    lines: &mut Vec<Line>,
    generator: Generator,
    processors: u32,
    spaces: u32,
    count: u32,
) -> Result<(), NoMemory>
    requires processors { 0 < processors }
    requires spaces { 0 < spaces }
    ensures { IfOk result (λ _. lines.new.items ≡ lines.old.items ++ drawn_lines processors spaces count generator) }
{
    let mut generator = generator;
    for _ in 0..count {
        lines.push(drawn_line(&mut generator, processors, spaces))?;
    }
    Ok(())
}

/// Draws a line.
#[tactic(auto, unfolding(crate::specs::Made::drawn_line, crate::specs::Made::after_line))]
fn drawn_line(generator: &mut Generator, processors: u32, spaces: u32) -> Line
    requires processors { 0 < processors }
    requires spaces { 0 < spaces }
    ensures line { result ≡ drawn_line processors spaces generator.old }
    ensures after { generator.new ≡ after_line generator.old }
{
    let processor = generator.draw(processors);
    let space = generator.draw(spaces);
    let page = drawn_page(generator);
    let call = drawn_call(generator, space, page);
    Line { processor, call }
}

/// Draws a page.
#[tactic(auto, unfolding(crate::specs::Made::drawn_page))]
fn drawn_page(generator: &mut Generator) -> u32
    ensures page { result ≡ drawn_page generator.old }
    ensures after { generator.new ≡ next_state (next_state generator.old) }
    ensures within { result < REGION }
{
    let among = if generator.draw(8) == 0 {
        REGION
    } else {
        OFTEN
    };
    generator.draw(among)
}

/// Draws a call at a page of a space.
#[tactic(auto, unfolding(crate::specs::Made::drawn_call, crate::specs::Made::after_call))]
fn drawn_call(generator: &mut Generator, space: u32, page: u32) -> Call
    requires { page < REGION }
    ensures call { result ≡ drawn_call space page generator.old }
    ensures after { generator.new ≡ after_call generator.old }
{
    match generator.draw(64) {
        0..=39 => Call::Load {
            space,
            address: drawn_address(generator, page),
        },
        40..=57 => {
            let address = drawn_address(generator, page);
            Call::Store {
                space,
                address,
                word: generator.word(),
            }
        }
        58 | 59 => Call::Sync { space, page },
        60 | 61 => Call::Evict { space, page },
        62 => protect(space, page, drawn_rights(generator)),
        _ => protect(space, page, Rights::Write),
    }
}

/// Draws the address of a word of a page.
#[tactic(auto, unfolding(crate::specs::Made::drawn_address))]
fn drawn_address(generator: &mut Generator, page: u32) -> u64
    requires { page < REGION }
    ensures address { result ≡ drawn_address page generator.old }
    ensures after { generator.new ≡ next_state generator.old }
{
    u64::from(page) * PAGE_BYTES + WORD_BYTES * u64::from(generator.draw(WORDS as u32))
}

/// Draws the right to read or to write.
fn drawn_rights(generator: &mut Generator) -> Rights
    ensures rights { result ≡ drawn_rights generator.old }
    ensures after { generator.new ≡ next_state generator.old }
{
    if generator.draw(2) == 0 {
        Rights::Read
    } else {
        Rights::Write
    }
}

/// Gives rights to the eight pages round a page that begin at a multiple of eight.
fn protect(space: u32, page: u32, rights: Rights) -> Call
    ensures { result ≡ Call.Protect space (page - page % 8) 8 rights }
{
    Call::Protect {
        space,
        page: page - page % 8,
        length: 8,
        rights,
    }
}
