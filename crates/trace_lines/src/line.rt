//! Lines: the first one, a daemon's, and those of calls.
ghost use Rattle.std.specs.Prelude.{◌≡◌, ◌<◌, ◌≤◌, ◌∷◌, [], List, ℕ, false, true, Some, IfSome, IfNone, Ok, IfOk, IfErr, codes, decimal};
ghost use Rattle.std.specs.Str.{bytes_eq};
ghost use Rattle.pager_model.specs.TraceText.{IsDaemon, IsVersion, first_words, daemon_words};
ghost use Rattle.trace_lines.specs.Forms.{Place, Number, number_in, fits, leftmost, line_fault, first_forms, first_places, daemon_form, page, pages, map_form, grow_form, protect_form, load_form, store_form, discard_form, call_forms};
ghost use Rattle.trace_lines.specs.declared.line.Name.{Name};
ghost use Rattle.trace_lines.specs.Heads.{HasName, IsInRange, IsRead, is_later, word_of_name};
ghost use Rattle.trace_lines.specs.Words.{seen, words_of};

use crate::cause::LineCause;
use crate::front::call_at_front;
use crate::word::{any_number, kind, number, page_sizes, rights, small, words};
use pager_model::{Call, Daemon, Line, PAGES, Sizes};

/// The first word of a trace.
const TRACE: &[u8] = b"trace";

/// The first word of a daemon's line.
const DAEMON: &[u8] = b"daemon";

/// The bytes of a space.
pub const ADDRESSES: u64 = 8_589_934_592;

/// What a trace's first line says.
#[derive(Drop)]
pub struct Head {
    /// 1, 2 or 3.
    pub version: u32,
    /// A multiple of 512, from 512 to 32,768.
    pub frames: u32,
    /// From 1 to 16.
    pub processors: u32,
    /// From 1 to 16.
    pub spaces: u32,
    /// All four in version 1.
    pub sizes: Sizes,
}

/// What the first line says.
pub fn first_line(line: &[u8]) -> Result<Head, LineCause>
    ensures range { IfOk result (λ head. IsInRange head) }
    ensures text { IfOk result
        (λ head. words_of line.now ≡ first_words head.version head.frames head.processors head.spaces head.sizes) }
    ensures err { IfErr result
        (λ cause. line_fault first_forms (words_of line.now) ≡ Some cause) }
{
    let Some(words) = words(line) else {
        return Err(LineCause::Form);
    };
    let [name, others @ ..] = words.as_slice() else {
        return Err(LineCause::Form);
    };
    first_of(name, others)
}

/// What the first line says whose first word is this, with the others behind it.
fn first_of(name: &[u8], others: &[&[u8]]) -> Result<Head, LineCause>
    ensures range { IfOk result (λ head. IsInRange head) }
    ensures text { IfOk result (λ head. name.now ∷ seen others.now
        ≡ first_words head.version head.frames head.processors head.spaces head.sizes) }
    ensures err { IfErr result (λ cause. line_fault first_forms (name.now ∷ seen others.now) ≡ Some cause) }
{
    if name == TRACE {
        first_words(others)
    } else {
        Err(LineCause::Form)
    }
}

/// What the first line of a trace says by the words behind its first one: four numbers in version 1, which has all four page sizes, and in
/// versions 2 and 3 the word of the sizes behind them.
fn first_words(words: &[&[u8]]) -> Result<Head, LineCause>
    ensures range { IfOk result (λ head. IsInRange head) }
    ensures text { IfOk result (λ head. codes "trace" ∷ seen words.now
        ≡ first_words head.version head.frames head.processors head.spaces head.sizes) }
    ensures err { IfErr result (λ cause. line_fault first_forms
        (codes "trace" ∷ seen words.now) ≡ Some cause) }
{
    match words {
        [version, frames, processors, spaces] => {
            let version = small(version, 1, 1..2)?;
            head_of(version, frames, processors, spaces, Sizes::all())
        }
        [version, frames, processors, spaces, sizes] => {
            let Some(sizes) = page_sizes(sizes) else {
                return Err(LineCause::Form);
            };
            let version = small(version, 1, 2..4)?;
            head_of(version, frames, processors, spaces, sizes)
        }
        _ => Err(LineCause::Form),
    }
}

/// What a first line of this version says with these words for its counts, and with these page sizes.
fn head_of(
    version: u32,
    frames: &[u8],
    processors: &[u8],
    spaces: &[u8],
    sizes: Sizes,
) -> Result<Head, LineCause>
    requires { IsVersion version sizes }
    ensures own { IfOk result (λ head. (head.version ≡ version) × (head.sizes ≡ sizes)) }
    ensures range { IfOk result (λ head. IsInRange head) }
    ensures text { IfOk result (λ head. frames.now ∷ processors.now ∷ spaces.now ∷ []
        ≡ decimal head.frames ∷ decimal head.processors ∷ decimal head.spaces ∷ []) }
    ensures err { IfErr result (λ cause. leftmost (first_places [])
        (frames.now ∷ processors.now ∷ spaces.now ∷ []) ≡ Some cause) }
{
    Ok(Head {
        version,
        frames: small(frames, 512, 512..32_769)?,
        processors: small(processors, 1, 1..17)?,
        spaces: small(spaces, 1, 1..17)?,
        sizes,
    })
}

/// The numbers' words of a line that fits the form of a daemon's.
pub fn daemon_numbers(line: &[u8]) -> Option<(&[u8], &[u8])>
    ensures some { IfSome result (λ numbers. words_of line.now
        ≡ codes "daemon" ∷ numbers.0.now ∷ numbers.1.now ∷ []) }
    ensures none { IfNone result (fits daemon_form (words_of line.now) ≡ false) }
{
    match words(line)?.as_slice() {
        [name, low, turns] if *name == DAEMON => Some((low, turns)),
        _ => None,
    }
}

/// The daemon that a line says with these words for its numbers.
pub fn daemon(low: &[u8], turns: &[u8]) -> Result<Daemon, LineCause>
    ensures range { IfOk result (λ d. IsDaemon (Some d)) }
    ensures text { IfOk result (λ d. codes "daemon" ∷ low.now ∷ turns.now ∷ [] ≡ daemon_words d) }
    ensures err { IfErr result (λ cause. leftmost daemon_form
        (codes "daemon" ∷ low.now ∷ turns.now ∷ []) ≡ Some cause) }
{
    let low = small(low, 1, 1..65)?;
    let turns = small(turns, 1, 1..4097)?;
    Ok(Daemon { low, turns })
}

/// The call that a line says, in a trace with this first line.
pub fn call(line: &[u8], head: &Head) -> Result<Line, LineCause>
    ensures { IsRead head.now (call_forms head.now.version head.now.processors head.now.spaces) (words_of line.now) result }
{
    if let Some((call, rest)) = call_at_front(line, head.processors, head.spaces) {
        if rest.is_empty() {
            return Ok(call);
        }
    }
    call_by_words(line, head)
}

/// The call that a line says by its words.
fn call_by_words(line: &[u8], head: &Head) -> Result<Line, LineCause>
    ensures { IsRead head.now (call_forms head.now.version head.now.processors head.now.spaces) (words_of line.now) result }
{
    let Some(words) = words(line) else {
        return Err(LineCause::Form);
    };
    let [processor, name, arguments @ ..] = words.as_slice() else {
        return Err(LineCause::Form);
    };
    call_of(head, processor, name, arguments)
}

/// The call of this name, by a processor, with these arguments.
fn call_of(
    head: &Head,
    processor: &[u8],
    name: &[u8],
    arguments: &[&[u8]],
) -> Result<Line, LineCause>
    ensures { IsRead head.now (call_forms head.now.version head.now.processors head.now.spaces) (processor.now ∷ name.now ∷ seen arguments.now) result }
{
    match name_of(head.version, name) {
        Some(Name::Map) => map(head, processor, arguments),
        Some(Name::Grow) => grow(head, processor, arguments),
        Some(Name::Unmap) => {
            let OnePage {
                processor,
                space,
                page,
            } = one_page(head, processor, arguments)?;
            let call = Call::Unmap { space, page };
            Ok(Line { processor, call })
        }
        Some(Name::Protect) => protect(head, processor, arguments),
        Some(Name::Load) => load(head, processor, arguments),
        Some(Name::Store) => store(head, processor, arguments),
        Some(Name::Sync) => {
            let OnePage {
                processor,
                space,
                page,
            } = one_page(head, processor, arguments)?;
            let call = Call::Sync { space, page };
            Ok(Line { processor, call })
        }
        Some(Name::Evict) => {
            let OnePage {
                processor,
                space,
                page,
            } = one_page(head, processor, arguments)?;
            let call = Call::Evict { space, page };
            Ok(Line { processor, call })
        }
        Some(Name::Discard) => discard(head, processor, arguments),
        Some(Name::Wire) => {
            let OnePage {
                processor,
                space,
                page,
            } = one_page(head, processor, arguments)?;
            let call = Call::Wire { space, page };
            Ok(Line { processor, call })
        }
        Some(Name::Unwire) => {
            let OnePage {
                processor,
                space,
                page,
            } = one_page(head, processor, arguments)?;
            let call = Call::Unwire { space, page };
            Ok(Line { processor, call })
        }
        None => Err(LineCause::Form),
    }
}

/// The name of a call.
#[derive(Clone, Copy)]
pub enum Name {
    Map,
    Grow,
    Unmap,
    Protect,
    Load,
    Store,
    Sync,
    Evict,
    Discard,
    Wire,
    Unwire,
}

/// The name that a word is in a text of this version.
fn name_of(version: u32, word: &[u8]) -> Option<Name>
    ensures some { IfSome result (λ name. (word.now ≡ word_of_name name) × HasName version name) }
    ensures none { IfNone result ((name : Name) → HasName version name → bytes_eq word.now (word_of_name name) ≡ false) }
{
    match early_name_of(word) {
        None if version >= 3 => later_name_of(word),
        name => name,
    }
}

/// The name that a word is in each version.
fn early_name_of(word: &[u8]) -> Option<Name>
    ensures some { IfSome result (λ name. (word.now ≡ word_of_name name) × (is_later name ≡ false)) }
    ensures none { IfNone result ((name : Name) → is_later name ≡ false → bytes_eq word.now (word_of_name name) ≡ false) }
{
    if word == b"map".as_slice() {
        Some(Name::Map)
    } else if word == b"grow".as_slice() {
        Some(Name::Grow)
    } else if word == b"unmap".as_slice() {
        Some(Name::Unmap)
    } else if word == b"protect".as_slice() {
        Some(Name::Protect)
    } else if word == b"load".as_slice() {
        Some(Name::Load)
    } else if word == b"store".as_slice() {
        Some(Name::Store)
    } else if word == b"sync".as_slice() {
        Some(Name::Sync)
    } else if word == b"evict".as_slice() {
        Some(Name::Evict)
    } else {
        None
    }
}

/// The name that a word is from version 3 on alone.
fn later_name_of(word: &[u8]) -> Option<Name>
    ensures some { IfSome result (λ name. (word.now ≡ word_of_name name) × (is_later name ≡ true)) }
    ensures none { IfNone result ((name : Name) → is_later name ≡ true → bytes_eq word.now (word_of_name name) ≡ false) }
{
    if word == b"discard".as_slice() {
        Some(Name::Discard)
    } else if word == b"wire".as_slice() {
        Some(Name::Wire)
    } else if word == b"unwire".as_slice() {
        Some(Name::Unwire)
    } else {
        None
    }
}

/// Who makes a call.
struct Caller {
    processor: u32,
    space: u32,
}

/// The processor and its space that these words name.
fn caller_of(head: &Head, processor: &[u8], space: &[u8]) -> Result<Caller, LineCause>
    ensures range { IfOk result (λ who. (who.processor < head.now.processors) × (who.space < head.now.spaces)) }
    ensures text { IfOk result (λ who. (processor.now ≡ decimal who.processor) × (space.now ≡ decimal who.space)) }
    ensures exact { IfOk result (λ who. (number_in 1 0 head.now.processors processor.now ≡ Ok who.processor)
        × (number_in 1 0 head.now.spaces space.now ≡ Ok who.space)) }
    ensures err { IfErr result (λ cause. (places : List Place) (words : List (List ℕ))
        → leftmost (Number 1 0 head.now.processors ∷ Number 1 0 head.now.spaces ∷ places)
        (processor.now ∷ space.now ∷ words) ≡ Some cause) }
{
    let processor = small(processor, 1, 0..head.processors)?;
    let space = small(space, 1, 0..head.spaces)?;
    Ok(Caller { processor, space })
}

/// Where a call is made that names pages by the first of them and their number.
struct Pages {
    processor: u32,
    space: u32,
    page: u32,
    length: u32,
}

/// Where such a call is made, by these words.
fn pages_of(
    head: &Head,
    processor: &[u8],
    space: &[u8],
    first: &[u8],
    count: &[u8],
) -> Result<Pages, LineCause>
    ensures range { IfOk result (λ at. (at.processor < head.now.processors) × (at.space < head.now.spaces)
        × (at.page < PAGES) × (1 ≤ at.length) × (at.length ≤ PAGES)) }
    ensures text { IfOk result (λ at. (processor.now ≡ decimal at.processor) × (space.now ≡ decimal at.space)
        × (first.now ≡ decimal at.page) × (count.now ≡ decimal at.length)) }
    ensures err { IfErr result
        (λ cause. leftmost (Number 1 0 head.now.processors ∷ Number 1 0 head.now.spaces ∷ page ∷ pages ∷ [])
        (processor.now ∷ space.now ∷ first.now ∷ count.now ∷ []) ≡ Some cause) }
{
    let Caller { processor, space } = caller_of(head, processor, space)?;
    let page = small(first, 1, 0..PAGES)?;
    let length = small(count, 1, 1..PAGES + 1)?;
    Ok(Pages {
        processor,
        space,
        page,
        length,
    })
}

/// Where such a call of this processor is made, with these arguments, where it names nothing else.
fn only_pages(head: &Head, processor: &[u8], arguments: &[&[u8]]) -> Result<Pages, LineCause>
    ensures range { IfOk result (λ at. (at.processor < head.now.processors) × (at.space < head.now.spaces)
        × (at.page < PAGES) × (1 ≤ at.length) × (at.length ≤ PAGES)) }
    ensures text { IfOk result (λ at. processor.now ∷ seen arguments.now
        ≡ decimal at.processor ∷ decimal at.space ∷ decimal at.page ∷ decimal at.length ∷ []) }
    ensures err { IfErr result
        (λ cause. line_fault ((Number 1 0 head.now.processors ∷ Number 1 0 head.now.spaces ∷ page ∷ pages ∷ []) ∷ [])
        (processor.now ∷ seen arguments.now) ≡ Some cause) }
{
    let [space, first, count] = arguments else {
        return Err(LineCause::Form);
    };
    pages_of(head, processor, space, first, count)
}

/// The call `map` of this processor, with these arguments.
fn map(head: &Head, processor: &[u8], arguments: &[&[u8]]) -> Result<Line, LineCause>
    ensures { IsRead head.now (map_form head.now.processors head.now.spaces ∷ []) (processor.now ∷ codes "map" ∷ seen arguments.now) result }
{
    let [space, first, count, kind_word, rights_word] = arguments else {
        return Err(LineCause::Form);
    };
    let (Some(kind), Some(rights)) = (kind(kind_word), rights(rights_word)) else {
        return Err(LineCause::Form);
    };
    let Pages {
        processor,
        space,
        page,
        length,
    } = pages_of(head, processor, space, first, count)?;
    let call = Call::Map {
        space,
        page,
        length,
        kind,
        rights,
    };
    Ok(Line { processor, call })
}

/// The call `grow` of this processor, with these arguments.
fn grow(head: &Head, processor: &[u8], arguments: &[&[u8]]) -> Result<Line, LineCause>
    ensures { IsRead head.now (grow_form head.now.processors head.now.spaces ∷ []) (processor.now ∷ codes "grow" ∷ seen arguments.now) result }
{
    let Pages {
        processor,
        space,
        page,
        length: by,
    } = only_pages(head, processor, arguments)?;
    let call = Call::Grow { space, page, by };
    Ok(Line { processor, call })
}

/// The call `protect` of this processor, with these arguments.
fn protect(head: &Head, processor: &[u8], arguments: &[&[u8]]) -> Result<Line, LineCause>
    ensures { IsRead head.now (protect_form head.now.processors head.now.spaces ∷ []) (processor.now ∷ codes "protect" ∷ seen arguments.now) result }
{
    let [space, first, count, rights_word] = arguments else {
        return Err(LineCause::Form);
    };
    let Some(rights) = rights(rights_word) else {
        return Err(LineCause::Form);
    };
    let Pages {
        processor,
        space,
        page,
        length,
    } = pages_of(head, processor, space, first, count)?;
    let call = Call::Protect {
        space,
        page,
        length,
        rights,
    };
    Ok(Line { processor, call })
}

/// The call `discard` of this processor, with these arguments, in a trace whose version has it.
fn discard(head: &Head, processor: &[u8], arguments: &[&[u8]]) -> Result<Line, LineCause>
    requires { 3 ≤ head.now.version }
    ensures { IsRead head.now (discard_form head.now.processors head.now.spaces ∷ []) (processor.now ∷ codes "discard" ∷ seen arguments.now) result }
{
    let Pages {
        processor,
        space,
        page,
        length,
    } = only_pages(head, processor, arguments)?;
    let call = Call::Discard {
        space,
        page,
        length,
    };
    Ok(Line { processor, call })
}

/// Where a call is made that names a page and nothing else.
struct OnePage {
    processor: u32,
    space: u32,
    page: u32,
}

/// Where such a call of this processor is made, with these arguments.
fn one_page(head: &Head, processor: &[u8], arguments: &[&[u8]]) -> Result<OnePage, LineCause>
    ensures range { IfOk result
        (λ at. (at.processor < head.now.processors) × (at.space < head.now.spaces) × (at.page < PAGES)) }
    ensures text { IfOk result (λ at. processor.now ∷ seen arguments.now
        ≡ decimal at.processor ∷ decimal at.space ∷ decimal at.page ∷ []) }
    ensures err { IfErr result (λ cause. line_fault ((Number 1 0 head.now.processors ∷ Number 1 0 head.now.spaces ∷ page ∷ []) ∷ [])
        (processor.now ∷ seen arguments.now) ≡ Some cause) }
{
    let [space, page] = arguments else {
        return Err(LineCause::Form);
    };
    let Caller { processor, space } = caller_of(head, processor, space)?;
    let page = small(page, 1, 0..PAGES)?;
    Ok(OnePage {
        processor,
        space,
        page,
    })
}

/// The call `load` of this processor, with these arguments.
fn load(head: &Head, processor: &[u8], arguments: &[&[u8]]) -> Result<Line, LineCause>
    ensures { IsRead head.now (load_form head.now.processors head.now.spaces ∷ []) (processor.now ∷ codes "load" ∷ seen arguments.now) result }
{
    let [space, address] = arguments else {
        return Err(LineCause::Form);
    };
    let Caller { processor, space } = caller_of(head, processor, space)?;
    let address = number(address, 8, 0..ADDRESSES)?;
    let call = Call::Load { space, address };
    Ok(Line { processor, call })
}

/// The call `store` of this processor, with these arguments.
fn store(head: &Head, processor: &[u8], arguments: &[&[u8]]) -> Result<Line, LineCause>
    ensures { IsRead head.now (store_form head.now.processors head.now.spaces ∷ []) (processor.now ∷ codes "store" ∷ seen arguments.now) result }
{
    let [space, address, word] = arguments else {
        return Err(LineCause::Form);
    };
    let Caller { processor, space } = caller_of(head, processor, space)?;
    let address = number(address, 8, 0..ADDRESSES)?;
    let word = any_number(word)?;
    let call = Call::Store {
        space,
        address,
        word,
    };
    Ok(Line { processor, call })
}
