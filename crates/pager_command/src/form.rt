//! The program's words, and what they ask for.

ghost use Rattle.std.specs.Prelude.{◌≡◌, ◌≢◌, ℕ, ◌^◌, ◌<◌, ◌≤◌, [], ◌∷◌, ◌↔◌, IsTrue, IfSome, IfNone, List, codes, decimal};
ghost use Rattle.std.specs.Borrow.{Bor};
ghost use Rattle.report_text.specs.declared.report.Parts.{Parts as Printed};
ghost use Rattle.pager_command.specs.declared.form.Form.{Form as Asked};
ghost use Rattle.pager_command.specs.Forms.{AreBehind, AreCheckWords, AreLargeWords, AreMakingWords, AreOfCommand, AreStreamWords, AreWords, IsCommand, IsForm, IsForOneProcessor, IsLarge, IsMaking, IsStream, are_of, parts_words};
ghost use Rattle.trace_make.specs.Made.{CanMake};

use itoa::Buffer;
use pager_model::{MOST_CALLS, MOST_FRAMES, MOST_PROCESSORS, MOST_SPACES, Size};
use report_text::Parts;
use stream_run::StreamReport;

/// What the program is asked to do.
#[derive(Clone, Copy)]
pub enum Command {
    /// To read a trace and run it in this form.
    Run(Form),
    /// To make a trace and write its text.
    Make(Making),
    /// To make a large trace from this number, run it by a schedule that is drawn from this seed, and print the counts.
    Large { number: u64, seed: u64 },
    /// To read a trace and a history of it, and say whether the history is legal and shows the trace.
    Check,
    /// To run a trace as it is read, and print the counts, with those so far after each so many calls or without, or the miss curves.
    Stream { report: StreamReport },
}

/// In which order a trace that is read is run, and what is printed of the run.
#[derive(Clone, Copy)]
pub struct Form {
    pub order: Order,
    pub report: Report,
}

/// In which order the calls of a trace are run.
#[derive(Clone, Copy)]
pub enum Order {
    /// By one thread, which makes the entries of all processors by a schedule.
    InOneThread(Schedule),
    /// With a thread for each processor, in the order in which they come to the locks.
    Threads,
}

/// How one thread makes the entries of all processors.
#[derive(Clone, Copy)]
pub enum Schedule {
    /// In the order of the lines.
    Lines,
    /// In an order that is drawn from this seed.
    Drawn { seed: u64 },
}

/// What is printed of a run.
#[derive(Clone, Copy)]
pub enum Report {
    /// Each processor's answers, the history where it is asked for, and the counts.
    Answers { parts: Parts },
    /// The counts alone.
    Counts,
    /// Which extent of this size to empty then.
    Plan { size: Size },
    /// Of a trace of one processor: the misses of images of each capacity from 1 to 1,024, with the run's tiles and with base pages alone.
    Curves,
}

impl Report {
    /// Whether it is for traces of one processor alone.
    pub fn is_for_one_processor(&self) -> bool
        ensures { IsTrue result ↔ IsForOneProcessor self.now }
    {
        matches!(self, Report::Curves)
    }
}

/// The number that a trace is made from, and how many calls, processors, spaces and frames it has.
#[derive(Clone, Copy)]
pub struct Making {
    pub number: u64,
    pub calls: u32,
    pub processors: u32,
    pub spaces: u32,
    pub frames: u32,
}

impl Making {
    /// There is such a trace.
    fn is_possible(&self) -> bool
        ensures { IsTrue result ↔ CanMake self.now.calls self.now.processors self.now.spaces self.now.frames }
    {
        (512..=MOST_FRAMES).contains(&self.frames)
            && self.frames % 512 == 0
            && (1..=MOST_PROCESSORS).contains(&self.processors)
            && (1..=MOST_SPACES).contains(&self.spaces)
            && (self.spaces..=MOST_CALLS).contains(&self.calls)
    }
}

/// What the words ask for, where they are of a command.
pub fn command_of(words: &[&str]) -> Option<Command>
    ensures some { IfSome result (AreOfCommand words.now) }
    ensures none { IfNone result (IsCommand words.now → ⊥) }
{
    if let Some(form) = form_of(words) {
        return Some(Command::Run(form));
    }
    if let Some(making) = making_of(words) {
        return Some(Command::Make(making));
    }
    if is_check(words) {
        return Some(Command::Check);
    }
    if let Some(report) = stream_of(words) {
        return Some(Command::Stream { report });
    }
    let (number, seed) = large_of(words)?;
    Some(Command::Large { number, seed })
}

/// Whether the words are of a command.
pub fn is_command(words: &[&str]) -> bool
    ensures { IsTrue result ↔ IsCommand words.now }
{
    command_of(words).is_some()
}

/// The trace that the words ask to be made, where they do.
fn making_of(words: &[&str]) -> Option<Making>
    ensures some { IfSome result (AreMakingWords words.now) }
    ensures none { IfNone result (IsMaking words.now → ⊥) }
{
    match words {
        [word, number, calls, processors, spaces, frames] if *word == "make" => {
            let making = Making {
                number: number_of(number)?,
                calls: small_number_of(calls)?,
                processors: small_number_of(processors)?,
                spaces: small_number_of(spaces)?,
                frames: small_number_of(frames)?,
            };
            if !making.is_possible() {
                return None;
            }
            Some(making)
        }
        _ => None,
    }
}

/// The number and the seed of the large trace that the words ask to be run, where they do.
fn large_of(words: &[&str]) -> Option<(u64, u64)>
    ensures some { IfSome result (λ pair. AreLargeWords words.now pair.0 pair.1) }
    ensures none { IfNone result (IsLarge words.now → ⊥) }
{
    match words {
        [word, number, seed] if *word == "large" => Some((number_of(number)?, number_of(seed)?)),
        _ => None,
    }
}

/// Whether the words ask for a history to be judged.
fn is_check(words: &[&str]) -> bool
    ensures { IsTrue result ↔ AreCheckWords words.now }
{
    match words {
        [word] => *word == "check",
        _ => false,
    }
}

/// What the words ask for of a stream, where they ask for one.
fn stream_of(words: &[&str]) -> Option<StreamReport>
    ensures some { IfSome result (AreStreamWords words.now) }
    ensures none { IfNone result (IsStream words.now → ⊥) }
{
    match words {
        [word] if *word == "stream" => Some(StreamReport::Counts { every: None }),
        [word, report] if *word == "stream" => stream_report_of(report),
        _ => None,
    }
}

/// What the word after `stream` asks for, where it asks for something.
fn stream_report_of(word: &str) -> Option<StreamReport>
    ensures some { IfSome result (λ report. (words : List (Bor (List ℕ))) → are_of words ≡ codes "stream" ∷ word.now ∷ []
        → AreStreamWords words report) }
    ensures none { IfNone result ((words : List (Bor (List ℕ))) → are_of words ≡ codes "stream" ∷ word.now ∷ [] → IsStream words → ⊥) }
{
    if word == "curve" {
        return Some(StreamReport::Curves);
    }
    let every = every_of(word)?;
    Some(StreamReport::Counts { every: Some(every) })
}

/// The number of calls that a word names, where it is one at least.
fn every_of(word: &str) -> Option<u32>
    ensures some { IfSome result (λ every. (word.now ≡ decimal every) × (1 ≤ every) × (every < 2 ^ 32)) }
    ensures none { IfNone result ((every : ℕ) → 1 ≤ every → every < 2 ^ 32 → word.now ≢ decimal every) }
{
    let every = small_number_of(word)?;
    if every == 0 {
        return None;
    }
    Some(every)
}

/// The form of the words, where they are of one.
fn form_of(words: &[&str]) -> Option<Form>
    ensures some { IfSome result (AreWords words.now) }
    ensures none { IfNone result (IsForm words.now → ⊥) }
{
    let [word, rest @ ..] = words else {
        return None;
    };
    match *word {
        "order" => order_asked(rest),
        "turns" => turns_asked(rest),
        "replay" => replay_asked(rest),
        "plan" => plan_asked(rest),
        "curve" => curve_asked(rest),
        _ => None,
    }
}

/// The form that the words after `order` are of, where they are of one.
fn order_asked(words: &[&str]) -> Option<Form>
    ensures some { IfSome result (AreBehind (codes "order") words.now) }
    ensures none { IfNone result ((form : Asked) → AreBehind (codes "order") words.now form → ⊥) }
{
    let parts = parts_asked(words)?;
    Some(Form {
        order: Order::InOneThread(Schedule::Lines),
        report: Report::Answers { parts },
    })
}

/// The form that the words after `turns` are of, where they are of one.
fn turns_asked(words: &[&str]) -> Option<Form>
    ensures some { IfSome result (AreBehind (codes "turns") words.now) }
    ensures none { IfNone result ((form : Asked) → AreBehind (codes "turns") words.now form → ⊥) }
{
    let [seed, rest @ ..] = words else {
        return None;
    };
    let seed = number_of(seed)?;
    let parts = parts_asked(rest)?;
    Some(Form {
        order: Order::InOneThread(Schedule::Drawn { seed }),
        report: Report::Answers { parts },
    })
}

/// The form that the words after `replay` are of, where they are of one.
fn replay_asked(words: &[&str]) -> Option<Form>
    ensures some { IfSome result (AreBehind (codes "replay") words.now) }
    ensures none { IfNone result ((form : Asked) → AreBehind (codes "replay") words.now form → ⊥) }
{
    let parts = parts_asked(words)?;
    Some(Form {
        order: Order::Threads,
        report: Report::Answers { parts },
    })
}

/// The form that the words after `plan` are of, where they are of one.
fn plan_asked(words: &[&str]) -> Option<Form>
    ensures some { IfSome result (AreBehind (codes "plan") words.now) }
    ensures none { IfNone result ((form : Asked) → AreBehind (codes "plan") words.now form → ⊥) }
{
    let size = size_asked(words)?;
    Some(Form {
        order: Order::InOneThread(Schedule::Lines),
        report: Report::Plan { size },
    })
}

/// The form that the words after `curve` are of, where there are none.
fn curve_asked(words: &[&str]) -> Option<Form>
    ensures some { IfSome result (AreBehind (codes "curve") words.now) }
    ensures none { IfNone result ((form : Asked) → AreBehind (codes "curve") words.now form → ⊥) }
{
    match words {
        [] => Some(Form {
            order: Order::InOneThread(Schedule::Lines),
            report: Report::Curves,
        }),
        _ => None,
    }
}

/// The size that the words after `plan` name, where they are one word that names one.
fn size_asked(words: &[&str]) -> Option<Size>
    ensures some { IfSome result (λ size. (are_of words.now ≡ decimal size ∷ []) × (1 ≤ size) × (size ≤ 3)) }
    ensures none { IfNone result ((size : ℕ) → 1 ≤ size → size ≤ 3 → are_of words.now ≢ decimal size ∷ []) }
{
    match words {
        [word] => size_of(word),
        _ => None,
    }
}

/// The size that a word names by its level, where it is one of more than a page.
fn size_of(word: &str) -> Option<Size>
    ensures some { IfSome result (λ size. (word.now ≡ decimal size) × (1 ≤ size) × (size ≤ 3)) }
    ensures none { IfNone result ((size : ℕ) → 1 ≤ size → size ≤ 3 → word.now ≢ decimal size) }
{
    let level = small_number_of(word)?;
    if level == 0 || level > 3 {
        return None;
    }
    Some(Size::at_level(level as u8))
}

/// The parts that the words after a form's own ask for, where they ask for some.
fn parts_asked(words: &[&str]) -> Option<Parts>
    ensures some { IfSome result (λ parts. are_of words.now ≡ parts_words parts) }
    ensures none { IfNone result ((parts : Printed) → are_of words.now ≢ parts_words parts) }
{
    match words {
        [] => Some(Parts::Answers),
        [word] if *word == "--history" => Some(Parts::AnswersAndHistory),
        _ => None,
    }
}

/// The number whose decimal digits the word is, where it is one's.
fn number_of(word: &str) -> Option<u64>
    ensures some { IfSome result (λ number. word.now ≡ decimal number) }
    ensures none { IfNone result ((number : ℕ) → number < 2 ^ 64 → word.now ≢ decimal number) }
{
    let Ok(number) = word.parse::<u64>() else {
        return None;
    };
    let mut buffer = Buffer::new();
    if buffer.format(number) != word {
        return None;
    }
    Some(number)
}

/// The number of at most 32 bits whose decimal digits the word is, where it is one's.
pub fn small_number_of(word: &str) -> Option<u32>
    ensures some { IfSome result (λ number. word.now ≡ decimal number) }
    ensures none { IfNone result ((number : ℕ) → number < 2 ^ 32 → word.now ≢ decimal number) }
{
    let Ok(number) = u32::try_from(number_of(word)?) else {
        return None;
    };
    Some(number)
}
