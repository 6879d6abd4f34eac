ghost use Rattle.std.specs.Prelude.{◌≡◌, ℕ, List, IfOk, codes};
ghost use Rattle.std.specs.Iterator.{IsFinite};
ghost use Rattle.session.specs.Lines.{Trimmed, idle, first_word, word_of, Reads};

use crate::command::{Command, Malformed, Source};
use crate::numeral::{decimal_number, hex_byte};
use bars::condition::Condition;
use fddevs::part::PartMove;
use std::alloc::Global;
use timers::setting::Setting;

// A text at the first space: what stands before it, and what stands after it.
fn first_word(text: &str) -> (&str, &str)
    ensures { result.0.now ≡ first_word text.now }
{
    match text.split_once(' ') {
        Some((word, rest)) => (word, rest.trim()),
        None => (text, ""),
    }
}

// A decimal number of a type's range.
fn decimal<T: TryFrom<u64> + Drop>(text: &str) -> Option<T>
where
    T::Error: Drop,
{
    T::try_from(decimal_number(text.as_bytes())?).ok()
}

// What each word is read as, or what the first that is not read should have been. The heap is given beside the text: the
// functions that need none, and their laws, have the text alone.
fn list<'a, T: Drop, I: Iterator<Item = &'a str>, F: Fn(&str) -> Option<T>>(
    heap: Global,
    words: I,
    read: F,
    what: Malformed,
) -> Result<Vec<T>, Malformed>
    requires can_next { I.Iterator.can_next words × IsFinite (I.Iterator.remaining words) }
    requires pre { (f : _) (x : _) → F.pre f x }
{
    words.map(|word| read(word).ok_or(what)).try_collect(heap)
}

fn setting(word: &str) -> Option<Setting> {
    let (operate, hold) = word.split_once('/')?;
    Some(Setting {
        operate: decimal(operate)?,
        hold: decimal(hold)?,
    })
}

// A file by its path, or its bytes behind the word hex.
fn source(heap: Global, text: &str) -> Result<Source, Malformed> {
    match first_word(text) {
        ("hex", rest) => {
            let pair = |word: &str| hex_byte(word.as_bytes());
            list(heap, rest.split_whitespace(), pair, Malformed::HexPair).map(Source::Bytes)
        }
        _ if text.is_empty() => Err(Malformed::Source),
        _ => Ok(Source::Path(String::from_str(heap, text)?)),
    }
}

fn part_move(text: &str) -> Option<PartMove> {
    let (word, rest) = first_word(text.trim());
    match word {
        "inner" if rest.is_empty() => Some(PartMove::Internal),
        "input" => Some(PartMove::Input(decimal(rest)?)),
        "delay" => Some(PartMove::Delay(decimal(rest)?)),
        _ => None,
    }
}

fn part_moves(heap: Global, text: &str) -> Result<Vec<PartMove>, Malformed> {
    if text.is_empty() {
        return Ok(Vec::new(heap));
    }
    list(heap, text.split(','), part_move, Malformed::Move)
}

fn follow(heap: Global, text: &str) -> Result<Command, Malformed>
    ensures { IfOk result (λ c. word_of c ≡ codes "follow") }
{
    let (part, moves) = text.split_once(':').ok_or(Malformed::Part)?;
    let part = decimal(part.trim()).ok_or(Malformed::Part)?;
    Ok(Command::Follow(part, part_moves(heap, moves.trim())?))
}

fn rows(heap: Global, text: &str) -> Result<Command, Malformed>
    ensures { IfOk result (λ c. word_of c ≡ codes "rows") }
{
    let (count, file) = first_word(text);
    let count = decimal(count).ok_or(Malformed::PartCount)?;
    Ok(Command::Rows(count, source(heap, file)?))
}

fn condition(word: &str) -> Option<Condition> {
    let (part, phase) = word.split_once(':')?;
    Some(Condition {
        part: decimal(part)?,
        phase: decimal(phase)?,
    })
}

fn alone(command: Command, rest: &str) -> Result<Command, Malformed>
    ensures { IfOk result (λ c. c ≡ command) }
{
    if rest.is_empty() {
        Ok(command)
    } else {
        Err(Malformed::NothingMore)
    }
}

// The command of a text, by its first word.
fn command(heap: Global, line: &str) -> Result<Command, Malformed>
    ensures { IfOk result (λ c. word_of c ≡ first_word line.now) }
{
    let (word, rest) = first_word(line);
    let words = rest.split_whitespace();
    match word {
        "timers" => list(heap, words, setting, Malformed::Setting).map(Command::Timers),
        "scheme" => source(heap, rest).map(Command::Scheme),
        "sheet" => alone(Command::Sheet, rest),
        "follow" => follow(heap, rest),
        "rows" => rows(heap, rest),
        "wire" => source(heap, rest).map(Command::Wire),
        "offer" => source(heap, rest).map(Command::Offer),
        "bar" => list(heap, words, condition, Malformed::Condition).map(Command::Bar),
        "verdict" => alone(Command::Verdict, rest),
        "show" => alone(Command::Show, rest),
        _ => Err(Malformed::Command),
    }
}

// Whether a text is no command: nothing, or a comment.
fn is_idle(text: &str) -> bool
    ensures { result ≡ idle text.now }
{
    text.is_empty() || text.starts_with('#')
}

// The command of a text without white space at its ends.
fn read(heap: Global, text: &str) -> Result<Option<Command>, Malformed>
    ensures { Reads text.now result }
{
    if is_idle(text) {
        return Ok(None);
    }
    command(heap, text).map(Some)
}

// The command of a line, or none where the line is empty or begins with #.
pub fn parse(heap: Global, line: &str) -> Result<Option<Command>, Malformed>
    ensures { (t : List ℕ) × Trimmed line.now t × Reads t result }
{
    read(heap, line.trim())
}
