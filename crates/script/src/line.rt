ghost use Rattle.std.specs.Prelude.{◌≡◌, ◌==◌, ◌<◌, true, false, Some, None, Ok, Err, IfSome};
ghost use Rattle.std.specs.List.{before_first, after_first};
ghost use Rattle.script.specs.Lines.{word, argument, blank, alone, takes_argument};
ghost use Rattle.script.specs.declared.line.Unreadable.TheVariants.{NoSuchCall};

use kiosk::call::Call;
use rules::record::Record;
use rules::rule::{LiteralSet, Sign};
use std::str::from_utf8;
use thiserror::Error;

// What a line of a script asks for.
#[derive(Clone, Copy, PartialEq, Eq, Debug)]
pub enum Line {
    SetUp(u8),
    Make(Call),
    Report,
    Reading(u8),
    Ruling(u8),
}

// Why a line cannot be read; the message says what to write instead.
#[derive(Clone, Copy, PartialEq, Eq, Debug, Error)]
pub enum Unreadable {
    #[error("it is no text")]
    NoText,
    #[error("write set up, begin, lay, withdraw, open, fact, end, outcomes, report, reading or ruling")]
    NoSuchCall,
    #[error("write the number of matters, as in: set up 3")]
    NoMatters,
    #[error("a matter is a number from 0 to 255")]
    NoMatter,
    #[error("a body can name the matters 0 to 15")]
    BeyondBody,
}

// Reads a line as it stands in a script; one that is blank but for a comment asks for nothing.
pub(crate) fn read(line: &[u8]) -> Result<Option<Line>, Unreadable> {
    parse(from_utf8(line).map_err(|_| Unreadable::NoText)?)
}

// Reads a line of text. Not an `impl FromStr`, since a blank line asks for nothing.
pub fn parse(line: &str) -> Result<Option<Line>, Unreadable>
    ensures blank { blank (word line.now) ≡ true → result ≡ Ok None }
    ensures alone { IfSome (alone (word line.now)) (λ l. result ≡ Ok (Some l)) }
    ensures unknown { blank (word line.now) ≡ false → alone (word line.now) ≡ None → takes_argument (word line.now) ≡ false → result ≡ Err NoSuchCall }
{
    let (word, rest) = cut(line);
    if word.is_empty() {
        return Ok(None);
    }
    match parse_alone(word) {
        Some(line) => Ok(Some(line)),
        None => parse_with(word, rest).map(Some),
    }
}

// The word that a line begins with, and what follows. '#' starts a comment.
fn cut(line: &str) -> (&str, &str)
    ensures word { result.0.now ≡ word line.now }
    ensures rest { result.1.now ≡ argument line.now }
{
    let (line, _) = around(line, '#');
    let (word, rest) = around(line.trim(), ' ');
    (word, rest.trim())
}

// What stands before the first such character and after it; without one, the whole text and nothing.
fn around(text: &str, mark: char) -> (&str, &str)
    requires { mark < 128 }
    ensures before { result.0.now ≡ before_first (λ b. b == mark) text.now }
    ensures after { result.1.now ≡ after_first (λ b. b == mark) text.now }
{
    text.split_once(mark).unwrap_or((text, ""))
}

// Reads a word that stands without an argument.
fn parse_alone(word: &str) -> Option<Line>
    ensures { result ≡ alone word.now }
{
    match word {
        "begin" => Some(Line::Make(Call::Begin)),
        "withdraw" => Some(Line::Make(Call::Withdraw)),
        "open" => Some(Line::Make(Call::Open)),
        "end" => Some(Line::Make(Call::End)),
        "outcomes" => Some(Line::Make(Call::Outcomes)),
        "report" => Some(Line::Report),
        _ => None,
    }
}

// Reads a line with an argument.
fn parse_with(word: &str, rest: &str) -> Result<Line, Unreadable>
    ensures { takes_argument word.now ≡ false → result ≡ Err NoSuchCall }
{
    match word {
        "set" => set_up(rest),
        "lay" => Ok(Line::Make(Call::Lay(rule(rest)?))),
        "fact" => fact(rest),
        "reading" => Ok(Line::Reading(number(rest)?)),
        "ruling" => Ok(Line::Ruling(number(rest)?)),
        _ => Err(Unreadable::NoSuchCall),
    }
}

fn set_up(rest: &str) -> Result<Line, Unreadable> {
    let matters = rest.strip_prefix("up ").ok_or(Unreadable::NoMatters)?;
    Ok(Line::SetUp(number(matters)?))
}

fn fact(rest: &str) -> Result<Line, Unreadable> {
    let (sign, matter) = literal(rest)?;
    Ok(Line::Make(Call::Fact(matter, sign.into())))
}

fn number(text: &str) -> Result<u8, Unreadable> {
    text.trim().parse().map_err(|_| Unreadable::NoMatter)
}

// "3" or "no 3".
fn literal(text: &str) -> Result<(Sign, u8), Unreadable> {
    let text = text.trim();
    match text.strip_prefix("no ") {
        Some(matter) => Ok((Sign::No, number(matter)?)),
        None => Ok((Sign::Yes, number(text)?)),
    }
}

// "0 if 1, no 2" or "no 3.", with a full stop or without.
fn rule(text: &str) -> Result<Record, Unreadable> {
    let text = text.strip_suffix('.').unwrap_or(text);
    let (head, body) = text.split_once(" if ").unwrap_or((text, ""));
    let (sign, head) = literal(head)?;
    let (yes, no) = literals(body)?;
    Ok(Record {
        head,
        sign: sign.into(),
        yes,
        no,
    })
}

// The literals of a body; an empty one has none.
fn literals(body: &str) -> Result<LiteralSet, Unreadable> {
    if body.is_empty() {
        return Ok((0, 0));
    }
    body.split(',').try_fold((0, 0), |(yes, no), part| {
        let (sign, matter) = literal(part)?;
        let bit = 1u16
            .checked_shl(matter.into())
            .ok_or(Unreadable::BeyondBody)?;
        match sign {
            Sign::Yes => Ok((yes | bit, no)),
            Sign::No => Ok((yes, no | bit)),
        }
    })
}
