// Reading a line: an episode's length, or a step that lays or lifts an advert.
ghost use Rattle.std.specs.Prelude.{IfErr, Some};
ghost use Rattle.splice.specs.Steps.{word, CallRead, Number, StepRead, text_of, WordsRead, Misread, Within};

use crate::fault::{Fault, Form};
use std::fmt;
use std::str::FromStr;

#[derive(Clone, Copy, Debug, PartialEq, Eq)]
pub enum Call {
    Lay,
    Lift,
}

// A call on the samples from `first` to `last`, both included.
#[derive(Clone, Copy, Debug, PartialEq, Eq)]
pub struct Step {
    pub call: Call,
    pub first: usize,
    pub last: usize,
}

#[derive(Clone, Copy, Debug, PartialEq, Eq)]
pub enum Line {
    Length(usize),
    Work(Step),
}

// What a line says, and nothing where it is blank or a comment; or that it cannot be read.
pub fn read_line(text: &str) -> Result<Option<Line>, Fault<'_>>
    ensures { IfErr result Misread }
{
    let text = text.trim();
    if text.is_empty() || text.starts_with('#') {
        return Ok(None);
    }
    let mut words = text.split_whitespace();
    let line = read_words(words.next(), words.next(), words.next(), words.next()).map_err(
        |form| Fault::Unreadable { text, form },
    )?;
    Ok(Some(line))
}

// What a line's words say, or how the line was to be written. A fourth word is one too many.
// Four words are no struct: this function alone takes them.
fn read_words(
    call: Option<&str>,
    first: Option<&str>,
    last: Option<&str>,
    more: Option<&str>,
) -> Result<Line, Form>
    ensures { WordsRead (text_of call.entry) (text_of first.entry) (text_of last.entry)
        (text_of more.entry) result }
{
    let call = call.ok_or(Form::Any)?;
    if call == "episode" {
        return match (first, last, more) {
            (Some(length), None, None) => read_number(length).map(Line::Length).ok_or(Form::Length),
            _ => Err(Form::Length),
        };
    }
    let call = call.parse()?;
    match (first, last, more) {
        (Some(first), Some(last), None) => {
            read_step(call, first, last)
                .map(Line::Work)
                .ok_or(Form::Step)
        }
        _ => Err(Form::Step),
    }
}

fn read_step(call: Call, first: &str, last: &str) -> Option<Step>
    ensures { StepRead call first.now last.now result }
{
    let first = read_number(first)?;
    let last = read_number(last)?;
    Some(Step { call, first, last })
}

// A decimal number of 64 bits. `replay` reads one so too; a crate for one line would be no plainer.
fn read_number(word: &str) -> Option<usize>
    ensures { Number word.now result }
{
    word.parse().ok()
}

impl Step {
    // Refuses a step whose first sample comes after its last, and one that ends past an episode of so many samples.
    pub fn check(self, samples: usize) -> Result<(), Fault<'static>>
        ensures { Within self samples result }
    {
        let Step { first, last, .. } = self;
        if first > last {
            return Err(Fault::Backward { first, last });
        }
        if last >= samples {
            return Err(Fault::PastEnd { last, samples });
        }
        Ok(())
    }
}

impl FromStr for Call {
    type Err = Form;

    ghost from_str_gives = { CallRead };

    fn from_str(text: &str) -> Result<Call, Form> {
        match text {
            "lay" => Ok(Call::Lay),
            "lift" => Ok(Call::Lift),
            _ => Err(Form::Any),
        }
    }
}

// A call is written by the word that it is read from.
impl fmt::Display for Call {
    ghost output = { λ call. Some (word call) };

    fn fmt<W: fmt::Write>(&self, f: &mut fmt::Formatter<W>) -> fmt::Result {
        match *self {
            Call::Lay => f.write_str("lay"),
            Call::Lift => f.write_str("lift"),
        }
    }
}

impl fmt::Display for Step {
    fn fmt<W: fmt::Write>(&self, f: &mut fmt::Formatter<W>) -> fmt::Result {
        let Step { call, first, last } = *self;
        write!(f, "{call} {first} {last}")
    }
}
