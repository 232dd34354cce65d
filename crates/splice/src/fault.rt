// Why a line is not worked, in words for the producer who wrote it.
use std::fmt;
use thiserror::Error;

// How a line that cannot be read was to be written.
#[derive(Clone, Copy, Debug, PartialEq, Eq, Error)]
pub enum Form {
    #[error("write 'episode LENGTH' with a number")]
    Length,
    #[error("write 'lay FIRST LAST' or 'lift FIRST LAST' with numbers")]
    Step,
    #[error("write 'episode LENGTH', 'lay FIRST LAST' or 'lift FIRST LAST' with numbers")]
    Any,
}

#[derive(Clone, Copy, Debug, PartialEq, Eq, Error)]
pub enum Fault<'a> {
    #[error("cannot read the line: it is not text")]
    NotText,
    #[error("cannot read '{text}': {form}")]
    Unreadable { text: &'a str, form: Form },
    #[error("the episode's length is not given yet; nothing changed")]
    LengthUnknown,
    #[error("the episode's length is already given; nothing changed")]
    LengthKnown,
    #[error("the first sample, {first}, comes after the last, {last}; nothing changed")]
    Backward { first: usize, last: usize },
    #[error("the advert ends at sample {last}, but {end}; nothing changed", end = End(*.samples))]
    PastEnd { last: usize, samples: usize },
    #[error("there is no memory for {samples} samples; nothing changed")]
    Memory { samples: usize },
}

// Where an episode of so many samples ends.
#[derive(Clone, Copy)]
struct End(usize);

impl fmt::Display for End {
    fn fmt<W: fmt::Write>(&self, f: &mut fmt::Formatter<W>) -> fmt::Result {
        match self.0.checked_sub(1) {
            Some(last) => write!(f, "the last sample is {last}"),
            None => f.write_str("the episode has no samples"),
        }
    }
}
