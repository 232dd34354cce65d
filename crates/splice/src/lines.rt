// What a line does to the episode.
ghost use Rattle.splice.specs.Lines.{Told};

use crate::episode::{Episode, Report};
use crate::fault::Fault;
use crate::steps::{Line, Step, read_line};
use std::alloc::Global;

#[derive(Clone, Copy, Debug, PartialEq, Eq)]
pub enum Outcome {
    Began(usize),
    Worked(Step, Report),
}

// Begins the episode or works a step on it, as the line says, and does nothing where the line says nothing.
// A line that is refused changes nothing. What a line says is data read from text: a closure would be chosen by the same match.
pub fn work_line<'a>(
    heap: Global,
    text: &'a str,
    airing: &mut Option<Episode>,
) -> Result<Option<Outcome>, Fault<'a>>
    ensures { Told airing.old airing.new result }
{
    match read_line(text)? {
        None => Ok(None),
        Some(Line::Length(samples)) => {
            if airing.is_some() {
                return Err(Fault::LengthKnown);
            }
            *airing = Some(Episode::new(heap, samples)?);
            Ok(Some(Outcome::Began(samples)))
        }
        Some(Line::Work(step)) => {
            let episode = airing.as_mut().ok_or(Fault::LengthUnknown)?;
            Ok(Some(Outcome::Worked(step, episode.work(heap, step)?)))
        }
    }
}
