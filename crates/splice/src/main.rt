// Splices adverts into an episode and out again: reads the steps from standard input and prints each as it happens.
#![tactic(auto)]

mod episode;
mod fault;
mod lines;
mod steps;
mod strip;

use episode::Episode;
use fault::Fault;
use lines::{Outcome, work_line};
use std::io;
use std::io::{BufRead, BufReader, ErrorKind};
use steps::{Call, Step};

fn main(rt: HostRuntime) -> io::Result<()> {
    run(&rt)
}

fn run(rt: &HostRuntime) -> io::Result<()> {
    let mut airing = None;
    for (index, line) in BufReader::new(rt.alloc(), rt.stdin())?
        .lines(rt.alloc())
        .enumerate()
    {
        tell_line(rt, index + 1, line, &mut airing)?;
    }
    match airing {
        Some(episode) => lift_all(rt, episode),
        None => println!(rt; "there is no episode: write 'episode LENGTH' first"),
    }
}

fn tell_line(
    rt: &HostRuntime,
    number: usize,
    line: io::Result<String>,
    airing: &mut Option<Episode>,
) -> io::Result<()> {
    let text = match line {
        Ok(text) => text,
        Err(e) if e.kind() == ErrorKind::InvalidData => {
            return println!(rt; "line {number}: {}", Fault::NotText);
        }
        Err(e) => return Err(e),
    };
    match work_line(rt.alloc(), text.as_str(), airing) {
        Ok(None) => Ok(()),
        Ok(Some(Outcome::Began(samples))) => println!(rt; "episode of {samples} samples"),
        Ok(Some(Outcome::Worked(step, report))) => println!(rt; "line {number}: {step}: {report}"),
        Err(fault) => println!(rt; "line {number}: {fault}"),
    }
}

// Lifts every advert that was laid, in the order laid, and says whether that leaves the mask as it began.
fn lift_all(rt: &HostRuntime, mut episode: Episode) -> io::Result<()> {
    let heap = rt.alloc();
    for laid in episode.take_laid(heap) {
        let step = Step {
            call: Call::Lift,
            ..laid
        };
        match episode.work(heap, step) {
            Ok(report) => println!(rt; "{step}: {report}")?,
            Err(fault) => println!(rt; "{step}: {fault}")?,
        }
    }
    let how = if episode.as_began() { "as" } else { "not as" };
    println!(rt;
        "the mask is {how} it began: {} of {} samples are advert",
        episode.advert(),
        episode.samples()
    )
}
