// Answers a list of calls on masks: reads a call from each line of standard input, and prints the line with its answer.
#![tactic(auto)]

mod answers;
mod calls;
mod fault;
mod kinds;
mod store;
mod work;

use answers::Answer;
use calls::read_line;
use fault::Fault;
use std::io;
use std::io::{BufRead, BufReader, BufWriter, Write};
use store::Store;

fn main(rt: HostRuntime) -> io::Result<()> {
    run(&rt)
}

fn run(rt: &HostRuntime) -> io::Result<()> {
    let heap = rt.alloc();
    let mut store = Store::new(heap);
    let mut out = BufWriter::new(heap, rt.stdout())?;
    for line in BufReader::new(heap, rt.stdin())?.lines(heap) {
        tell(&mut out, &mut store, line?.as_str())?;
    }
    out.flush()
}

// Makes the line's call, and prints what it answers or why it answers nothing.
fn tell<W: Write>(out: &mut W, store: &mut Store, text: &str) -> io::Result<()> {
    match answer_line(store, text) {
        Ok(None) => Ok(()),
        Ok(Some(answer)) => writeln!(out, "{text} -> {answer}"),
        Err(fault) => writeln!(out, "{text} -> {fault}"),
    }
}

// What the line's call answers, if it makes one.
fn answer_line(store: &mut Store, text: &str) -> Result<Option<Answer>, Fault> {
    let Some(request) = read_line(text)? else {
        return Ok(None);
    };
    let answer = store.answer(request)?;
    Ok(Some(answer))
}
