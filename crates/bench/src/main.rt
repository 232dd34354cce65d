// Runs named workloads on dense masks, and prints what each answered and left, and how long it took where that is asked for.
// The arguments: how many rounds of each workload (2 if none is given), and the word `time`.
#![tactic(auto)]

mod bed;
mod plan;
mod random;
mod work;

use anyhow::Result;
use bed::Bed;
use plan::{Plan, Runner};

fn main(rt: HostRuntime) -> Result<()> {
    run(&rt)
}

fn run(rt: &HostRuntime) -> Result<()> {
    let plan = Plan::read(rt)?;
    for percent in [50, 1] {
        println!(rt; "a million indices, {percent} % of them members")?;
        let bed = Bed::random(rt.alloc(), percent)?;
        let mut runner = Runner { rt, plan, bed };
        run_singles(&mut runner)?;
        run_whole(&mut runner)?;
        run_combines(&mut runner)?;
    }
    println!(rt; "an hour of samples, ten adverts of 30 seconds")?;
    let bed = Bed::adverts(rt.alloc())?;
    let mut runner = Runner { rt, plan, bed };
    run_whole(&mut runner)?;
    run_adverts(&mut runner)
}

// Calls on single indices, each made of every index of a list.
fn run_singles(runner: &mut Runner<'_>) -> Result<()> {
    runner.measure("insert, random order", work::clear, work::insert_random)?;
    runner.measure("insert, rising", work::clear, work::insert_rising)?;
    runner.measure(
        "remove, random order",
        work::insert_all,
        work::remove_random,
    )?;
    runner.measure("remove, rising", work::insert_all, work::remove_rising)?;
    runner.measure("contains, random order", work::start, work::contains_random)?;
    runner.measure("contains, rising", work::start, work::contains_rising)?;
    runner.measure(
        "contains_loose, random order",
        work::start,
        work::contains_loose,
    )
}

// Calls on a whole mask.
fn run_whole(runner: &mut Runner<'_>) -> Result<()> {
    runner.measure("count", work::start, work::count)?;
    runner.measure("list", work::start, work::list_members)?;
    runner.measure("superset of itself", work::start, work::superset)?;
    runner.measure("insert_all", work::start, work::insert_all)?;
    runner.measure("clear", work::start, work::clear)
}

// Combines of two unlike masks.
fn run_combines(runner: &mut Runner<'_>) -> Result<()> {
    runner.measure("union", work::start, work::union)?;
    runner.measure("intersect", work::start, work::intersect)?;
    runner.measure("subtract", work::start, work::subtract)?;
    runner.measure("clone_from", work::start, work::clone_from)
}

// Combines with the adverts, of a mask that has them and of one that has none or all.
fn run_adverts(runner: &mut Runner<'_>) -> Result<()> {
    runner.measure("union, adverts there", work::start, work::union)?;
    runner.measure("union, adverts on empty", work::clear, work::union)?;
    runner.measure("intersect, adverts there", work::start, work::intersect)?;
    runner.measure(
        "intersect, adverts with full",
        work::insert_all,
        work::intersect,
    )?;
    runner.measure("subtract, adverts there", work::start, work::subtract)?;
    runner.measure("subtract, adverts from empty", work::clear, work::subtract)?;
    runner.measure("clone_from, adverts there", work::start, work::clone_from)?;
    runner.measure(
        "clone_from, adverts on empty",
        work::clear,
        work::clone_from,
    )
}
