// How workloads are run and what is told of them.
use crate::bed::Bed;
use anyhow::Result;
use mask::Mask;
use std::env;
use std::rt::Env;
use std::time::Instant;

// How many rounds of each workload, and whether they are timed.
#[derive(Clone, Copy, PartialEq, Eq, Debug)]
pub struct Plan {
    pub rounds: usize,
    pub timed: bool,
}

impl Plan {
    // The plan that the program's arguments ask for.
    pub(crate) fn read(rt: &(impl Env + Alloc)) -> Result<Plan> {
        let mut args = env::args(rt)?.skip(1);
        let rounds = match args.next() {
            Some(word) => word.as_str().parse()?,
            None => 2,
        };
        let timed = match args.next() {
            Some(word) => word.as_str() == "time",
            None => false,
        };
        Ok(Plan { rounds, timed })
    }
}

// What runs workloads: the system, the plan, and what the workloads run on.
#[derive(Drop)]
pub struct Runner<'a> {
    pub rt: &'a HostRuntime,
    pub plan: Plan,
    pub bed: Bed,
}

impl<'a> Runner<'a> {
    // Runs a workload's rounds, each on a bed that is made ready for it, and prints its name, the sum of its answers, how
    // many members it leaves, the sum of the indices in the places, and the time of the quickest round.
    pub(crate) fn measure<P: Fn(&mut Bed) -> usize, W: Fn(&mut Bed) -> usize>(
        &mut self,
        name: &str,
        prepare: P,
        work: W,
    ) -> Result<()>
        requires ready { P.IsAlwaysCallable prepare }
        requires works { W.IsAlwaysCallable work }
    {
        let rt = self.rt;
        let mut answers: usize = 0;
        let mut quickest = u128::MAX;
        for _ in 0..self.plan.rounds {
            prepare(&mut self.bed);
            answers = answers.wrapping_add(sum(&self.bed.cold));
            let start = Instant::now(rt)?;
            let answer = work(&mut self.bed);
            quickest = quickest.min(start.elapsed(rt)?.as_nanos());
            answers = answers.wrapping_add(answer);
        }
        let members = self.bed.own.count();
        let listed = sum(&self.bed.places);
        print!(rt; "{name}: answers {answers}, members {members}, listed {listed}")?;
        if self.plan.timed {
            print!(rt; ", ns {quickest}")?;
        }
        println!(rt; "")?;
        Ok(())
    }
}

fn sum(numbers: &[usize]) -> usize {
    numbers
        .iter()
        .fold(0, |total: usize, n| total.wrapping_add(*n))
}
