// One round of each workload, with a number for what it answered. A sum of such numbers may wrap.
ghost use Rattle.std.specs.Prelude.{◌≡◌, ℕ, Ok, Result};
ghost use Rattle.dense.specs.Sets.{dense_kind};
ghost use Rattle.index.specs.declared.refusal.Refusal.{Refusal as Refused};
ghost use Rattle.mask.specs.Kinds.{Changed, combining};
ghost use Rattle.mask.specs.Machine.{clear, insert_all, count};
ghost use Rattle.words.specs.Tables.{or_table, and_table, second_table, subtract_table};

use crate::bed::Bed;
use dense::DenseBitSet;
use index::Refusal;
use mask::{Collector, Mask, list};

// How far the indices are moved for `contains_loose`, so that some lie past the domain.
const LOOSE_STEP: usize = 100_000;

// A refusal, which no workload meets.
const REFUSED: usize = usize::MAX;

// A number for how many indices entered and how many left.
fn weigh(report: (usize, usize)) -> usize {
    let (entered, left) = report;
    entered.wrapping_add(left.wrapping_mul(1_000_003))
}

fn weigh_combine(report: Result<(usize, usize), Refusal>) -> usize {
    report.map_or(REFUSED, weigh)
}

pub(crate) fn start(bed: &mut Bed) -> usize
    ensures { (report : Result (ℕ × ℕ) Refused)
        × Changed dense_kind bed.old.own (combining dense_kind second_table bed.old.start)
        report bed.new.own }
{
    weigh_combine(bed.own.clone_from(&bed.start))
}

pub(crate) fn clear(bed: &mut Bed) -> usize
    ensures { (report : ℕ × ℕ) × Changed dense_kind bed.old.own clear (Ok report) bed.new.own }
{
    weigh(bed.own.clear())
}

pub(crate) fn insert_all(bed: &mut Bed) -> usize
    ensures { (report : ℕ × ℕ) × Changed dense_kind bed.old.own insert_all (Ok report) bed.new.own }
{
    weigh(bed.own.insert_all())
}

pub(crate) fn insert_random(bed: &mut Bed) -> usize {
    insert_each(&mut bed.own, &bed.random).unwrap_or(REFUSED)
}

pub(crate) fn insert_rising(bed: &mut Bed) -> usize {
    insert_each(&mut bed.own, &bed.rising).unwrap_or(REFUSED)
}

// Its own loop, and so for removing: what is timed is the call alone, with none through a closure between.
fn insert_each(mask: &mut DenseBitSet, indices: &[usize]) -> Result<usize, Refusal> {
    let mut total: usize = 0;
    for index in indices {
        let (entered, _) = mask.insert(*index)?;
        total = total.wrapping_add(entered);
    }
    Ok(total)
}

pub(crate) fn remove_random(bed: &mut Bed) -> usize {
    remove_each(&mut bed.own, &bed.random).unwrap_or(REFUSED)
}

pub(crate) fn remove_rising(bed: &mut Bed) -> usize {
    remove_each(&mut bed.own, &bed.rising).unwrap_or(REFUSED)
}

fn remove_each(mask: &mut DenseBitSet, indices: &[usize]) -> Result<usize, Refusal> {
    let mut total: usize = 0;
    for index in indices {
        let (_, left) = mask.remove(*index)?;
        total = total.wrapping_add(left);
    }
    Ok(total)
}

pub(crate) fn contains_random(bed: &mut Bed) -> usize {
    contains_each(&bed.own, &bed.random).unwrap_or(REFUSED)
}

pub(crate) fn contains_rising(bed: &mut Bed) -> usize {
    contains_each(&bed.own, &bed.rising).unwrap_or(REFUSED)
}

fn contains_each(mask: &DenseBitSet, indices: &[usize]) -> Result<usize, Refusal> {
    let mut total: usize = 0;
    for index in indices {
        total = total.wrapping_add(usize::from(mask.contains(*index)?));
    }
    Ok(total)
}

pub(crate) fn contains_loose(bed: &mut Bed) -> usize {
    let mut total: usize = 0;
    for index in &bed.random {
        total = total.wrapping_add(usize::from(
            bed.own.contains_loose(index.wrapping_add(LOOSE_STEP)),
        ));
    }
    total
}

pub(crate) fn count(bed: &mut Bed) -> usize
    ensures { result ≡ count (dense_kind.members bed.old.own) }
{
    bed.own.count()
}

pub(crate) fn list_members(bed: &mut Bed) -> usize {
    list(&bed.own, &mut Collector::new(&mut bed.places)).unwrap_or(REFUSED)
}

pub(crate) fn superset(bed: &mut Bed) -> usize {
    bed.own.superset(&bed.start).map_or(REFUSED, usize::from)
}

pub(crate) fn union(bed: &mut Bed) -> usize
    ensures { (report : Result (ℕ × ℕ) Refused)
        × Changed dense_kind bed.old.own (combining dense_kind or_table bed.old.other)
        report bed.new.own }
{
    weigh_combine(bed.own.union(&bed.other))
}

pub(crate) fn intersect(bed: &mut Bed) -> usize
    ensures { (report : Result (ℕ × ℕ) Refused)
        × Changed dense_kind bed.old.own (combining dense_kind and_table bed.old.other)
        report bed.new.own }
{
    weigh_combine(bed.own.intersect(&bed.other))
}

pub(crate) fn subtract(bed: &mut Bed) -> usize
    ensures { (report : Result (ℕ × ℕ) Refused)
        × Changed dense_kind bed.old.own (combining dense_kind subtract_table bed.old.other)
        report bed.new.own }
{
    weigh_combine(bed.own.subtract(&bed.other))
}

pub(crate) fn clone_from(bed: &mut Bed) -> usize
    ensures { (report : Result (ℕ × ℕ) Refused)
        × Changed dense_kind bed.old.own (combining dense_kind second_table bed.old.other)
        report bed.new.own }
{
    weigh_combine(bed.own.clone_from(&bed.other))
}
