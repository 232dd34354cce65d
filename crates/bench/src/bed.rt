// What workloads run on.
use crate::random::Random;
use anyhow::Result;
use dense::DenseBitSet;
use mask::Mask;
use std::alloc::{AllocError, Global};
use words::num_words;

// An hour of samples, and adverts of 30 seconds spread evenly over it.
const HOUR: usize = 158_760_000;

const ADVERT: usize = 1_323_000;

const ADVERT_STEP: usize = 15_876_000;

// A random mask's indices, and how many of them calls on single indices name.
const MILLION: usize = 1_000_000;

const NAMED: usize = 100_000;

const RISING_STEP: usize = 10;

// So many zeros fill more than the caches of a processor.
const COLD: usize = 12_000_000;

// The mask that is changed, a mask that it can be set to before a round, one to combine it with, indices to call it with
// in two orders, and places for a listing of it. The zeros are read before each round, so that a round on masks which
// no cache holds begins with nothing of them in one, however they were made ready.
#[derive(Drop)]
pub struct Bed {
    pub own: DenseBitSet,
    pub start: DenseBitSet,
    pub other: DenseBitSet,
    pub random: Vec<usize>,
    pub rising: Vec<usize>,
    pub places: Vec<usize>,
    pub cold: Vec<usize>,
}

impl Bed {
    // Masks of a million indices, of which so many in a hundred are members.
    pub(crate) fn random(heap: Global, percent: usize) -> Result<Bed> {
        let mut random = Random::new(1);
        let start = random_mask(heap, &mut random, percent)?;
        let other = random_mask(heap, &mut random, percent)?;
        Ok(Bed {
            own: empty_mask(heap, MILLION)?,
            random: random_indices(heap, &mut random)?,
            rising: (0..NAMED).map(|k| k * RISING_STEP).collect(heap)?,
            places: vec![in heap; 0; start.count()]?,
            cold: Vec::new(heap),
            start,
            other,
        })
    }

    // Masks of an hour with the ten adverts, with no indices to call them with.
    pub(crate) fn adverts(heap: Global) -> Result<Bed> {
        let start = advert_mask(heap)?;
        Ok(Bed {
            own: empty_mask(heap, HOUR)?,
            random: Vec::new(heap),
            rising: Vec::new(heap),
            places: vec![in heap; 0; start.count()]?,
            cold: vec![in heap; 0; COLD]?,
            start,
            other: advert_mask(heap)?,
        })
    }
}

fn empty_mask(heap: Global, domain: usize) -> Result<DenseBitSet> {
    let memory = vec![in heap; 0; num_words(domain)]?;
    let mask = DenseBitSet::new_empty(domain, memory).map_err(|refused| refused.refusal)?;
    Ok(mask)
}

fn random_mask(heap: Global, random: &mut Random, percent: usize) -> Result<DenseBitSet> {
    let mut mask = empty_mask(heap, MILLION)?;
    for index in 0..MILLION {
        if random.below(100) < percent {
            mask.insert(index)?;
        }
    }
    Ok(mask)
}

fn random_indices(heap: Global, random: &mut Random) -> Result<Vec<usize>> {
    let mut indices = Vec::new(heap);
    for _ in 0..NAMED {
        indices.push(random.below(MILLION))?;
    }
    Ok(indices)
}

fn advert_mask(heap: Global) -> Result<DenseBitSet> {
    let mut mask = empty_mask(heap, HOUR)?;
    for first in (0..HOUR).step_by(ADVERT_STEP) {
        for index in first..first + ADVERT {
            mask.insert(index)?;
        }
    }
    Ok(mask)
}
