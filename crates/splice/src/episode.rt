// An episode and the mask of its adverts.
ghost use Rattle.std.specs.Prelude.{◌≡◌, ℕ, ◌+◌, ◌*◌, ◌^◌, ◌<◌, ◌≤◌, ◌↔◌, false, ◌⊎◌, [], length, replicate, is_ok, IfOk, IfErr, if◌then◌else◌, vec_len, IsTrue, OnErr};
ghost use Rattle.words.specs.Bits.{holds, tally, words_for};
ghost use Rattle.splice.specs.declared.fault.Fault.TheVariants.{Memory};
ghost use Rattle.splice.specs.Masks.{HasAdvert, Combined, noted};
ghost use Rattle.splice.specs.Steps.{IsInside, Refused};

use crate::fault::Fault;
use crate::steps::{Call, Step};
use crate::strip::Strip;
use std::alloc::{AllocError, Global};
use std::fmt;
use words::{And, ComplementOperand, Or, Word, count_ones, insert, num_words, update_words};

// A row of words and no mask: strips are worked out from its words, and a mask shows its words only when it ends.
// No Model, which would hide the facts that the fields keep from those who draw an episode.
#[derive(Drop)]
pub struct Episode {
    samples: usize,
    ghost small: { samples < 2 ^ 64 },
    // Bit i mod 64 of word i div 64 is set where sample i is advert, and no bit past the last sample is.
    mask: Vec<Word>,
    ghost rows: { vec_len mask ≡ words_for samples },
    ghost ends: { (i : ℕ) → samples ≤ i → holds mask.items i ≡ false },
    // The mask's words as the episode began.
    began: Vec<Word>,
    // The steps that laid an advert, in order.
    laid: Vec<Step>,
}

// What a step did to the mask.
#[derive(Clone, Copy, Debug, PartialEq, Eq)]
pub struct Report {
    pub entered: usize,
    pub left: usize,
    pub advert: usize,
    pub strip: Strip,
}

impl Episode {
    ghost use Rattle.splice.specs.Episodes.{IsClear, IsUnchanged, ChangesBy};

    // An episode with no advert.
    pub fn new(heap: Global, samples: usize) -> Result<Episode, Fault<'static>>
        ensures ok { IfOk result (IsClear samples) }
        ensures memory { IfErr result (λ fault. fault ≡ Memory samples) }
    {
        let memory = |_: AllocError| Fault::Memory { samples };
        let mask = clear_row(heap, samples).map_err(memory)?;
        let began = clear_row(heap, samples).map_err(memory)?;
        Ok(Episode {
            samples,
            mask,
            began,
            laid: Vec::new(heap),
        })
    }

    // Lays or lifts an advert. A step that is refused changes nothing.
    pub fn work(&mut self, heap: Global, step: Step) -> Result<Report, Fault<'static>>
        ensures ok { IfOk result (ChangesBy step self.old self.new) }
        ensures refused { IfErr result (λ fault. (fault ≡ Memory self.old.samples)
            ⊎ Refused step self.old.samples fault) }
        ensures err { OnErr result (IsUnchanged self.old self.new) }
    {
        let samples = self.samples;
        step.check(samples)?;
        let memory = |_: AllocError| Fault::Memory { samples };
        let advert = advert_row(heap, samples, step).map_err(memory)?;
        note(&mut self.laid, step).map_err(memory)?;
        let (entered, left) = combine(&mut self.mask, &advert, step.call);
        Ok(Report {
            entered,
            left,
            advert: self.advert(),
            strip: Strip::of(self),
        })
    }

    pub fn samples(&self) -> usize
        ensures { result ≡ self.now.samples }
    {
        self.samples
    }

    pub fn words(&self) -> &[Word]
        ensures { result.now ≡ self.now.mask.items }
    {
        &self.mask
    }

    // How many samples are advert.
    pub fn advert(&self) -> usize
        ensures { result ≡ tally (holds self.now.mask.items) 0 self.now.samples }
    {
        count_ones(&self.mask)
    }

    // Whether the mask has the words that it began with.
    pub fn as_began(&self) -> bool
        ensures { IsTrue result ↔ (self.now.mask.items ≡ self.now.began.items) }
    {
        self.mask == self.began
    }

    // The steps that laid an advert, in order; the episode forgets them.
    pub fn take_laid(&mut self, heap: Global) -> Vec<Step>
        ensures value { result.items ≡ self.old.laid.items }
        ensures samples { self.new.samples ≡ self.old.samples }
        ensures mask { self.new.mask.items ≡ self.old.mask.items }
        ensures began { self.new.began.items ≡ self.old.began.items }
        ensures forgotten { self.new.laid.items ≡ [] }
    {
        std::mem::replace(&mut self.laid, Vec::new(heap))
    }
}

// The words of a mask of so many samples, with none of them in it.
fn clear_row(heap: Global, samples: usize) -> Result<Vec<Word>, AllocError>
    ensures len { IfOk result (λ row. vec_len row ≡ words_for samples) }
    ensures items { IfOk result (λ row. row.items ≡ replicate (words_for samples) 0) }
{
    vec![in heap; 0; num_words(samples)]
}

// The words of a mask of so many samples, with those of a step in it.
fn advert_row(heap: Global, samples: usize, step: Step) -> Result<Vec<Word>, AllocError>
    requires { IsInside step samples }
    ensures len { IfOk result (λ row. vec_len row ≡ words_for samples) }
    ensures bits { IfOk result (λ row. HasAdvert step row.items) }
{
    let mut row = clear_row(heap, samples)?;
    put_samples(&mut row, step);
    Ok(row)
}

// Keeps a step that lays an advert, after those before it. A step that lifts one is not kept.
// The call is read from text, and a closure would be chosen by the same match.
fn note(laid: &mut Vec<Step>, step: Step) -> Result<(), AllocError>
    ensures { laid.new.items
        ≡ (if is_ok result then noted step.call laid.old.items step else laid.old.items) }
{
    match step.call {
        Call::Lay => laid.push(step)?,
        Call::Lift => {}
    }
    Ok(())
}

// Puts a step's samples into a row that has none. The row reaches them, so none is refused.
fn put_samples(row: &mut [Word], step: Step)
    requires none { (i : ℕ) → holds row.old i ≡ false }
    requires reaches { IsInside step (64 * length row.old) }
    ensures len { length row.new ≡ length row.old }
    ensures bits { HasAdvert step row.new }
{
    for sample in step.first..=step.last {
        insert(row, sample).unwrap();
    }
}

// Lays an advert into a mask or lifts it out, and answers how many samples entered and left.
// The call is read from text, so it is matched here: an operator or a closure would be chosen by the same match.
fn combine(mask: &mut [Word], advert: &[Word], call: Call) -> (usize, usize)
    requires { length mask.old ≡ length advert.now }
    ensures { Combined call mask.old advert.now mask.new result.0 result.1 }
{
    match call {
        Call::Lay => update_words(mask, advert, &Or),
        Call::Lift => update_words(mask, advert, &ComplementOperand { below: And }),
    }
}

impl fmt::Display for Report {
    fn fmt<W: fmt::Write>(&self, f: &mut fmt::Formatter<W>) -> fmt::Result {
        let Report {
            entered,
            left,
            advert,
            strip,
        } = self;
        write!(
            f,
            "{entered} entered, {left} left, {advert} advert now\n  {strip}"
        )
    }
}
