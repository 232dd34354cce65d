// The masks by their numbers.
ghost use Rattle.std.specs.Prelude.{◌≡◌, ℕ, Bool, None, Ok, Result};
ghost use Rattle.std.specs.Borrow.{sem};
ghost use Rattle.index.specs.declared.refusal.Refusal.{Refusal};
ghost use Rattle.mask.specs.Kinds.{Tells};
ghost use Rattle.replay.specs.declared.answers.Answer.TheVariants.{Flag};
ghost use Rattle.replay.specs.Calls.{moved};
ghost use Rattle.replay.specs.Masks.{picture_of, flagged, Compares};
ghost use Rattle.replay.specs.Stores.{mask_at, Found, OfMasks, OnMask, Makes, TurnsAt, Shown, Covers, SamePicture, Answers, lends_mask};

use crate::answers::Answer;
use crate::calls::{Call, Change, Combination, NewMask, Request};
use crate::fault::Fault;
use crate::kinds::AnyMask;
use std::alloc::Global;
use std::collections::BTreeMap;
use std::mem;

#[derive(Drop)]
pub struct Store {
    heap: Global,
    masks: BTreeMap<usize, AnyMask>,
}

impl Store {
    // No masks.
    pub fn new(heap: Global) -> Store
        ensures { (number : ℕ) → mask_at result number ≡ None }
    {
        Store {
            heap,
            masks: BTreeMap::new(heap),
        }
    }

    // What a call on the mask of that number answers.
    // Calls are read from text, and a function may hand out no closure, so they are matched on here and below.
    pub fn answer(&mut self, request: Request) -> Result<Answer, Fault>
        ensures { Answers self.old request.mask result self.new request.call }
    {
        let number = request.mask;
        match request.call {
            Call::Make(wanted) => self.make(number, wanted),
            Call::Change(change) => self.change(number, change),
            Call::Combine(combination, operand) => self.combine(number, combination, operand),
            Call::Ask(question) => self.mask(number)?.ask(self.heap, question),
            Call::Loose(index) => Ok(Answer::Flag(self.mask(number)?.contains_loose(index))),
            Call::Superset(other) => self.superset(number, other),
            Call::Equal(other) => self.equal(number, other),
            Call::Picture => self.picture(number),
        }
    }

    fn mask(&self, number: usize) -> Result<&AnyMask, Fault>
        ensures { Found self.now number result (λ r. r.now) }
    {
        self.masks.get(&number).ok_or(Fault::Missing)
    }

    fn mask_mut(&mut self, number: usize) -> Result<&mut AnyMask, Fault>
        ensures* writes_back { sem 𝓛 (lends_mask self.entry number result) }
        ensures value { Found self.old number result (λ r. r.now) }
    {
        // Through ok_or no borrow is followed, so the contract is not proved of it.
        match self.masks.get_mut(&number) {
            Some(mask) => Ok(mask),
            None => Err(Fault::Missing),
        }
    }

    // Makes a mask, in the place of one of the same number.
    fn make(&mut self, number: usize, wanted: NewMask) -> Result<Answer, Fault>
        ensures { Makes self.old number result self.new wanted }
    {
        let mask = AnyMask::new(self.heap, wanted)?;
        self.masks.insert(number, mask)?;
        Ok(Answer::Made)
    }

    fn change(&mut self, number: usize, change: Change) -> Result<Answer, Fault>
        ensures { TurnsAt self.old number result self.new (moved change) }
    {
        let (entered, left) = self.mask_mut(number)?.change(change)?;
        Ok(Answer::Report(entered, left))
    }

    // The operand is taken out for the call, or copied where it is the mask itself.
    fn combine(
        &mut self,
        number: usize,
        combination: Combination,
        operand: usize,
    ) -> Result<Answer, Fault> {
        if number == operand {
            let other = self.mask(number)?.copy(self.heap)?;
            return self.combine_with(number, combination, &other);
        }
        let other = self.masks.remove(&operand).ok_or(Fault::Missing)?;
        let answer = self.combine_with(number, combination, &other);
        self.masks.insert(operand, other)?;
        answer
    }

    fn combine_with(
        &mut self,
        number: usize,
        combination: Combination,
        other: &AnyMask,
    ) -> Result<Answer, Fault> {
        let (entered, left) = self.mask_mut(number)?.combine(combination, other)?;
        Ok(Answer::Report(entered, left))
    }

    fn superset(&self, number: usize, other: usize) -> Result<Answer, Fault>
        ensures { OfMasks self.now number other result (Covers result) }
    {
        let flag = self.mask(number)?.superset(self.mask(other)?)?;
        Ok(Answer::Flag(flag))
    }

    fn equal(&self, number: usize, other: usize) -> Result<Answer, Fault>
        ensures { OfMasks self.now number other result (SamePicture result) }
    {
        let flag = self.mask(number)?.same_picture(self.mask(other)?);
        Ok(Answer::Flag(flag))
    }

    // A mask shows its words when it ends, so a copy takes its place.
    fn picture(&mut self, number: usize) -> Result<Answer, Fault>
        ensures { OnMask self.old number result self.new (Shown self.old number result self.new) }
    {
        let heap = self.heap;
        let mask = self.mask_mut(number)?;
        let copy = mask.copy(heap)?;
        Ok(mem::replace(mask, copy).into_picture())
    }
}
