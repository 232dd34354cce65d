// Calls that masks of every kind have.
ghost use Rattle.std.specs.Prelude.{◌≡◌, false, replicate, IfOk, IfErr, OnErr};
ghost use Rattle.index.specs.declared.refusal.Refusal.TheVariants.{Memory};
ghost use Rattle.mask.specs.Kinds.{Changed, combining};
ghost use Rattle.replay.specs.Calls.{moved, table_of};
ghost use Rattle.replay.specs.Masks.{Asked};

use crate::answers::Answer;
use crate::calls::{Change, Combination, Question};
use crate::fault::Fault;
use index::{Idx, Refusal};
use mask::{Collector, Mask, list};
use std::alloc::Global;

// A mask with every index of its domain or none. Domain and members are told apart, as a kind has them apart.
pub fn make_mask<M: Mask>(full: bool, domain_size: usize, memory: M::Memory) -> Result<M, Refusal>
    ensures domain { IfOk result (λ m. M.kind.domain m ≡ domain_size) }
    ensures members { IfOk result (λ m. M.kind.members m ≡ replicate domain_size full) }
    ensures short { OnErr result (M.backing.suffices domain_size memory ≡ false) }
    ensures refused { IfErr result (λ e. e ≡ Memory) }
{
    M::new_uniform(full, domain_size, memory).map_err(|refused| refused.refusal)
}

// Another mask of the same domain and members.
pub fn copy_mask<M: Mask>(mask: &M, memory: M::Memory) -> Result<M, Refusal>
    ensures domain { IfOk result (λ m. M.kind.domain m ≡ M.kind.domain mask.now) }
    ensures members { IfOk result (λ m. M.kind.members m ≡ M.kind.members mask.now) }
{
    let mut copy: M = make_mask(false, mask.domain_size(), memory)?;
    // The trait does not ask that a kind is Drop, and a closure for the refusal would take the copy from the other arm.
    match copy.clone_from(mask) {
        Ok(_) => Ok(copy),
        Err(refusal) => {
            drop(copy.into_memory());
            Err(refusal)
        }
    }
}

// Calls are read from text, and a function may hand out no closure, so they are matched on here and below.
pub fn change_mask<M: Mask>(mask: &mut M, change: Change) -> Result<(usize, usize), Refusal>
    ensures { Changed M.kind mask.old (moved change) result mask.new }
{
    match change {
        Change::Insert(index) => mask.insert(index),
        Change::Remove(index) => mask.remove(index),
        Change::Clear => Ok(mask.clear()),
        Change::InsertAll => Ok(mask.insert_all()),
    }
}

pub fn combine_masks<M: Mask>(
    mask: &mut M,
    combination: Combination,
    other: &M,
) -> Result<(usize, usize), Refusal>
    ensures { Changed M.kind mask.old (combining M.kind (table_of combination) other.now)
        result mask.new }
{
    match combination {
        Combination::Union => mask.union(other),
        Combination::Intersect => mask.intersect(other),
        Combination::Subtract => mask.subtract(other),
        Combination::UnionNot => mask.union_not(other),
        Combination::CloneFrom => mask.clone_from(other),
        Combination::Tabled(table) => mask.combine(&table, other),
    }
}

pub fn ask_mask<M: Mask>(heap: Global, mask: &M, question: Question) -> Result<Answer, Fault>
    ensures { Asked (M.kind.domain mask.now) (M.kind.members mask.now) question result }
{
    match question {
        Question::Contains(index) => Ok(Answer::Flag(mask.contains(index)?)),
        Question::Empty => Ok(Answer::Flag(mask.is_empty())),
        Question::Count => Ok(Answer::Count(mask.count())),
        Question::Next(from) => Ok(Answer::Found(mask.next_member(from))),
        Question::List => Ok(Answer::Numbers(members_in(heap, mask)?)),
    }
}

// The members, rising.
fn members_in<M: Mask>(heap: Global, mask: &M) -> Result<Vec<usize>, Fault> {
    let mut places = vec![in heap; 0; mask.count()]?;
    list(mask, &mut Collector::new(&mut places))?;
    Ok(places)
}
