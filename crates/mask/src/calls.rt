// The calls of a succession, and the row of operands that they name.
ghost use Rattle.std.specs.Prelude.{◌≡◌, length, slice_index_or};
ghost use Rattle.mask.specs.Kinds.{Answered, Kept};
ghost use Rattle.mask.specs.Trials.{Named, move, past_call, past_row};

use crate::kind::Mask;
use index::{Idx, Refusal};
use words::Operator;

// One changing call, as data: the law of successions speaks of every list of them, so calls are matched on and are no closures.
// An operand is named by its number in a row of masks, and not by a reference, so that two lists in a trial can name the
// same one.
#[derive(Clone, Copy, PartialEq, Eq, Debug)]
pub enum Call<T, O> {
    Insert(T),
    Remove(T),
    Clear,
    InsertAll,
    Combine(O, usize),
}

// One call of a list, whose operand is one of the row.
pub(crate) fn apply_call<M: Mask, T: Idx, O: Operator>(
    mask: &mut M,
    row: &[M],
    call: Call<T, O>,
) -> Result<(usize, usize), Refusal>
    requires { Named (length row.now) call }
    ensures machine { (d : M) →
        Answered M.kind mask.old
        (move T.place O.table M.kind (λ j. slice_index_or row.now j d) call)
        result mask.new }
    ensures kept { Kept M.kind mask.old mask.new }
{
    match call {
        Call::Insert(i) => mask.insert(i),
        Call::Remove(i) => mask.remove(i),
        Call::Clear => Ok(mask.clear()),
        Call::InsertAll => Ok(mask.insert_all()),
        Call::Combine(o, j) => mask.combine(&o, &row[j]),
    }
}

// The operand of a call, if it is past a row of so many masks.
fn past_call<T: Idx, O: Operator>(call: Call<T, O>, rows: usize) -> Option<usize>
    ensures { result ≡ past_call rows call }
{
    match call {
        Call::Combine(_, j) if j >= rows => Some(j),
        _ => None,
    }
}

// The first operand of a list that is past the row.
pub(crate) fn past_row<T: Idx, O: Operator>(calls: &[Call<T, O>], rows: usize) -> Option<usize>
    ensures { result ≡ past_row rows calls.now }
{
    calls.iter().find_map(|c| past_call(*c, rows))
}
