// What one flag says of many indices.
ghost use Rattle.std.specs.Prelude.{◌≡◌, replicate};
ghost use Rattle.mask.specs.Machine.{gained};
ghost use Rattle.words.specs.Tables.{look};

use words::{Operator, Word};

// How many of `n` indices enter where all were in or all out before, and all are in or all out after.
#[tactic(auto, using(crate::proofs::Uniform::uniform_sets))]
pub(crate) fn entering(n: usize, before: bool, after: bool) -> usize
    ensures { result ≡ gained (replicate n before) (replicate n after) }
{
    if !before && after { n } else { 0 }
}

// The operator's table at two flags. An operator takes words, so bit 0 of each stands for its flag.
#[tactic(auto, using(crate::proofs::Uniform::flag_bits))]
pub(crate) fn looked_up<O: Operator>(op: &O, own: bool, operand: bool) -> bool
    ensures { result ≡ look (O.table op.now) own operand }
{
    op.apply(Word::from(own), Word::from(operand)) % 2 == 1
}
