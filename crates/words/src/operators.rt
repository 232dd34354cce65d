// Operators on words. Each is known by its table alone: bit k of a result is the table's bit for bit k of both words.
ghost use Rattle.std.specs.Prelude.{◌≡◌, ℕ, ◌<◌, not};
ghost use Rattle.words.specs.Bits.{HasBits};
ghost use Rattle.words.specs.declared.table.Table.{Table as Four};
ghost use Rattle.words.specs.Tables.{Applied, or_table, and_table, second_table, complemented};

use crate::Word;
use crate::table::Table;

pub trait Operator: Copy {
    ghost table: { Self → Four };

    fn apply(&self, own: Word, operand: Word) -> Word
        ensures bits { Applied (table self.now) own operand result };
}

// The union: 0111.
#[derive(Clone, Copy, PartialEq, Eq, Debug)]
pub struct Or;

// The intersection: 0001.
#[derive(Clone, Copy, PartialEq, Eq, Debug)]
pub struct And;

// The operand itself: 0101.
#[derive(Clone, Copy, PartialEq, Eq, Debug)]
pub struct Second;

// The operator below, handed the operand's complement. Over And it subtracts, 0010; over Or it is union_not, 1011.
#[derive(Clone, Copy, PartialEq, Eq, Debug)]
pub struct ComplementOperand<O> {
    pub below: O,
}

impl Operator for Or {
    ghost table = { λ _. or_table };

    #[tactic(auto, using(crate::proofs::Looking::bit_of_or))]
    fn apply(&self, own: Word, operand: Word) -> Word {
        own | operand
    }
}

impl Operator for And {
    ghost table = { λ _. and_table };

    #[tactic(auto, using(crate::proofs::Looking::bit_of_and))]
    fn apply(&self, own: Word, operand: Word) -> Word {
        own & operand
    }
}

impl Operator for Second {
    ghost table = { λ _. second_table };

    fn apply(&self, _own: Word, operand: Word) -> Word {
        operand
    }
}

// Every bit set where `on`, none otherwise.
#[tactic(auto, using(crate::proofs::Bitwise::even_bits))]
fn spread(on: bool) -> Word
    ensures { HasBits result (λ _. on) }
{
    if on { Word::MAX } else { 0 }
}

// Any of the sixteen tables, held as a value.
impl Operator for Table {
    ghost table = { λ t. t };

    #[tactic(auto, using(crate::proofs::Looking::bit_of_table))]
    fn apply(&self, own: Word, operand: Word) -> Word {
        let without = !operand & spread(self.neither) | operand & spread(self.operand_only);
        let with = !operand & spread(self.own_only) | operand & spread(self.both);
        !own & without | own & with
    }
}

impl<O: Operator> Operator for ComplementOperand<O> {
    ghost table = { λ c. complemented (O.Operator.table c.below) };

    #[tactic(auto, using(crate::proofs::Looking::look_of_complement))]
    fn apply(&self, own: Word, operand: Word) -> Word {
        self.below.apply(own, !operand)
    }
}

// Two layers over an operator are the operator itself: the same table, so the same result.
pub fn apply_complemented_twice<O: Operator>(op: O, own: Word, operand: Word) -> Word
    ensures table { complemented (complemented (O.table op)) ≡ O.table op }
    ensures bits { Applied (O.table op) own operand result }
{
    let once = ComplementOperand { below: op };
    ComplementOperand { below: once }.apply(own, operand)
}
