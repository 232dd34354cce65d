// A succession of calls on one mask from new, and what it leaves.
ghost use Rattle.std.specs.Prelude.{◌≡◌, ℕ, ◌+◌, ◌<◌, ◌≤◌, true, List, map, length, None, IfOk, IfErr, OnOk, OnErr, slice_index_or};
ghost use Rattle.mask.specs.declared.calls.Call.{Call as Called};
ghost use Rattle.mask.specs.declared.successions.NotRun.TheVariants.{Refused as RefusedAt};
ghost use Rattle.mask.specs.Collectors.{free, held, Unmoved, Gathered, Listed};
ghost use Rattle.mask.specs.Kinds.{Kept};
ghost use Rattle.mask.specs.Machine.{Report, run};
ghost use Rattle.mask.specs.Successions.{Succession, Ran, IsNotRun};
ghost use Rattle.mask.specs.Trials.{Named, move, past_row};

use crate::calls::{Call, apply_call, past_row};
use crate::collector::Collector;
use crate::kind::{Mask, Refused};
use crate::lister::list;
use index::{Idx, Refusal};
use words::Operator;

// The calls of a list, one after another, each with its report.
fn run_calls<M: Mask, T: Idx, O: Operator>(
    mask: &mut M,
    row: &[M],
    calls: &[Call<T, O>],
    reports: &mut Collector<'_, Result<(usize, usize), Refusal>>,
)
    requires named { (k : ℕ) (c : Called T O) → k < length calls.now
        → Named (length row.now) (slice_index_or calls.now k c) }
    requires room { reports.old.filled + length calls.now ≤ length (held reports.old) }
    ensures machine { (d : M) →
        Ran (run (M.kind.domain mask.old) (M.kind.rule mask.old) (M.kind.members mask.old)
        (map (move T.place O.table M.kind (λ j. slice_index_or row.now j d)) calls.now))
        (M.kind.members mask.new) reports.old reports.new }
    ensures kept { Kept M.kind mask.old mask.new }
{
    for c in calls {
        let report = apply_call(mask, row, *c);
        reports.push(report);
    }
}

// The mask that a succession leaves, and how its listing ended.
#[derive(Debug, Drop)]
pub struct Left<M> {
    pub mask: M,
    pub listed: Result<usize, Refusal>,
}

// Why no call was made: an operand past the row, too few places for the reports, or too little memory. The memory comes back.
#[derive(Debug, Drop)]
pub enum NotRun<A> {
    Operand(usize, A),
    Refused(Refused<A>),
}

impl<A> From<Refused<A>> for NotRun<A> {
    ghost from_gives = { λ refused e. e ≡ RefusedAt refused };

    fn from(refused: Refused<A>) -> NotRun<A> {
        NotRun::Refused(refused)
    }
}

// A mask from new, the calls on it, each with its report, and a listing of what is left.
// What a mask is made of, full or not, n and memory, is handed over once, so no struct is made of the three.
pub fn run_from_new<M: Mask, T: Idx, O: Operator>(
    full: bool,
    n: usize,
    memory: M::Memory,
    row: &[M],
    calls: &[Call<T, O>],
    reports: &mut Collector<'_, Result<(usize, usize), Refusal>>,
    out: &mut Collector<'_, T>,
) -> Result<Left<M>, NotRun<M::Memory>>
    // The calls are made where nothing stands against it.
    ensures named { OnOk result (past_row (length row.now) calls.now ≡ None) }
    ensures room { OnOk result (length calls.now ≤ free reports.old) }
    ensures enough { OnOk result (M.backing.suffices n memory ≡ true) }
    ensures spare { IfOk result (λ left. M.kind.spare left.mask ≡ M.backing.spare n memory) }
    // What is true of them, over the reports that they gave.
    ensures law { IfOk result (λ left. (made : List Report)
        × Gathered made reports.old reports.new
        × Succession M.kind O.table T.place n (M.backing.rule n memory) full row.now calls.now
        made left.mask) }
    ensures listed { IfOk result (λ left. Listed T.LIMIT T.place n (M.kind.members left.mask)
        out.old out.new left.listed) }
    // Where they are not made, the cause is told and nothing is touched.
    ensures refused { IfErr result (IsNotRun (past_row (length row.now) calls.now)
        (length calls.now) (free reports.old) (M.backing.suffices n memory) memory) }
    ensures reports_stay { OnErr result (Unmoved reports.old reports.new) }
    ensures out_stays { OnErr result (Unmoved out.old out.new) }
{
    if let Some(j) = past_row(calls, row.len()) {
        return Err(NotRun::Operand(j, memory));
    }
    if reports.free() < calls.len() {
        return Err(NotRun::Refused(Refused {
            refusal: Refusal::Places,
            memory,
        }));
    }
    let mut mask = M::new_uniform(full, n, memory)?;
    run_calls(&mut mask, row, calls, reports);
    let listed = list(&mask, out);
    Ok(Left { mask, listed })
}
