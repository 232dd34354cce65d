// The calls, run on small domains.
use crate::all_or_nothing::AllOrNothing;
use index::{Idx, Refusal};
use mask::{Call, Collector, Mask, Refused, list, run_from_new};
use std::test::Fail;
use words::Or;

// Nothing is handed over, so no mask is refused.
fn made(mask: Result<AllOrNothing, Refused<()>>) -> Result<AllOrNothing, Fail> {
    mask.map_err(|_| Fail::new("refused"))
}

#[test]
fn one_of_three_is_refused(rt: HostRuntime) -> Result<(), Fail> {
    let mut mask = made(AllOrNothing::new_empty(3, ()))?;
    assert_eq!(rt; mask.insert(0usize), Err(Refusal::Holding));
    assert_eq!(rt; mask.insert(3usize), Err(Refusal::Index(3)));
    assert_eq!(rt; mask.count(), 0);
    assert_eq!(rt; mask.contains(0usize), Ok(false));
    Ok(())
}

#[test]
fn the_only_index_comes_and_goes(rt: HostRuntime) -> Result<(), Fail> {
    let mut mask = made(AllOrNothing::new_empty(1, ()))?;
    assert_eq!(rt; mask.insert(0usize), Ok((1, 0)));
    assert_eq!(rt; mask.insert(0usize), Ok((0, 0)));
    assert_eq!(rt; mask.remove(0usize), Ok((0, 1)));
    Ok(())
}

#[test]
fn a_full_mask_lists_its_domain(rt: HostRuntime) -> Result<(), Fail> {
    let mask = made(AllOrNothing::new_filled(5, ()))?;
    let mut places = [9usize; 5];
    let mut out = Collector::new(&mut places);
    assert_eq!(rt; list(&mask, &mut out), Ok(5));
    assert_eq!(rt; places, [0, 1, 2, 3, 4]);
    Ok(())
}

#[test]
fn a_succession_from_full(rt: HostRuntime) -> Result<(), Fail> {
    let row = [made(AllOrNothing::new_filled(4, ()))?];
    let calls = [Call::Clear, Call::Combine(Or, 0), Call::InsertAll];
    let mut answers = [Ok((9, 9)); 3];
    let mut places = [9usize; 4];
    let mut reports = Collector::new(&mut answers);
    let mut out = Collector::new(&mut places);
    let left = run_from_new(true, 4, (), &row, &calls, &mut reports, &mut out);
    assert_eq!(rt; left.map_err(|_| Fail::new("not run"))?.listed, Ok(4));
    assert_eq!(rt; answers, [Ok((0, 4)), Ok((4, 0)), Ok((0, 0))]);
    assert_eq!(rt; places, [0, 1, 2, 3]);
    Ok(())
}
