// Dense masks through the calls of every mask.
use dense::DenseBitSet;
use index::{Idx, Refusal, Sample, Slot};
use mask::{Collector, Mask, list};
use std::alloc::Global;
use std::test::Fail;

// A mask over words that hold a pattern, with one word more than it needs.
fn made(heap: Global, domain: usize, full: bool) -> Result<DenseBitSet, Fail> {
    let words = vec![in heap; 0x5555u64; domain / 64 + 2]?;
    DenseBitSet::new_uniform(full, domain, words).map_err(|_| Fail::new("too few words"))
}

#[test]
fn too_few_words_come_back(rt: HostRuntime) -> Result<(), Fail> {
    let words = vec![in rt.alloc(); 7u64; 1]?;
    let refused = DenseBitSet::new_filled(65, words)
        .err()
        .ok_or("one word took 65 bits")?;
    assert_eq!(rt; refused.refusal, Refusal::Memory);
    assert_eq!(rt; refused.memory.as_slice(), [7u64].as_slice());
    Ok(())
}

#[test]
fn union_not_stops_at_the_domain(rt: HostRuntime) -> Result<(), Fail> {
    let heap = rt.alloc();
    let mut own = made(heap, 70, false)?;
    let mut first = made(heap, 70, false)?;
    assert_eq!(rt; first.insert(0usize), Ok((1, 0)));
    assert_eq!(rt; own.union_not(&first), Ok((69, 0)));
    assert_eq!(rt; own.count(), 69);
    assert_eq!(rt;
        own.into_memory().as_slice(),
        [u64::MAX - 1, 63, 0x5555].as_slice()
    );
    Ok(())
}

#[test]
fn refused_calls_change_nothing(rt: HostRuntime) -> Result<(), Fail> {
    let heap = rt.alloc();
    let mut own = made(heap, 64, true)?;
    let other = made(heap, 65, false)?;
    assert_eq!(rt; own.remove(64usize), Err(Refusal::Index(64)));
    assert_eq!(rt; own.insert(usize::MAX), Err(Refusal::Index(usize::MAX)));
    assert_eq!(rt; own.contains(64usize), Err(Refusal::Index(64)));
    assert!(rt; !own.contains_loose(64usize));
    assert_eq!(rt; own.intersect(&other), Err(Refusal::Domains(64, 65)));
    assert_eq!(rt; own.clone_from(&other), Err(Refusal::Domains(64, 65)));
    assert_eq!(rt; own.superset(&other), Err(Refusal::Domains(64, 65)));
    assert_eq!(rt; own.count(), 64);
    Ok(())
}

#[test]
fn no_domain_no_members(rt: HostRuntime) -> Result<(), Fail> {
    let mut none = made(rt.alloc(), 0, true)?;
    assert_eq!(rt; none.count(), 0);
    assert!(rt; none.is_empty());
    assert_eq!(rt; none.next_member(0), None);
    assert_eq!(rt; none.insert_all(), (0, 0));
    assert_eq!(rt; none.insert(0usize), Err(Refusal::Index(0)));
    Ok(())
}

#[test]
fn laying_and_lifting_balance(rt: HostRuntime) -> Result<(), Fail> {
    let heap = rt.alloc();
    let mut own = made(heap, 130, false)?;
    let mut advert = made(heap, 130, false)?;
    for index in [0usize, 63, 64, 127, 129] {
        assert_eq!(rt; advert.insert(index), Ok((1, 0)));
    }
    assert_eq!(rt; own.insert(64usize), Ok((1, 0)));
    assert_eq!(rt; own.union(&advert), Ok((4, 0)));
    assert_eq!(rt; own.union(&advert), Ok((0, 0)));
    assert_eq!(rt; own.superset(&advert), Ok(true));
    assert!(rt; own.same_picture(&advert));
    assert_eq!(rt; own.next_member(65), Some(127));
    assert_eq!(rt; own.subtract(&advert), Ok((0, 5)));
    assert_eq!(rt; own.superset(&advert), Ok(false));
    assert!(rt; own.is_empty());
    assert_eq!(rt; own.insert_all(), (130, 0));
    assert_eq!(rt; own.clear(), (0, 130));
    Ok(())
}

#[test]
fn listings_need_limit_and_places(rt: HostRuntime) -> Result<(), Fail> {
    let heap = rt.alloc();
    let mut own = made(heap, 130, false)?;
    for index in [0usize, 64, 129] {
        assert_eq!(rt; own.insert(index), Ok((1, 0)));
    }
    let mut places = [Sample { number: 9 }; 4];
    let mut out = Collector::new(&mut places);
    assert_eq!(rt; list(&own, &mut out), Ok(3));
    assert_eq!(rt; list(&own, &mut out), Err(Refusal::Places));
    assert_eq!(rt; out.free(), 1);
    let wide = made(heap, 524_289, false)?;
    let slot = Slot::new(0usize).ok_or("no slot 0")?;
    let mut slots = [slot; 1];
    assert_eq!(rt;
        list(&wide, &mut Collector::new(&mut slots)),
        Err(Refusal::Limit)
    );
    Ok(())
}
