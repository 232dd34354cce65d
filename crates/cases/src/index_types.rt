// Limits, neighbours of limits, and what refusals say.
use index::idx::Idx;
use index::refusal::{Refusal, Values};
use index::sample::Sample;
use index::slot::{Place, Slot};
use std::process::Abort;
use std::test::Fail;

// The last index has a value of that index, and the limit and what lies past it have none.
fn check_limit<T: Idx>(rt: &impl Abort, last: usize) -> Result<(), Fail> {
    let value = T::new(last).ok_or("no value below the limit")?;
    assert_eq!(rt; value.index(), last);
    assert!(rt; T::new(last.saturating_add(1)).is_none());
    assert!(rt; T::new(usize::MAX).is_none());
    assert!(rt; value.plus(1).is_none());
    assert!(rt; value.plus(usize::MAX).is_none());
    assert!(rt; T::new(0).ok_or("no value for 0")?.plus(last).is_some());
    Ok(())
}

#[test]
fn no_index_type_wraps(rt: HostRuntime) -> Result<(), Fail> {
    check_limit::<usize>(&rt, 18_446_744_073_709_551_614)?;
    check_limit::<Sample>(&rt, 4_294_967_295)?;
    check_limit::<Slot>(&rt, 524_287)
}

#[test]
fn a_slot_is_a_break_and_a_place(rt: HostRuntime) {
    let slot = Slot {
        break_number: 3,
        place: Place::Sixth,
    };
    assert_eq!(rt; Slot::new(29), Some(slot));
    assert_eq!(rt; slot.index(), 29);
    assert_eq!(rt;
        Slot::new(524_287),
        Some(Slot {
            break_number: 65_535,
            place: Place::Eighth,
        })
    );
}

#[test]
fn a_step_past_the_limit_stays(rt: HostRuntime) {
    let mut sample = Sample {
        number: 4_294_967_290,
    };
    assert!(rt; sample.increment_by(5).is_some());
    assert!(rt; sample.increment_by(1).is_none());
    assert_eq!(rt;
        sample,
        Sample {
            number: 4_294_967_295,
        }
    );
}

#[test]
fn refusals_say_number_cause_and_values(rt: HostRuntime) -> Result<(), Fail> {
    let heap = rt.alloc();
    assert_eq!(rt;
        Refusal::Domains(70, 71).returned(),
        (2, Values::Two(70, 71))
    );
    assert_eq!(rt; Refusal::Row(9).returned(), (7, Values::One(9)));
    let index = format!(in heap; "{}", Refusal::Index(70))?;
    assert_eq!(rt;
        index.as_str(),
        "refusal 1: index 70 is at or past the domain"
    );
    let domains = format!(in heap; "{}", Refusal::Domains(70, 71))?;
    assert_eq!(rt;
        domains.as_str(),
        "refusal 2: the domains differ, 70 and 71"
    );
    let holding = format!(in heap; "{}", Refusal::Holding)?;
    assert_eq!(rt;
        holding.as_str(),
        "refusal 5: the mask cannot hold the result"
    );
    Ok(())
}
