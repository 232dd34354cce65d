// Word functions around each boundary of words and groups.
use index::Refusal;
use std::alloc::Global;
use std::process::Abort;
use std::test::Fail;
use words::{
    And, ComplementOperand, Operator, Or, Table, clear_excess_bits_in_final_word, count_ones,
    has_changed, insert, max_bit, min_bit, num_words, remove, update_words, word_index_and_mask,
    would_modify_words,
};

const ALL: u64 = u64::MAX;

#[test]
fn words_that_hold_so_many_bits(rt: HostRuntime) {
    for (bits, words) in [
        (0, 0),
        (1, 1),
        (63, 1),
        (64, 1),
        (65, 2),
        (2048, 32),
        (usize::MAX, 1 << 58),
    ] {
        assert_eq!(rt; num_words(bits), words);
    }
    assert_eq!(rt; word_index_and_mask(0usize), (0, 1));
    assert_eq!(rt; word_index_and_mask(63usize), (0, 1 << 63));
    assert_eq!(rt; word_index_and_mask(64usize), (1, 1));
    assert_eq!(rt; word_index_and_mask(usize::MAX), ((1 << 58) - 1, 1 << 63));
}

#[test]
fn the_lowest_and_the_highest_bit(rt: HostRuntime) {
    for (word, lowest, highest) in [
        (0, None, None),
        (1, Some(0), Some(0)),
        (6, Some(1), Some(2)),
        (1 << 63, Some(63), Some(63)),
        (ALL, Some(0), Some(63)),
    ] {
        assert_eq!(rt; min_bit(word), lowest);
        assert_eq!(rt; max_bit(word), highest);
    }
}

#[test]
fn bits_past_the_domain_are_cleared(rt: HostRuntime) {
    for (domain, last) in [
        (0, ALL),
        (1, 1),
        (63, ALL >> 1),
        (64, ALL),
        (65, 1),
        (70, 63),
    ] {
        let mut words = [ALL; 2];
        clear_excess_bits_in_final_word(domain, &mut words);
        assert_eq!(rt; words, [ALL, last]);
    }
    clear_excess_bits_in_final_word(70, &mut []);
}

// Each bit is turned once.
fn insert_each(rt: &impl Abort, words: &mut [u64]) {
    for index in [0usize, 1, 63, 64, 65, 127] {
        assert_eq!(rt; insert(words, index), Ok(true));
        assert_eq!(rt; insert(words, index), Ok(false));
    }
}

#[test]
fn one_bit_at_a_time(rt: HostRuntime) {
    let mut words = [0u64; 2];
    insert_each(&rt, &mut words);
    assert_eq!(rt; words, [1 << 63 | 3, 1 << 63 | 3]);
    assert_eq!(rt; insert(&mut words, 128usize), Err(Refusal::Index(128)));
    assert_eq!(rt; remove(&mut words, 128usize), Err(Refusal::Index(128)));
    assert_eq!(rt; remove(&mut words, 64usize), Ok(true));
    assert_eq!(rt; remove(&mut words, 64usize), Ok(false));
    assert_eq!(rt; words, [1 << 63 | 3, 1 << 63 | 2]);
}

// The operand has two bits of its last word alone: a union takes them in, and a subtract out again.
fn check_last_word(rt: &impl Abort, own: &mut [u64], operand: &[u64], longer: &[u64]) {
    assert!(rt; would_modify_words(own, operand, &Or));
    assert_eq!(rt; update_words(own, longer, &Or), (2, 0));
    assert_eq!(rt; count_ones(own), 2);
    assert!(rt; !would_modify_words(own, operand, &Or));
    assert!(rt; !has_changed(update_words(own, operand, &Or)));
    let subtract = ComplementOperand { below: And };
    assert_eq!(rt; update_words(own, operand, &subtract), (0, 2));
    assert_eq!(rt; count_ones(own), 0);
}

fn check_length(rt: &impl Abort, heap: Global, len: usize) -> Result<(), Fail> {
    let mut own = vec![in heap; 0u64; len]?;
    let mut operand = vec![in heap; 0u64; len]?;
    if let Some(last) = operand.last_mut() {
        *last = 1 << 63 | 1;
    }
    let mut longer = operand.clone()?;
    longer.push(ALL)?;
    check_last_word(rt, &mut own, &operand, &longer);
    assert!(rt; !would_modify_words(&own, &[], &Or));
    Ok(())
}

#[test]
fn rows_around_each_group(rt: HostRuntime) -> Result<(), Fail> {
    for len in [1, 7, 8, 9, 31, 32, 33] {
        check_length(&rt, rt.alloc(), len)?;
    }
    assert_eq!(rt; count_ones(&[]), 0);
    assert_eq!(rt; count_ones(&[ALL; 33]), 2112);
    Ok(())
}

#[test]
fn sixteen_tables(rt: HostRuntime) {
    let (own, operand) = (0b0011, 0b0101);
    for bits in 0..16u64 {
        let table = Table {
            neither: bits & 8 != 0,
            operand_only: bits & 4 != 0,
            own_only: bits & 2 != 0,
            both: bits & 1 != 0,
        };
        assert_eq!(rt; table.apply(own, operand) & 15, bits);
        let layer = ComplementOperand { below: table };
        assert_eq!(rt; layer.apply(own, !operand), table.apply(own, operand));
    }
    assert_eq!(rt; Or.apply(own, operand), 0b0111);
}
