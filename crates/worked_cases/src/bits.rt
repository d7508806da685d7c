//! Rows of bits.
ghost use Rattle.std.specs.Prelude.{◌≡◌, ◌<◌, ◌≤◌, length};

use sat_bits::{
    and_into, count, count_and, get, has_one_more, has_third_row, is_subset, is_subset_of_and, set,
};
use std::process::Abort;

const ALL: [u64; 17] = [u64::MAX; 17];

fn ones(row: &[u64]) -> usize
    requires { length row.now ≤ 17 }
{
    count(row)
}

fn shared(a: &[u64], b: &[u64]) -> usize
    requires few { length a.now ≤ 17 }
    requires second { length b.now ≡ length a.now }
{
    count_and(a, b)
}

// Each call on as many words, before and after one place of the last word is changed.
fn check_width(rt: &impl Abort, words: usize)
    requires { words ≤ 17 }
{
    let full = &ALL[..words];
    let mut holed = ALL;
    assert_eq!(rt; ones(full), words * 64);
    assert!(rt; is_subset(full, &holed[..words]));
    if words == 0 {
        return;
    }
    let place = words * 64 - 3;
    set(&mut holed[..words], place, false);
    let holed = &holed[..words];
    assert!(rt; get(full, place) && !get(holed, place));
    assert!(rt; is_subset(holed, full) && !is_subset(full, holed));
    assert!(rt; is_subset_of_and(full, holed, holed));
    assert!(rt; !is_subset_of_and(full, full, holed));
    assert_eq!(rt; ones(holed), words * 64 - 1);
    assert_eq!(rt; shared(full, holed), words * 64 - 1);
    let mut both = [0; 17];
    and_into(&mut both[..words], full, holed);
    assert!(rt; is_subset(&both[..words], holed) && is_subset(holed, &both[..words]));
}

// Whether five full words have one place more than they share with a row.
fn has_one_place_more(row: &[u64]) -> bool
    requires { length row.now ≡ 5 }
{
    has_one_more(&ALL[..5], row)
}

#[test]
fn one_place_more(rt: HostRuntime) {
    let all = u64::MAX;
    assert!(rt; !has_one_place_more(&[all, all, all, all, all]));
    assert!(rt; has_one_place_more(&[all - 1, all, all, all, all]));
    assert!(rt; has_one_place_more(&[all, all - 4, all, all, all]));
    assert!(rt; has_one_place_more(&[all, all, all, all, all / 2]));
    assert!(rt; !has_one_place_more(&[all, all, all - 3, all, all]));
    assert!(rt; !has_one_place_more(&[all - 1, all, all, all, all / 2]));
}

#[test]
fn no_word(rt: HostRuntime) {
    check_width(&rt, 0);
}

#[test]
fn less_than_a_block(rt: HostRuntime) {
    check_width(&rt, 1);
    check_width(&rt, 7);
}

#[test]
fn whole_blocks_and_a_rest(rt: HostRuntime) {
    check_width(&rt, 8);
    check_width(&rt, 9);
    check_width(&rt, 17);
}

// The first two rows share a bit of the second word alone.
#[test]
fn third_rows_of_two_words(rt: HostRuntime) {
    let without = [0, 6, 3, 4, 3, 2];
    assert!(rt; !has_third_row(&without, 2, 3, 0, 1));
    assert!(rt; !has_third_row(&without, 2, 3, 0, 0));
    let with = [0, 6, 3, 4, 3, 14];
    assert!(rt; has_third_row(&with, 2, 3, 0, 1));
    assert!(rt; has_third_row(&with, 2, 3, 0, 0));
    assert!(rt; !has_third_row(&with, 2, 3, 2, 2));
}

// The first two rows share a bit of the third word and one of the last; a third row has both.
#[test]
fn third_rows_of_five_words(rt: HostRuntime) {
    let without = [0, 0, 6, 0, 1, 7, 0, 4, 1, 1, 7, 7, 6, 7, 0];
    assert!(rt; !has_third_row(&without, 5, 3, 0, 1));
    assert!(rt; !has_third_row(&without, 5, 3, 0, 0));
    let with = [0, 0, 6, 0, 1, 7, 0, 4, 1, 1, 0, 0, 6, 0, 1];
    assert!(rt; has_third_row(&with, 5, 3, 0, 1));
    assert!(rt; has_third_row(&with, 5, 3, 0, 0));
    assert!(rt; !has_third_row(&with, 5, 3, 1, 1));
}

// Where two rows share no place, each other row is a third one.
#[test]
fn third_rows_without_a_shared_place(rt: HostRuntime) {
    let apart = [1, 2, 2, 1, 4, 0];
    assert!(rt; has_third_row(&apart, 2, 3, 0, 1));
    assert!(rt; !has_third_row(&apart[..4], 2, 2, 0, 1));
    let empty = [0; 4];
    assert!(rt; has_third_row(&empty, 2, 2, 1, 1));
    assert!(rt; !has_third_row(&empty, 2, 2, 1, 0));
    assert!(rt; !has_third_row(&empty[..2], 2, 1, 0, 0));
}
