//! Equality, order and hashes.
use smol_str::{Place, SmolStr};
use std::cmp::Ordering;
use std::collections::HashMap;
use std::hash::{DefaultHasher, Hash, Hasher};
use test_support::*;

/// Two texts, and the order of the first to the second.
static ORDERS: [(&str, &str, Ordering); 10] = table! {
    ("\u{FFFD}", "\u{10000}", Ordering::Less);
    ("", "a", Ordering::Less);
    ("Z", "a", Ordering::Less);
    ("b", "ab", Ordering::Greater);
    ("é", "z", Ordering::Greater);
    ("a", "a\0", Ordering::Less);
    ("ab", "ab", Ordering::Equal);
    ("abc", "ab", Ordering::Greater);
    ("ab", "abc", Ordering::Less);
    ("aaaaaaaaaaaaaaaaaaaaaaaaaaaaaaaaaaaaaaaa", "aaaaaaaaaaaaaaaaaaaaaaaaaaaaaaaaaaaaaaab", Ordering::Less);
};

#[test]
fn orders(rt: HostRuntime) -> Result<(), Fail> {
    let test = Test::begin(rt);
    for &(left, right, order) in &ORDERS {
        check_order(&test, test.value(left), right, order);
        check_order(&test, SmolStr::new_static(left), right, order);
    }
    test.end()
}

/// A value and a text are of this order, and so are their values.
fn check_order(test: &Test, value: SmolStr, right: &'static str, order: Ordering) {
    let (other, owned) = (SmolStr::new_static(right), test.string(right));
    let (by_value, by_str) = (value.cmp(&other), value.cmp_str(right));
    let found = [by_value, by_str, value.cmp_string(&owned)];
    same(test, &found, &[order; 3], &right);
    let found = test.value(right).cmp(&value);
    same(test, &found, &order.reverse(), &right);
    let found = [value == other, value.eq_str(right), value.eq_string(&owned)];
    same(test, &found, &[order == Ordering::Equal; 3], &right);
}

// A pinned value is static whatever its text, and so is its clone. Equal texts have equal hashes in every place, that of
// std's `str`.
#[test]
fn pinned_and_new(rt: HostRuntime) -> Result<(), Fail> {
    let test = Test::begin(rt);
    for text in [
        "",
        "ab",
        "aaaaaaaaaaaaaaaaaaaaaaaa",
        long_blank(),
        long_text(),
    ] {
        let pinned = SmolStr::new_static(text);
        same_place(&test, &pinned, Place::Static, &text);
        same_place(&test, &ok(&test, pinned.clone()), Place::Static, &text);
        same(&test, &test.value(text), &pinned, &text);
        let hashes = [hash_of(&test.value(text)), hash_of(&pinned)];
        same(&test, &hashes, &[hash_of(&text); 2], &text);
    }
    test.end()
}

fn hash_of<T: Hash>(value: &T) -> u64 {
    let mut hasher = DefaultHasher::default();
    value.hash(&mut hasher);
    hasher.finish()
}

#[test]
fn test_search_in_hashmap(rt: HostRuntime) -> Result<(), Fail> {
    let test = Test::begin(rt);
    let mut map = HashMap::new(test.alloc);
    holds(&test, map.insert(test.value("aaa"), 17).is_ok(), &"insert");
    let found = map.get(&SmolStr::new_inline("aaa")).copied();
    same(&test, &found, &Some(17), &"aaa");
    test.end()
}
