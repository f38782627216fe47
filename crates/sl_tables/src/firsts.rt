//! An index: of each key the number of an element, so that none of those which have the key has a number below it.

ghost use Rattle.indexmap.specs.IndexMap.{get, spare};
ghost use Rattle.sl_words.specs.Words.{some_is};
ghost use Rattle.std.specs.Prelude.{IsSome, None, Some, cond, unwrap_or, ◌+◌, ◌<◌, ◌==◌, ◌≡◌, ◌≤◌};

use indexmap::IndexMap;
use std::hash::Hash;

/// Notes the first number of a key, where it has none.
pub(crate) fn note_first<K: Eq + Hash + Copy>(firsts: &mut IndexMap<K, u64>, key: K, number: u64)
    requires { 0 < spare firsts.old }
    ensures firsts { (k : K) → get K.eq firsts.new k ≡ cond (K.eq key k) (Some (unwrap_or (get K.eq firsts.old key) number)) (get K.eq firsts.old k) }
    ensures room { spare firsts.old ≤ spare firsts.new + 1 }
{
    if firsts.get(&key).is_none() {
        match firsts.insert(key, number) {
            Ok(_) => {}
            Err(_) => unreachable!(),
        }
    }
}

/// Whether this number is the first of a key.
pub(crate) fn is_first<K: Eq + Hash>(firsts: &IndexMap<K, u64>, key: &K, number: u64) -> bool
    ensures { result ≡ some_is (λ n. n == number) (get K.eq firsts.now key.now) }
{
    match firsts.get(key) {
        Some(first) => *first == number,
        None => false,
    }
}

/// Notes another number of a key that has one.
fn replace_first<K: Eq + Hash>(firsts: &mut IndexMap<K, u64>, key: &K, number: u64)
    requires { IsSome (get K.eq firsts.old key.now) }
    ensures firsts { (k : K) → get K.eq firsts.new k ≡ cond (K.eq key.now k) (Some number) (get K.eq firsts.old k) }
    ensures room { spare firsts.old ≤ spare firsts.new }
{
    match firsts.get_mut(key) {
        Some(first) => *first = number,
        None => unreachable!(),
    }
}

/// Notes what is now the first number of a key that has one, or that it has none.
pub(crate) fn pass_on<K: Eq + Hash + Drop>(
    firsts: &mut IndexMap<K, u64>,
    key: &K,
    next: Option<u64>,
)
    requires { IsSome (get K.eq firsts.old key.now) }
    ensures firsts { (k : K) → get K.eq firsts.new k ≡ cond (K.eq key.now k) next (get K.eq firsts.old k) }
    ensures room { spare firsts.old ≤ spare firsts.new }
{
    match next {
        Some(number) => replace_first(firsts, key, number),
        None => {
            firsts.swap_remove(key);
        }
    }
}
