//! One value for all keys that are alike.

use conflict_pairs::{Interner, intern_all};
use std::alloc::{AllocError, Global};
use std::process::Abort;

/// Numbers are alike where both are even or both are odd.
struct Parity;

impl Interner for Parity {
    ghost use Rattle.std.specs.Prelude.{⊤};

    type Key = u64;

    type Value = u64;

    ghost takes = { λ _ _. ⊤ };

    ghost is_sound = { λ _ _. ⊤ };

    ghost serves = { λ _ _ _. ⊤ };

    fn hash(&self, key: &u64) -> usize {
        (*key % 2) as usize
    }

    fn is_served(&self, key: &u64, value: &u64) -> bool {
        *key % 2 == *value % 2
    }

    fn make(&self, _: Global, key: &u64) -> Result<u64, AllocError> {
        Ok(*key)
    }
}

/// Keys, the values that are made for them, and the number of each key's.
const EXAMPLES: [(&[u64], &[u64], &[u32]); 4] = [
    (&[4, 7, 6, 9, 4], &[4, 7], &[0, 1, 0, 1, 0]),
    (&[5, 3, 1], &[5], &[0, 0, 0]),
    (&[8], &[8], &[0]),
    (&[], &[], &[]),
];

/// Asserts which values are made for keys, and which number each key has.
fn check(rt: &impl Abort, alloc: Global, keys: &[u64], values: &[u64], numbers: &[u32]) {
    let interned = intern_all(alloc, &Parity, keys).expect(rt, "memory");
    assert!(rt; interned.values.as_slice() == values);
    assert!(rt; interned.numbers.as_slice() == numbers);
}

#[test]
fn keys_that_are_alike_share_a_value(rt: HostRuntime) {
    for (keys, values, numbers) in EXAMPLES {
        check(&rt, rt.alloc(), keys, values, numbers);
    }
}
