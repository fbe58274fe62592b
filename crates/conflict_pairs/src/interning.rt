//! One value for all keys that are alike, as far as the slots remember it.
ghost use Rattle.std.specs.Prelude.{◌≡◌, ◌<◌, ◌++◌, ℕ, [], ◌∷◌, Some, length, slice_get};
ghost use Rattle.std.specs.Prelude.{IsTrue, All, IfOk, OnOk, slice_index_or};
ghost use Rattle.conflict_pairs.specs.Interning.{IsServed, AreInterned};

use crate::limits::MAX_VALUES;
use std::alloc::{AllocError, Global};
use std::marker::Model;

/// Makes values for keys, one for many keys that are alike.
pub trait Interner {
    type Key;

    type Value: Drop;

    /// Which keys it takes.
    ghost takes: { Self → Self.Key → Type 0 };

    /// What holds of each value that it makes.
    ghost is_sound: { Self → Self.Value → Type 0 };

    /// Which values are right for a key.
    ghost serves: { Self → Self.Key → Self.Value → Type 0 };

    /// The same number for keys that are alike, mostly another for others.
    fn hash(&self, key: &Self::Key) -> usize
        requires { takes self.now key.now };

    /// Whether a value that was made for another key serves this one too.
    fn is_served(&self, key: &Self::Key, value: &Self::Value) -> bool
        requires takes { takes self.now key.now }
        requires sound { is_sound self.now value.now }
        ensures { IsTrue result → serves self.now key.now value.now };

    fn make(&self, alloc: Global, key: &Self::Key) -> Result<Self::Value, AllocError>
        requires { takes self.now key.now }
        ensures sound { IfOk result (λ value. is_sound self.now value) }
        ensures serves { IfOk result (λ value. serves self.now key.now value) };
}

/// Values, and for each key the number of one that serves it.
#[derive(Drop)]
pub struct Interned<V> {
    pub values: Vec<V>,
    pub numbers: Vec<u32>,
}

// How many numbers of values are remembered: a small set pays no more for empty slots.
const FEW_SLOTS: usize = 16_384;

// So many are remembered for more keys than there are few slots.
const MANY_SLOTS: usize = 131_072;

// The golden section of all numbers, which sets near ones far apart.
const SPREAD: usize = 0x9E37_79B9_7F4A_7C15;

// So many hashes in a row have slots side by side: keys that stand in a row often have near hashes,
// and so ask few lines of the cache.
const BLOCK: usize = 64;

// The slot of a hash among so many. Any of them may come out where their number is a power of 2.
fn slot_of(slots: usize, hash: usize) -> usize
    requires { 0 < slots }
    ensures { result < slots }
{
    let block = (hash / BLOCK).wrapping_mul(SPREAD) >> 32;
    block.wrapping_mul(BLOCK).wrapping_add(hash % BLOCK) & (slots - 1)
}

/// The number for the key of this place.
pub fn number_at(numbers: &[u32], n: u32) -> u32
    requires { n < length numbers.now }
    ensures { result ≡ slice_index_or numbers.now n 0 }
{
    numbers[n as usize]
}

/// Numbers that are remembered, each in the slot of a hash. Nothing is promised of which: who takes
/// one tests it.
#[derive(Drop)]
pub struct Slots {
    numbers: Vec<u32>,
}

impl Model for Slots {
    ghost use Rattle.std.specs.Prelude.{◌<◌, length};

    ghost Value = { Unit {0} };

    ghost view = { λ s. tt };

    ghost invariant = { λ s. 0 < length s.numbers.items };
}

impl Slots {
    /// Slots that remember the number 0, for values of so many keys.
    pub fn for_keys(alloc: Global, keys: usize) -> Result<Slots, AllocError> {
        let slots = if keys > FEW_SLOTS {
            MANY_SLOTS
        } else {
            FEW_SLOTS
        };
        let numbers = vec![in alloc; 0; slots]?;
        Ok(Slots { numbers })
    }

    /// The number that the slot of a hash remembers.
    pub fn get(&self, hash: usize) -> u32 {
        self.numbers[slot_of(self.numbers.len(), hash)]
    }

    /// Remembers a number in the slot of a hash, in place of the one there.
    pub fn set(&mut self, hash: usize, number: u32) {
        let slot = slot_of(self.numbers.len(), hash);
        self.numbers[slot] = number;
    }
}

/// The place of a key among others as slots remember it. One that 32 bits can't say is the first.
pub fn place_number(place: usize) -> u32 {
    if place < MAX_VALUES { place as u32 } else { 0 }
}

/// Adds a value, and gives its number. One more value than 32 bits can number is answered as want
/// of memory.
pub fn push_numbered<V: Drop>(values: &mut Vec<V>, value: V) -> Result<u32, AllocError>
    ensures values { OnOk result (values.new.items ≡ values.old.items ++ value ∷ []) }
    ensures number { IfOk result (λ number. number ≡ length values.old.items) }
{
    let number = values.len();
    if number >= MAX_VALUES {
        return Err(AllocError);
    }
    values.push(value)?;
    Ok(number as u32)
}

// Whether the value of a number serves a key.
fn is_remembered<I: Interner>(interner: &I, key: &I::Key, values: &[I::Value], number: u32) -> bool
    requires takes { I.takes interner.now key.now }
    requires sound { All (I.is_sound interner.now) values.now }
    ensures { IsTrue result → IsServed (I.serves interner.now) values.now key.now number }
{
    values
        .get(number as usize)
        .is_some_and(|value| interner.is_served(key, value))
}

// The number of a value that serves a key. Keys in a row are often alike, so the number of the
// last one is tried first, and the slot is asked where it fails.
fn number_of<I: Interner>(
    alloc: Global,
    interner: &I,
    key: &I::Key,
    last: u32,
    slots: &mut Slots,
    values: &mut Vec<I::Value>,
) -> Result<u32, AllocError>
    requires takes { I.takes interner.now key.now }
    requires sound { All (I.is_sound interner.now) values.old.items }
    ensures sound { OnOk result (All (I.is_sound interner.now) values.new.items) }
    ensures served { IfOk result
        (λ number. IsServed (I.serves interner.now) values.new.items key.now number) }
    ensures keeps { OnOk result ((k : ℕ) (v : I.Value)
        → slice_get values.old.items k ≡ Some v → slice_get values.new.items k ≡ Some v) }
{
    if is_remembered(interner, key, values, last) {
        return Ok(last);
    }
    let hash = interner.hash(key);
    let remembered = slots.get(hash);
    if is_remembered(interner, key, values, remembered) {
        return Ok(remembered);
    }
    let number = push_numbered(values, interner.make(alloc, key)?)?;
    slots.set(hash, number);
    Ok(number)
}

/// Values for some keys, and which one serves each key. A slot holds the number of the last value
/// that came there. Each number is tested before it is taken.
pub fn intern_all<I: Interner>(
    alloc: Global,
    interner: &I,
    keys: &[I::Key],
) -> Result<Interned<I::Value>, AllocError>
    requires { All (I.takes interner.now) keys.now }
    ensures { IfOk result (λ interned. AreInterned (I.is_sound interner.now)
        (I.serves interner.now) keys.now interned.values.items interned.numbers.items) }
{
    let mut slots = Slots::for_keys(alloc, keys.len())?;
    let mut values = Vec::new(alloc);
    let mut numbers = Vec::with_capacity(alloc, keys.len())?;
    let mut last = 0;
    for key in keys {
        let number = number_of(alloc, interner, key, last, &mut slots, &mut values)?;
        numbers.push_reserved(number);
        last = number;
    }
    Ok(Interned { values, numbers })
}
