//! The least order in which each number stands behind those that have to stand before it, or a
//! cycle that forbids it.

ghost use Rattle.std.specs.Prelude.{nat_lt, ◌≡◌, ◌≢◌, ◌<◌, ◌≤◌, ◌+◌, ◌^◌, ◌==◌, ◌&&◌, ◌||◌, ℕ};
ghost use Rattle.std.specs.Prelude.{Bool, true, [], ◌∷◌, length, slice_index, Some, IfOk, IfErr};
ghost use Rattle.std.specs.Prelude.{max, OnOk, IfSome, IfNone, if◌then◌else◌};
ghost use Rattle.std.specs.List.{IsFirstBest};
ghost use Rattle.serial_orders.specs.Orders.{is_one_of, least_order, IsCycle};
ghost use Rattle.serial_orders.specs.Precedence.{precedes};
ghost use Rattle.serial_orders.specs.Placing.{times, AreWaits, HasToWait, IsStuck, HasLeader};
ghost use Rattle.serial_orders.specs.Placing.{free_from, all_free, AreBelow, IsNextFree};
ghost use Rattle.serial_orders.specs.Placing.{AreLeaders, IsLed, IsWalk, IsOrderFault, IsLeastFirst};

use crate::precedence::Precedence;
use std::alloc::{AllocError, AllocFailed, Global};
use std::collections::BTreeSet;
use std::error::Error;
use std::{fmt, mem};

/// Why there is no order.
#[derive(Debug, Drop)]
pub enum OrderFault {
    /// Each of these commits has to stand before the next, and the last before the first, the
    /// least.
    Cycle(Vec<usize>),
    /// There was no memory for it.
    Memory,
}

impl From<AllocError> for OrderFault {
    ghost use Rattle.std.specs.Prelude.{◌≡◌};
    ghost use Rattle.serial_orders.specs.declared.order.OrderFault.TheVariants.{Memory};

    ghost from_gives = { λ _ e. e ≡ Memory };

    fn from(_: AllocError) -> Self {
        OrderFault::Memory
    }
}

impl<T: Drop> From<AllocFailed<T>> for OrderFault {
    ghost use Rattle.std.specs.Prelude.{◌≡◌};
    ghost use Rattle.serial_orders.specs.declared.order.OrderFault.TheVariants.{Memory};

    ghost from_gives = { λ _ e. e ≡ Memory };

    fn from(_: AllocFailed<T>) -> Self {
        OrderFault::Memory
    }
}

impl fmt::Display for OrderFault {
    ghost use Rattle.std.specs.Prelude.{Some};
    ghost use Rattle.serial_orders.specs.Texts.{order_fault_text};

    ghost output = { λ fault. Some (order_fault_text fault) };

    fn fmt<W: fmt::Write>(&self, f: &mut fmt::Formatter<W>) -> fmt::Result {
        f.write_str(match self {
            OrderFault::Cycle(_) => "cycle",
            OrderFault::Memory => "memory",
        })
    }
}

impl Error for OrderFault {}

// Counts each of some numbers once more.
fn count_up(counts: &mut [u128], numbers: &[usize])
    requires within { AreBelow (length counts.old) numbers.now }
    requires room { (n : ℕ) → n < length counts.old
        → slice_index counts.old n + times n numbers.now < 2 ^ 128 }
    ensures { (n : ℕ) → n < length counts.old
        → slice_index counts.new n ≡ slice_index counts.old n + times n numbers.now }
{
    for number in numbers {
        counts[*number] += 1;
    }
}

// Counts each of some numbers once less.
fn count_down(counts: &mut [u128], numbers: &[usize])
    requires within { AreBelow (length counts.old) numbers.now }
    requires enough { (n : ℕ) → n < length counts.old
        → times n numbers.now ≤ slice_index counts.old n }
    ensures { (n : ℕ) → n < length counts.old
        → slice_index counts.new n + times n numbers.now ≡ slice_index counts.old n }
{
    for number in numbers {
        counts[*number] -= 1;
    }
}

// The first number from one on that waits for none.
fn next_free(waits: &[u128], from: usize) -> Option<usize>
    ensures some { IfSome result (IsNextFree waits.now from) }
    ensures none { IfNone result (free_from waits.now from ≡ []) }
{
    for number in from..waits.len() {
        if waits[number] == 0 {
            return Some(number);
        }
    }
    None
}

// Takes out the least of the numbers that are free: of those that were passed over, which are less
// than `next`, and of those from `next` on that wait for none.
fn take_least(passed: &mut BTreeSet<usize>, waits: &[u128], next: usize) -> Option<usize>
    requires passed { AreBelow next passed.old.keys }
    requires next { next ≤ length waits.now }
    ensures within { IfSome result (λ n. n < length waits.now) }
    ensures least { IfSome result (λ n. IsLeastFirst (all_free passed.old.keys waits.now next)
        (all_free passed.new.keys waits.now (max next (n + 1))) n) }
    ensures none { IfNone result (all_free passed.old.keys waits.now next ≡ []) }
    ensures passed { AreBelow next passed.new.keys }
{
    match passed.pop_first() {
        Some(number) => Some(number),
        None => next_free(waits, next),
    }
}

// Whether a number waits for none and was passed over: it is less than `next`.
fn is_passed(waits: &[u128], number: usize, next: usize) -> bool
    requires { number < length waits.now }
    ensures { result ≡ (slice_index waits.now number == 0 && nat_lt number next) }
{
    waits[number] == 0 && number < next
}

// Adds those of some numbers that wait for none and were passed over.
fn free_more(
    passed: &mut BTreeSet<usize>,
    waits: &[u128],
    numbers: &[usize],
    next: usize,
) -> Result<(), AllocError>
    requires { AreBelow (length waits.now) numbers.now }
    ensures { OnOk result ((n : ℕ) → is_one_of passed.new.keys n
        ≡ (is_one_of passed.old.keys n
        || (is_one_of numbers.now n && (slice_index waits.now n == 0 && nat_lt n next)))) }
{
    for number in numbers {
        if is_passed(waits, *number, next) {
            passed.insert(*number)?;
        }
    }
    Ok(())
}

// Writes one number at each of some places.
fn write_at(numbers: &mut [usize], places: &[usize], number: usize)
    requires { AreBelow (length numbers.old) places.now }
    ensures { (n : ℕ) → slice_index numbers.new n
        ≡ (if is_one_of places.now n then number else slice_index numbers.old n) }
{
    for place in places {
        numbers[*place] = number;
    }
}

// The walk from a number to one that has to stand before it, until it would come to a number
// again: the numbers, and that one.
fn walk_back(
    alloc: Global,
    mut leaders: Vec<usize>,
    start: usize,
) -> Result<(Vec<usize>, usize), AllocError>
    requires within { (n : ℕ) → slice_index leaders.items n < length leaders.items }
    requires on { (n : ℕ) → HasLeader leaders.items n
        → HasLeader leaders.items (slice_index leaders.items n) }
    requires start { HasLeader leaders.items start }
    ensures { IfOk result (λ walk. (before : ℕ → ℕ → Bool)
        → IsLed before leaders.items → IsWalk before walk.0.items walk.1) }
{
    let mut walk = Vec::new(alloc);
    let mut at = start;
    while leaders[at] > 0 {
        walk.push(at)?;
        at = mem::replace(&mut leaders[at], 0);
    }
    Ok((walk, at))
}

// A place of a number.
fn place_of(numbers: &[usize], number: usize) -> usize
    requires { is_one_of numbers.now number ≡ true }
    ensures within { result < length numbers.now }
    ensures there { slice_index numbers.now result ≡ number }
{
    for (place, n) in numbers.iter().enumerate() {
        if *n == number {
            return place;
        }
    }
    unreachable!()
}

// A place whose number is not 0.
fn place_of_waiting(waits: &[u128]) -> usize
    requires { (n : ℕ) × (n < length waits.now) × HasToWait waits.now n }
    ensures within { result < length waits.now }
    ensures there { HasToWait waits.now result }
{
    for (place, count) in waits.iter().enumerate() {
        if *count > 0 {
            return place;
        }
    }
    unreachable!()
}

// The place of the least number.
fn place_of_least(numbers: &[usize]) -> usize
    requires { 0 < length numbers.now }
    ensures { IsFirstBest nat_lt numbers.now (length numbers.now) result }
{
    let mut best = 0;
    for place in 1..numbers.len() {
        if numbers[place] < numbers[best] {
            best = place;
        }
    }
    best
}

// The cycle of a walk: from where it came again on, read forward, the least first.
fn cycle_of(alloc: Global, walk: &[usize], again: usize) -> Result<Vec<usize>, AllocError>
    requires { is_one_of walk.now again ≡ true }
    ensures { IfOk result (λ cycle. (before : ℕ → ℕ → Bool)
        → IsWalk before walk.now again → IsCycle before cycle.items) }
{
    let start = place_of(walk, again);
    let mut cycle = Vec::from_slice(alloc, &walk[start..])?;
    cycle.reverse();
    let least = place_of_least(&cycle);
    cycle.rotate_left(least);
    Ok(cycle)
}

impl Precedence {
    // For each number from 0 on, how many stand before it: wide numbers, so that any counts fit.
    fn waits(&self) -> Result<Vec<u128>, AllocError>
        ensures { IfOk result (λ waits. AreWaits self.now [] waits.items) }
    {
        let alloc = self.allocator();
        let mut waits = vec![in alloc; 0; self.len() + 1]?;
        for place in 0..self.len() {
            count_up(&mut waits, self.behind(place + 1));
        }
        Ok(waits)
    }

    // For each number from 0 on, one that waits and has to stand before it.
    fn leaders(&self, waits: &[u128]) -> Result<Vec<usize>, AllocError>
        requires { length waits.now ≡ length self.now + 1 }
        ensures { IfOk result (λ leaders. AreLeaders self.now waits.now leaders.items) }
    {
        let alloc = self.allocator();
        let mut leaders = vec![in alloc; 0; self.len() + 1]?;
        for place in 0..self.len() {
            if waits[place + 1] > 0 {
                write_at(&mut leaders, self.behind(place + 1), place + 1);
            }
        }
        Ok(leaders)
    }

    // A cycle among the numbers that wait.
    fn cycle(&self, waits: &[u128]) -> Result<Vec<usize>, AllocError>
        requires { IsStuck self.now waits.now }
        ensures { IfOk result (λ cycle. IsCycle (precedes self.now) cycle.items) }
    {
        let alloc = self.allocator();
        let leaders = self.leaders(waits)?;
        let start = place_of_waiting(waits);
        let (walk, again) = walk_back(alloc, leaders, start)?;
        cycle_of(alloc, &walk, again)
    }

    // Why there is no order: a cycle among the numbers that wait, or no memory for it.
    fn fault(&self, waits: &[u128]) -> OrderFault
        requires { IsStuck self.now waits.now }
        ensures { IsOrderFault (precedes self.now) result }
    {
        match self.cycle(waits) {
            Ok(cycle) => OrderFault::Cycle(cycle),
            Err(_) => OrderFault::Memory,
        }
    }

    /// The least order of all commits in which each stands behind those that have to stand before
    /// it.
    pub fn order(&self) -> Result<Vec<usize>, OrderFault>
        ensures order { IfOk result
            (λ order. least_order (precedes self.now) (length self.now) ≡ Some order.items) }
        ensures cycle { IfErr result (IsOrderFault (precedes self.now)) }
    {
        let alloc = self.allocator();
        let mut waits = self.waits()?;
        let mut passed = BTreeSet::new(alloc);
        let mut next = 1;
        let mut order = Vec::new(alloc);
        for _place in 0..self.len() {
            let Some(number) = take_least(&mut passed, &waits, next) else {
                return Err(self.fault(&waits));
            };
            order.push(number)?;
            next = next.max(number + 1);
            let behind = self.behind(number);
            count_down(&mut waits, behind);
            free_more(&mut passed, &waits, behind, next)?;
        }
        Ok(order)
    }
}
