//! Draws of numbers by several passes of one counter.

ghost use Rattle.std.specs.Prelude.{◌≡◌};
ghost use Rattle.job_counter.specs.Passes.{counter_of, name_of};

use job_counter::{Counter, Pass};
use std::alloc::{AllocError, Global};
use std::process::Abort;
use std::thread::{self, Threads};

#[test]
fn three_numbers(rt: HostRuntime) -> Result<(), AllocError> {
    let (counter, mut pass) = Counter::open(rt.alloc(), 3)?;
    let one = counter.draw(&mut pass);
    let left = pass.left();
    let (mut first, mut second) = counter.split(pass, 2);
    let rest = [
        counter.draw(&mut first),
        counter.draw(&mut second),
        counter.draw(&mut second),
        counter.draw(&mut second),
    ];
    let pass = counter.join(first, second);
    let behind = pass.left();
    let drawn = counter.close(pass);
    assert!(rt; one == Some(0) && rest == [None, Some(1), Some(2), None]);
    assert!(rt; [left, behind, drawn] == [2, 0, 3]);
    Ok(())
}

// Draws until the pass has nothing left.
fn drawn(alloc: Global, counter: &Counter, pass: &mut Pass) -> Result<Vec<u64>, AllocError>
    requires { counter_of pass.old ≡ name_of counter.now }
    ensures { counter_of pass.new ≡ counter_of pass.old }
{
    let mut numbers = Vec::new(alloc);
    while let Some(number) = counter.draw(pass) {
        numbers.push(number)?;
    }
    Ok(numbers)
}

// Whether these are the numbers below a bound, each once.
fn are_each_once(numbers: &[u64], bound: u64) -> bool {
    numbers.iter().copied().eq(0..bound)
}

// Asserts that two workers drew so many numbers each, and all together each number once.
fn check_drawn(rt: &impl Abort, numbers: &mut Vec<u64>, others: &[u64]) -> Result<(), AllocError> {
    assert!(rt; [numbers.len(), others.len()] == [500, 500]);
    numbers.extend_from_slice(others)?;
    numbers.sort()?;
    assert!(rt; are_each_once(numbers, 1000));
    Ok(())
}

// What both passes draw, each by a thread of its own.
fn drawn_by_two(
    rt: &(impl Threads + Sync),
    alloc: Global,
    counter: &Counter,
    first: &mut Pass,
    second: &mut Pass,
) -> (Result<Vec<u64>, AllocError>, Result<Vec<u64>, AllocError>)
    requires first { counter_of first.old ≡ name_of counter.now }
    requires second { counter_of second.old ≡ name_of counter.now }
    ensures first { counter_of first.new ≡ counter_of first.old }
    ensures second { counter_of second.new ≡ counter_of second.old }
{
    thread::join_mut(
        rt,
        &mut || drawn(alloc, counter, first),
        &mut || drawn(alloc, counter, second),
    )
}

#[test]
fn two_threads(rt: HostRuntime) -> Result<(), AllocError> {
    let (counter, pass) = Counter::open(rt.alloc(), 1000)?;
    let (mut first, mut second) = counter.split(pass, 500);
    let (one, other) = drawn_by_two(&rt, rt.alloc(), &counter, &mut first, &mut second);
    let pass = counter.join(first, second);
    assert!(rt; counter.close(pass) == 1000);
    check_drawn(&rt, &mut one?, &other?)
}
