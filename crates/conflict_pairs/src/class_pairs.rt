//! Pairs of classes of which one asks something of the other.
ghost use Rattle.std.specs.Prelude.{◌≡◌, ◌<◌, ◌≤◌, ◌+◌, ◌^◌, length, All, IfOk};
ghost use Rattle.std.specs.Prelude.{vec_len, vec_capacity};
ghost use Rattle.conflict_pairs.specs.ClassPairs.{AddsRow, AreClassPairs, HaveLastPlaces};
ghost use Rattle.conflict_pairs.specs.Classes.{AreClassesOf};
ghost use Rattle.conflict_pairs.specs.Pairing.{StandsAt};

use crate::classes::{AccessClasses, number_of};
use crate::interning::number_at;
use crate::pairing::PlacePair;
use prog_check::Path;
use prog_paths::{Changers, Placed, asks};
use std::alloc::{AllocError, Global};

/// A part of a list: from `start` on, up to `end`.
#[derive(Clone, Copy)]
pub struct Row {
    pub start: usize,
    pub end: usize,
}

/// The pairs of classes of which one asks something of the other, each by the first access of the
/// one and the last of the other: these ask it if any two do. And for each class its row of pairs.
#[derive(Drop)]
pub struct ClassPairs {
    pub pairs: Vec<PlacePair>,
    pub rows: Vec<Row>,
}

// The accesses that are the last of their class.
fn last_places(alloc: Global, classes: &AccessClasses) -> Result<Vec<Placed>, AllocError>
    requires one_each { length classes.now.numbers.items
        ≡ length classes.now.places.items }
    requires within { All (λ c. c < length classes.now.lasts.items) classes.now.numbers.items }
    ensures { IfOk result (λ places. HaveLastPlaces classes.now places.items) }
{
    let mut places = Vec::new(alloc);
    for (n, place) in classes.places.iter().enumerate() {
        if number_at(&classes.lasts, classes.numbers[n]) as usize == n {
            places.push(*place)?;
        }
    }
    Ok(places)
}

// Adds what the access of a number asks of each, by the numbers of both among all.
fn push_row(classes: &AccessClasses, number: usize, seconds: &[Placed], pairs: &mut Vec<PlacePair>)
    requires few { length classes.now.places.items ≤ 2 ^ 32 }
    requires number { number < length classes.now.places.items }
    requires seconds { All (StandsAt classes.now.starts.items classes.now.places.items)
        seconds.now }
    requires room { vec_len pairs.old + length seconds.now ≤ vec_capacity pairs.old }
    ensures { AddsRow classes.now.places.items number seconds.now pairs.old.items pairs.new.items }
{
    let first = &classes.places[number];
    for second in seconds {
        if asks(first, second) {
            pairs.push_reserved(PlacePair::new(number, number_of(classes, second)));
        }
    }
}

/// All pairs of classes of which one asks something of the other. Only the changers of a class's
/// table are looked through.
pub fn class_pairs(
    alloc: Global,
    paths: &[Path],
    classes: &AccessClasses,
) -> Result<ClassPairs, AllocError>
    requires { AreClassesOf paths.now classes.now }
    ensures { IfOk result (AreClassPairs paths.now classes.now) }
{
    let lasts = last_places(alloc, classes)?;
    let changers = Changers::of(alloc, &lasts)?;
    let mut pairs = Vec::new(alloc);
    let none = Row { start: 0, end: 0 };
    let mut rows = vec![in alloc; none; classes.firsts.len()]?;
    for (n, first) in classes.places.iter().enumerate() {
        let class = classes.numbers[n];
        if number_at(&classes.firsts, class) as usize != n {
            continue;
        }
        let start = pairs.len();
        let seconds = changers.of_table(first.access.table);
        pairs.reserve(seconds.len())?;
        push_row(classes, n, seconds, &mut pairs);
        let end = pairs.len();
        rows[class as usize] = Row { start, end };
    }
    Ok(ClassPairs { pairs, rows })
}
