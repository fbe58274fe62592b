//! Classes of accesses: what is said of one is said of each other of its class.
ghost use Rattle.std.specs.Prelude.{◌≡◌, ◌⊎◌, ◌↔◌, ◌<◌, ◌≤◌, ◌^◌, ℕ, [], length, All, IfOk, OnOk};
ghost use Rattle.std.specs.Prelude.{Contains, set, slice_index_or};
ghost use Rattle.prog_paths.specs.Places.{all_from};
ghost use Rattle.conflict_pairs.specs.Classes.{HasCoverClass, AreOneClass, AreNumbered};
ghost use Rattle.conflict_pairs.specs.Classes.{AreFirsts, AreLasts, AreNodes, AreClassesOf};
ghost use Rattle.conflict_pairs.specs.Classes.{class_at, starts_from, nodes_at};
ghost use Rattle.conflict_pairs.specs.Pairing.{StandsAt, place_at};

use crate::alike::{are_alike, cover_classes_of};
use crate::hashes::{access_hash, mix};
use crate::interning::{Interned, Interner, intern_all, number_at};
use crate::limits::MAX_PLACES;
use prog_check::Path;
use prog_paths::{Placed, all_places};
use std::alloc::{AllocError, Global};

/// The accesses of a list of paths and their classes. Two accesses of one class are alike, and so
/// are the covers of their nodes.
#[derive(Drop)]
pub struct AccessClasses {
    /// All accesses, and for each node where its own begin among them.
    pub places: Vec<Placed>,
    pub starts: Vec<usize>,
    /// For each access the number of its class.
    pub numbers: Vec<u32>,
    /// For each class its first access and its last, and the nodes that have one.
    pub firsts: Vec<u32>,
    pub lasts: Vec<u32>,
    pub nodes: Vec<Vec<usize>>,
}

// Gives one number to the accesses of one class.
#[derive(Drop)]
struct Numbering<'a> {
    // For each node the first one with the same covers.
    classes: &'a [usize],
}

impl<'a> Interner for Numbering<'a> {
    type Key = Placed;

    type Value = Placed;

    ghost takes = { λ numbering place. HasCoverClass numbering.classes.now place };

    ghost is_sound = { λ numbering first. HasCoverClass numbering.classes.now first };

    ghost serves = { λ numbering place first. AreOneClass numbering.classes.now place first };

    fn hash(&self, place: &Placed) -> usize {
        mix(self.classes[place.node], access_hash(&place.access))
    }

    fn is_served(&self, place: &Placed, first: &Placed) -> bool {
        self.classes[place.node] == self.classes[first.node]
            && are_alike(&place.access, &first.access)
    }

    fn make(&self, _: Global, place: &Placed) -> Result<Placed, AllocError> {
        Ok(*place)
    }
}

// For each access the number of its class, as far as classes are remembered, and how many numbers
// there are.
fn numbers_of(
    alloc: Global,
    classes: &[usize],
    places: &[Placed],
) -> Result<(Vec<u32>, usize), AllocError>
    requires { All (HasCoverClass classes.now) places.now }
    ensures numbered { IfOk result (λ told. AreNumbered classes.now places.now told.0.items) }
    ensures within { IfOk result (λ told. All (λ c. c < told.1) told.0.items) }
{
    let Interned { values, numbers } = intern_all(alloc, &Numbering { classes }, places)?;
    Ok((numbers, values.len()))
}

// For each node where its accesses begin among all.
fn starts_of(alloc: Global, paths: &[Path]) -> Result<Vec<usize>, AllocError>
    requires { length (all_from 0 paths.now) < 2 ^ 64 }
    ensures { IfOk result (λ starts. starts.items ≡ starts_from 0 paths.now) }
{
    let mut starts = Vec::with_capacity(alloc, paths.len())?;
    let mut start = 0;
    for path in paths {
        starts.push(start)?;
        start += path.accesses.as_slice().len();
    }
    Ok(starts)
}

// Enters an access under the number of its class.
fn enter(marks: &mut Vec<u32>, numbers: &[u32], n: usize)
    requires few { length numbers.now ≤ 2 ^ 32 }
    requires number { n < length numbers.now }
    requires class { slice_index_or numbers.now n 0 < length marks.old.items }
    ensures { marks.new.items ≡ set marks.old.items (slice_index_or numbers.now n 0) n }
{
    marks[numbers[n] as usize] = n as u32;
}

// For each class its first access.
fn firsts_of(alloc: Global, numbers: &[u32], count: usize) -> Result<Vec<u32>, AllocError>
    requires few { length numbers.now ≤ 2 ^ 32 }
    requires within { All (λ c. c < count) numbers.now }
    ensures firsts { IfOk result (λ firsts. AreFirsts numbers.now firsts.items) }
    ensures size { IfOk result (λ firsts. length firsts.items ≡ count) }
{
    let mut firsts = vec![in alloc; 0; count]?;
    let mut n = numbers.len();
    while n > 0 {
        n -= 1;
        enter(&mut firsts, numbers, n);
    }
    Ok(firsts)
}

// For each class its last access.
fn lasts_of(alloc: Global, numbers: &[u32], count: usize) -> Result<Vec<u32>, AllocError>
    requires few { length numbers.now ≤ 2 ^ 32 }
    requires within { All (λ c. c < count) numbers.now }
    ensures { IfOk result (λ lasts. AreLasts numbers.now lasts.items) }
{
    let mut lasts = vec![in alloc; 0; count]?;
    for n in 0..numbers.len() {
        enter(&mut lasts, numbers, n);
    }
    Ok(lasts)
}

// Adds a node, unless it was added last.
fn push_node(nodes: &mut Vec<usize>, node: usize) -> Result<(), AllocError>
    ensures { OnOk result ((x : ℕ) → Contains nodes.new.items x
        ↔ (Contains nodes.old.items x ⊎ (x ≡ node))) }
{
    if nodes.last() == Some(&node) {
        return Ok(());
    }
    nodes.push(node)?;
    Ok(())
}

// So many lists without nodes.
fn empty_lists(alloc: Global, count: usize) -> Result<Vec<Vec<usize>>, AllocError>
    ensures size { IfOk result (λ lists. length lists.items ≡ count) }
    ensures empty { IfOk result (λ lists. (c : ℕ) → nodes_at lists.items c ≡ []) }
{
    let mut lists = Vec::with_capacity(alloc, count)?;
    for _ in 0..count {
        lists.push(Vec::new(alloc))?;
    }
    Ok(lists)
}

// For each class the nodes that have an access of it.
fn nodes_of(
    alloc: Global,
    places: &[Placed],
    numbers: &[u32],
    count: usize,
) -> Result<Vec<Vec<usize>>, AllocError>
    requires one_each { length numbers.now ≡ length places.now }
    requires within { All (λ c. c < count) numbers.now }
    ensures { IfOk result (λ nodes. AreNodes places.now numbers.now nodes.items) }
{
    let mut nodes = empty_lists(alloc, count)?;
    for n in 0..places.len() {
        push_node(&mut nodes[numbers[n] as usize], places[n].node)?;
    }
    Ok(nodes)
}

/// The number among all of an access that has its number there.
pub fn number_of(classes: &AccessClasses, place: &Placed) -> usize
    requires few { length classes.now.places.items ≤ 2 ^ 32 }
    requires stands { StandsAt classes.now.starts.items classes.now.places.items place.now }
    ensures within { result < length classes.now.places.items }
    ensures is { place_at classes.now.places.items result ≡ place.now }
{
    classes.starts[place.node] + place.number
}

/// The nodes that have an access of the class of this one, whose number among all is given.
pub fn nodes_like(classes: &AccessClasses, access: u32) -> &[usize]
    requires access { access < length classes.now.numbers.items }
    requires class { class_at classes.now access < length classes.now.nodes.items }
    ensures { result.now ≡ nodes_at classes.now.nodes.items (class_at classes.now access) }
{
    let class = number_at(&classes.numbers, access);
    &classes.nodes[class as usize]
}

/// The accesses of a list of paths, and their classes.
pub fn classes_of(alloc: Global, paths: &[Path]) -> Result<AccessClasses, AllocError>
    ensures { IfOk result (AreClassesOf paths.now) }
{
    let places = all_places(alloc, paths)?;
    if places.len() > MAX_PLACES {
        return Err(AllocError);
    }
    let starts = starts_of(alloc, paths)?;
    let covers = cover_classes_of(alloc, paths)?;
    let (numbers, count) = numbers_of(alloc, &covers, &places)?;
    let firsts = firsts_of(alloc, &numbers, count)?;
    let lasts = lasts_of(alloc, &numbers, count)?;
    let nodes = nodes_of(alloc, &places, &numbers, count)?;
    Ok(AccessClasses {
        places,
        starts,
        numbers,
        firsts,
        lasts,
        nodes,
    })
}
