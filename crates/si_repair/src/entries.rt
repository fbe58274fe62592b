//! The entries of a certificate: what is told of all questions that are not exposed, in parts that
//! several threads tell where there are many.
ghost use Rattle.std.specs.Prelude.{◌≡◌, ◌<◌, ◌≤◌, ◌+◌, ◌++◌, All, IfOk, List, vec_len};
ghost use Rattle.std.specs.Prelude.{vec_capacity};
ghost use Rattle.conflict_pairs.specs.Listed.{AreChangersOf};
ghost use Rattle.prog_paths.specs.Few.{AreFew};
ghost use Rattle.prog_paths.specs.Places.{IsAt};
ghost use Rattle.prog_paths.specs.Questions.{asked_among, questions_of};
ghost use Rattle.robust_cert.specs.Sharing.{entries_told, HasReason};
ghost use Rattle.prog_check.specs.declared.path.Path.{Path};
ghost use Rattle.prog_paths.specs.declared.accesses.places.Placed.{Placed};
ghost use Rattle.robust_cert.specs.declared.entries.Reason.{Reason};
ghost use Rattle.si_repair.specs.Certificates.{told_of, told_numbered, told_question};
ghost use Rattle.si_repair.specs.Certificates.{AreEntriesOf, AreGiven, AreOfFew, AskedFits};
ghost use Rattle.si_repair.specs.Certificates.{IsToldOf};
ghost use Rattle.si_repair.specs.Telling.{IsPartTold, firsts_in};

use crate::certificate::as_u32;
use crate::reasons::reasons_of;
use conflict_pairs::{ClassTable, Interned, Question, TablePart, Verdict};
use prog_paths::{Changers, Placed};
use rayon::prelude::*;
use robust_cert::{Entries, EntryQuestion, Reason, Told};
use std::alloc::{AllocError, Global};
use std::thread::Threads;

// What fewer accesses than these ask one thread tells.
const MIN_ACCESSES_OF_THREADS: usize = 256;

// What more ask is told in about so many parts of equal length.
const TOLD_PARTS: usize = 16;

fn told_question(asked: Question) -> EntryQuestion
    requires { AskedFits asked }
    ensures { result ≡ told_question asked }
{
    EntryQuestion {
        x: as_u32(asked.x),
        a: as_u32(asked.a),
        y: as_u32(asked.y),
        b: as_u32(asked.b),
    }
}

// Adds a question with the number of its reason, unless it is exposed.
fn push_told(asked: Question, verdict: &Verdict, number: u32, told: &mut Vec<Told>)
    requires fits { AskedFits asked }
    requires room { vec_len told.old < vec_capacity told.old }
    ensures added { told.new.items ≡ told.old.items ++ told_numbered asked verdict.now number }
    ensures len { vec_len told.new ≤ vec_len told.old + 1 }
    ensures capacity { vec_capacity told.new ≡ vec_capacity told.old }
{
    if verdict.is_exposed() {
        return;
    }
    let question = told_question(asked);
    told.push_reserved(Told {
        question,
        reason: number,
    });
}

// What is told of the questions of a part that are not exposed, by the numbers of their reasons.
fn told_of_part(
    alloc: Global,
    part: &TablePart<'_>,
    given: &Interned<Reason>,
) -> Result<Vec<Told>, AllocError>
    requires few { AreOfFew part.now.entries }
    requires given { AreGiven part.now.verdicts given.now.values.items given.now.numbers.items }
    ensures entries { IfOk result (λ told.
        entries_told given.now.values.items told.items ≡ told_of part.now.entries) }
    ensures within { IfOk result (λ told. All (HasReason given.now.values.items) told.items) }
{
    let mut told = Vec::with_capacity(alloc, part.len())?;
    for n in 0..part.len() {
        let number = given.numbers[part.verdict_number(n)];
        push_told(part.question(n), part.verdict(n), number, &mut told);
    }
    Ok(told)
}

// What is told of the questions that some accesses ask.
fn told_of_some(
    alloc: Global,
    table: &ClassTable<'_>,
    changers: &Changers,
    given: &Interned<Reason>,
    firsts: &[Placed],
) -> Result<Vec<Told>, AllocError>
    requires few { AreFew table.now.paths }
    requires changers { AreChangersOf table.now.places changers.now }
    requires given { AreGiven table.now.verdicts given.now.values.items given.now.numbers.items }
    requires firsts { All (λ p. IsAt table.now.paths p) firsts.now }
    ensures { IfOk result (λ told. IsToldOf table.now.paths given.now.values.items
        (asked_among firsts.now table.now.places) told.items) }
{
    let listed = table.listed_of(alloc, changers, firsts)?;
    let told = told_of_part(alloc, &table.part(&listed), given)?;
    Ok(told)
}

/// All entries of the paths of a table.
pub fn entries_of(alloc: Global, table: &ClassTable<'_>) -> Result<Entries, AllocError>
    requires { AreFew table.now.paths }
    ensures { IfOk result (AreEntriesOf table.now.paths) }
{
    let given = reasons_of(alloc, table.verdicts())?;
    let changers = table.changers(alloc)?;
    let told = told_of_some(alloc, table, &changers, &given, table.places())?;
    Ok(Entries::of(told, given.values))
}

/// What some of the accesses ask, and what is told of it, once a thread has.
#[derive(Drop)]
pub struct ToldPart<'t> {
    pub firsts: &'t [Placed],
    pub told: Result<Vec<Told>, AllocError>,
}

// How many accesses a part has, of so many.
fn part_len(accesses: usize) -> usize
    ensures { 0 < result }
{
    (accesses / TOLD_PARTS).max(MIN_ACCESSES_OF_THREADS)
}

// All accesses in parts, of which nothing is told.
fn parts_of<'t>(alloc: Global, places: &'t [Placed]) -> Result<Vec<ToldPart<'t>>, AllocError>
    ensures { IfOk result (λ parts. firsts_in parts.items ≡ places.now) }
{
    let mut parts = Vec::new(alloc);
    let len = part_len(places.len());
    let mut left = places;
    while !left.is_empty() {
        let (firsts, behind) = left.split_at(len.min(left.len()));
        let told = Ok(Vec::new(alloc));
        parts.push(ToldPart { firsts, told })?;
        left = behind;
    }
    Ok(parts)
}

// Has threads tell what the accesses of each part ask.
fn tell_parts(
    rt: &(impl Threads + Sync),
    alloc: Global,
    table: &ClassTable<'_>,
    changers: &Changers,
    given: &Interned<Reason>,
    parts: &mut Vec<ToldPart<'_>>,
)
    requires few { AreFew table.now.paths }
    requires changers { AreChangersOf table.now.places changers.now }
    requires given { AreGiven table.now.verdicts given.now.values.items given.now.numbers.items }
    requires firsts { All (λ p. IsAt table.now.paths p) (firsts_in parts.old.items) }
    ensures firsts { firsts_in parts.new.items ≡ firsts_in parts.old.items }
    ensures told { All (IsPartTold table.now.paths given.now.values.items table.now.places)
        parts.new.items }
{
    par_for_each_mut(
        rt,
        parts,
        |_n: usize, part: &mut ToldPart|
            requires few { AreFew table.now.paths }
            requires changers { AreChangersOf table.now.places changers.now }
            requires given { AreGiven table.now.verdicts given.now.values.items
                given.now.numbers.items }
            requires firsts { All (λ p. IsAt table.now.paths p) part.old.firsts.now }
            ensures firsts { part.new.firsts.now ≡ part.old.firsts.now }
            ensures told { IsPartTold table.entry.now.paths given.entry.now.values.items
                table.entry.now.places part.new }
        { part.told = told_of_some(alloc, table, changers, given, part.firsts) },
    );
}

// How much all parts tell, for the room that it takes.
fn told_count(parts: &[ToldPart<'_>]) -> usize {
    let mut count: usize = 0;
    for part in parts {
        if let Ok(told) = &part.told {
            count = count.saturating_add(told.len());
        }
    }
    count
}

// What all parts tell, one part after the other.
fn joined(alloc: Global, parts: Vec<ToldPart<'_>>) -> Result<Vec<Told>, AllocError>
    ensures { IfOk result (λ told. (paths : List Path) (reasons : List Reason)
        (places : List Placed) → All (IsPartTold paths reasons places) parts.entry.items
        → IsToldOf paths reasons (asked_among (firsts_in parts.entry.items) places) told.items) }
{
    let mut told = Vec::with_capacity(alloc, told_count(&parts))?;
    for part in parts {
        let mut of_part = part.told?;
        told.append(&mut of_part)?;
    }
    Ok(told)
}

/// The same as `entries_of`, by several threads where there are many.
pub fn entries_of_par(
    rt: &(impl Threads + Sync),
    alloc: Global,
    table: &ClassTable<'_>,
) -> Result<Entries, AllocError>
    requires { AreFew table.now.paths }
    ensures { IfOk result (AreEntriesOf table.now.paths) }
{
    let given = reasons_of(alloc, table.verdicts())?;
    let changers = table.changers(alloc)?;
    let mut parts = parts_of(alloc, table.places())?;
    tell_parts(rt, alloc, table, &changers, &given, &mut parts);
    let told = joined(alloc, parts)?;
    Ok(Entries::of(told, given.values))
}
