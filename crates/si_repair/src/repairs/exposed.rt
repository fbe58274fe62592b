//! The exposed questions of a pair of programs.
ghost use Rattle.std.specs.Prelude.{◌↔◌, [], ◌∷◌, All, IfOk, IsTrue};
ghost use Rattle.prog_paths.specs.Questions.{ChangesSingleCells, numbers_of, question_between};
ghost use Rattle.prog_paths.specs.Places.{IsAt};
ghost use Rattle.conflict_pairs.specs.Verdicts.{TellsExposed};
ghost use Rattle.si_repair.specs.Exposed.{AreExposed, IsFirstExposed, ArePlacesOfPair, MayMiss};
ghost use Rattle.si_repair.specs.Exposed.{IsExposedTo, AreExposedAmong};

use conflict_pairs::is_exposed_question;
use prog_check::Path;
use prog_paths::{Placed, Question, asks_read_write, program_places, question_between};
use repair_laws::Pair;
use std::alloc::{AllocError, Global};

/// The accesses on the paths of a pair's two programs. Those of the first may miss what those of
/// the second change.
#[derive(Drop)]
pub struct PairPlaces {
    pub reads: Vec<Placed>,
    pub changes: Vec<Placed>,
}

/// The accesses of the paths of both, each at its place.
pub fn places_of_pair(alloc: Global, paths: &[Path], pair: Pair) -> Result<PairPlaces, AllocError>
    ensures { IfOk result (λ places.
        ArePlacesOfPair paths.now pair places.reads.items places.changes.items) }
{
    let reads = program_places(alloc, paths, pair.from)?;
    let changes = program_places(alloc, paths, pair.to)?;
    Ok(PairPlaces { reads, changes })
}

// Whether both use one table, and the first may miss what the second changes.
fn may_miss(first: &Placed, second: &Placed) -> bool
    ensures { IsTrue result ↔ MayMiss first.now second.now }
{
    first.access.table == second.access.table
        && asks_read_write(first.access.kind, second.access.kind)
}

// Whether what an access may miss of another is exposed.
fn exposed_between(
    alloc: Global,
    paths: &[Path],
    first: &Placed,
    second: &Placed,
) -> Result<bool, AllocError>
    requires single { All ChangesSingleCells paths.now }
    requires first { IsAt paths.now first.now }
    requires second { IsAt paths.now second.now }
    requires misses { MayMiss first.now second.now }
    ensures { IfOk result (λ exposed.
        TellsExposed paths.now (numbers_of (question_between first.now second.now)) exposed) }
{
    let x = &paths[first.node];
    let y = &paths[second.node];
    is_exposed_question(alloc, x, first.number, y, second.number)
}

// Whether the first may miss what the second changes, and no two accesses cover them.
fn is_exposed(
    alloc: Global,
    paths: &[Path],
    first: &Placed,
    second: &Placed,
) -> Result<bool, AllocError>
    requires single { All ChangesSingleCells paths.now }
    requires first { IsAt paths.now first.now }
    requires second { IsAt paths.now second.now }
    ensures { IfOk result (λ exposed. IsTrue exposed ↔ IsExposedTo paths.now first.now second.now) }
{
    if !may_miss(first, second) {
        return Ok(false);
    }
    exposed_between(alloc, paths, first, second)
}

/// The questions of an access that is exposed to some of others.
pub fn exposed_to(
    alloc: Global,
    paths: &[Path],
    first: &Placed,
    seconds: &[Placed],
) -> Result<Vec<Question>, AllocError>
    requires single { All ChangesSingleCells paths.now }
    requires first { IsAt paths.now first.now }
    requires seconds { All (IsAt paths.now) seconds.now }
    ensures { IfOk result (λ questions.
        AreExposedAmong paths.now (first.now ∷ []) seconds.now questions.items) }
{
    let mut questions = Vec::new(alloc);
    for second in seconds {
        if is_exposed(alloc, paths, first, second)? {
            questions.push(question_between(first, second))?;
        }
    }
    Ok(questions)
}

/// The exposed questions of a pair, in order: its first program may miss what its second changes,
/// and no two accesses cover it.
pub fn exposed_questions(
    alloc: Global,
    paths: &[Path],
    pair: Pair,
) -> Result<Vec<Question>, AllocError>
    requires { All ChangesSingleCells paths.now }
    ensures { IfOk result (λ questions. AreExposed paths.now pair questions.items) }
{
    let places = places_of_pair(alloc, paths, pair)?;
    let reads = places.reads.as_slice();
    let changes = places.changes.as_slice();
    let mut questions = Vec::new(alloc);
    for read in reads {
        let exposed = exposed_to(alloc, paths, read, changes)?;
        questions.extend_from_slice(&exposed)?;
    }
    Ok(questions)
}

/// The first of the exposed questions of a pair, or none; of no access behind the one that asks it
/// is anything judged.
pub fn first_exposed(
    alloc: Global,
    paths: &[Path],
    pair: Pair,
) -> Result<Option<Question>, AllocError>
    requires { All ChangesSingleCells paths.now }
    ensures { IfOk result (λ found. IsFirstExposed paths.now pair found) }
{
    let places = places_of_pair(alloc, paths, pair)?;
    let reads = places.reads.as_slice();
    let changes = places.changes.as_slice();
    for place in reads {
        let questions = exposed_to(alloc, paths, place, changes)?;
        let found = questions.first().copied();
        if found.is_some() {
            return Ok(found);
        }
    }
    Ok(None)
}
