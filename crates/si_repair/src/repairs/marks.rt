//! The statements behind which a cell is to be kept.
ghost use Rattle.std.specs.Prelude.{◌≡◌, ◌||◌, ℕ, All, OnOk};
ghost use Rattle.std.specs.List.{list_any};
ghost use Rattle.si_repair.specs.Exposed.{HasRead};
ghost use Rattle.si_repair.specs.Marks.{is_marked, is_at, reads_at, place_of};

use prog_check::Path;
use prog_paths::Question;
use repair_laws::Pair;
use std::alloc::AllocError;

/// The statement of a number in the program of a number.
#[derive(Clone, Copy, Debug, PartialEq, Eq)]
pub struct MarkedStatement {
    pub program: usize,
    pub number: usize,
}

fn is_at(mark: &MarkedStatement, program: usize, number: usize) -> bool
    ensures { result ≡ is_at program number mark.now }
{
    mark.program == program && mark.number == number
}

/// Whether a statement is one of those that are marked.
pub fn is_marked(marks: &[MarkedStatement], program: usize, number: usize) -> bool
    ensures { result ≡ is_marked marks.now program number }
{
    marks.iter().any(|mark| is_at(mark, program, number))
}

// Adds a mark, unless it is there.
fn push_mark(marks: &mut Vec<MarkedStatement>, mark: MarkedStatement) -> Result<(), AllocError>
    ensures { OnOk result ((program number : ℕ)
        → is_marked marks.new.items program number
        ≡ (is_marked marks.old.items program number || is_at program number mark)) }
{
    if is_marked(marks, mark.program, mark.number) {
        return Ok(());
    }
    marks.push(mark)?;
    Ok(())
}

// The number of the statement that asks a question.
fn place_of(paths: &[Path], question: &Question) -> usize
    requires { HasRead paths.now question.now }
    ensures { result ≡ place_of paths.now question.now }
{
    paths[question.x].accesses.as_slice()[question.a].place
}

/// Adds the statements of a pair's exposed reads.
pub fn push_reads(
    marks: &mut Vec<MarkedStatement>,
    paths: &[Path],
    pair: Pair,
    questions: &[Question],
) -> Result<(), AllocError>
    requires { All (HasRead paths.now) questions.now }
    ensures { OnOk result ((program number : ℕ)
        → is_marked marks.new.items program number
        ≡ (is_marked marks.old.items program number
        || list_any (reads_at paths.now pair program number) questions.now)) }
{
    for question in questions {
        let mark = MarkedStatement {
            program: pair.from,
            number: place_of(paths, question),
        };
        push_mark(marks, mark)?;
    }
    Ok(())
}
