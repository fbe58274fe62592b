//! What a repair puts into a set, in words.
ghost use Rattle.std.specs.Prelude.{◌≡◌, [], All, IfNone, IfOk, IfSome, string_bytes};
ghost use Rattle.prog_tree.specs.Tree.{draft_tree};
ghost use Rattle.prog_paths.specs.Questions.{ChangesSingleCells};
ghost use Rattle.analysis_words.specs.Repairs.{TellsPair, TellsRepair};

use crate::looks::{first_of_each, look_words, looked_at, reason_words};
use crate::pairs::{pair_sentence, quoted_name};
use crate::shown::Shown;
use crate::shown_set::ShownSet;
use prog_check::ProgramSet;
use prog_paths::Question;
use prog_tree::{Expr, Key, Name, Stmt};
use si_repair::{Pair, exposed_questions, first_exposed};
use std::alloc::{AllocError, Global};

// A set with its text, and what a repair made of it, by keeps behind looks or by new tables.
#[derive(Clone, Copy)]
struct ShownRepair<'a, 'b> {
    shown: Shown<'a>,
    repaired: &'b ProgramSet,
    promoting: bool,
}

// A key of one column, as a repair writes it.
fn key_text(alloc: Global, key: &Key) -> Result<String, AllocError> {
    match key {
        Key::One(Expr::Name(name)) => format!(in alloc; "{name}"),
        Key::One(Expr::Literal(number)) => format!(in alloc; "{number}"),
        _ => format!(in alloc; ".."),
    }
}

// The `keep` statements of a table in the outermost block of a program.
fn keeps_of(
    alloc: Global,
    set: &ProgramSet,
    program: usize,
    wanted: &Name,
) -> Result<String, AllocError> {
    let mut text = String::new(alloc);
    let Some(program) = set.draft().programs.get(program) else {
        return Ok(text);
    };
    for stmt in &program.body.stmts {
        let Stmt::Keep { table, key } = stmt else {
            continue;
        };
        if table.is_same(wanted) {
            let key = key_text(alloc, key)?;
            let and = if text.is_empty() { "" } else { " and " };
            write!(text, "{and}`keep {table}[{key}];`")?;
        }
    }
    Ok(text)
}

// The statements that a pair with a new table gets.
fn new_keeps(
    alloc: Global,
    repair: ShownRepair<'_, '_>,
    pair: Pair,
    table: &Name,
) -> Result<String, AllocError> {
    let first = keeps_of(alloc, repair.repaired, pair.from, table)?;
    if pair.from == pair.to {
        return format!(in alloc; "; put at its head: {first}");
    }
    let second = keeps_of(alloc, repair.repaired, pair.to, table)?;
    if first.as_str() == second.as_str() {
        return format!(in alloc; "; put at the head of both: {first}");
    }
    let from = quoted_name(alloc, repair.repaired, pair.from)?;
    let to = quoted_name(alloc, repair.repaired, pair.to)?;
    format!(in alloc; "; put at the head of {from}: {first}, and of {to}: {second}")
}

// What is put where for the pair of this number in the plan.
fn put_text(
    alloc: Global,
    repair: ShownRepair<'_, '_>,
    number: usize,
    pair: Pair,
) -> Result<String, AllocError> {
    if repair.promoting {
        return format!(in alloc; "; put behind each such look: a `keep` of its cell");
    }
    let old = repair.shown.set.draft().tables.len();
    match repair
        .repaired
        .draft()
        .tables
        .get(old.saturating_add(number))
    {
        Some(table) => new_keeps(alloc, repair, pair, &table.name),
        None => Ok(String::new(alloc)),
    }
}

// Each look that has a `keep` behind it now.
fn promoted_words(
    alloc: Global,
    shown: Shown<'_>,
    questions: &[Question],
) -> Result<String, AllocError> {
    let firsts = first_of_each(alloc, shown, questions)?;
    let mut words = String::new(alloc);
    for question in &firsts {
        let cells = looked_at(alloc, shown, *question)?;
        let what = format!(in alloc; "`keep {cells};` now stands behind this look")?;
        let look = look_words(alloc, shown, *question, &what)?;
        words.push_str(&look)?;
    }
    Ok(words)
}

// The looks for which a pair is kept apart: each one that has a `keep` now, else the first.
fn reasons(alloc: Global, repair: ShownRepair<'_, '_>, pair: Pair) -> Result<String, AllocError>
    requires { All ChangesSingleCells repair.shown.paths.now }
{
    let paths = repair.shown.paths;
    if repair.promoting {
        let questions = exposed_questions(alloc, paths, pair)?;
        return promoted_words(alloc, repair.shown, &questions);
    }
    let first = first_exposed(alloc, paths, pair)?;
    reason_words(alloc, repair.shown, first.as_ref())
}

// The pair of this number in the plan: what is put where, and why.
fn pair_words(
    alloc: Global,
    repair: ShownRepair<'_, '_>,
    number: usize,
    pair: Pair,
) -> Result<String, AllocError>
    requires { All ChangesSingleCells repair.shown.paths.now }
    ensures { IfOk result (λ words. TellsPair (draft_tree repair.entry.shown.set.now) pair
        (string_bytes words)) }
{
    let put = put_text(alloc, repair, number, pair)?;
    let verb = "could miss a change of";
    let sentence = pair_sentence(alloc, repair.shown.set, pair, verb, &put)?;
    let reasons = reasons(alloc, repair, pair)?;
    format!(in alloc; "{sentence}{reasons}")
}

/// What a repair has put into a set for each pair of its plan, in order, and why; nothing where
/// nothing had to be repaired.
pub fn repair_words(
    alloc: Global,
    text: &[u8],
    set: &ProgramSet,
    repaired: &ProgramSet,
    pairs: &[Pair],
    promoting: bool,
) -> Result<Option<String>, AllocError>
    ensures said { IfOk result (λ said. IfSome said (λ words.
        TellsRepair (draft_tree set.now) pairs.now (string_bytes words))) }
    ensures some { IfOk result (λ said. IfSome said (λ words. ¬ (pairs.now ≡ []))) }
    ensures none { IfOk result (λ said. IfNone said (pairs.now ≡ [])) }
{
    if pairs.is_empty() {
        return Ok(None);
    }
    let whole = ShownSet::new(alloc, text, set)?;
    let shown = whole.shown();
    let repair = ShownRepair {
        shown,
        repaired,
        promoting,
    };
    let mut words = format!(in alloc;
        "repaired: the two of each of these pairs clash now where both are under way at once\n"
    )?;
    for (number, pair) in pairs.iter().enumerate() {
        let said = pair_words(alloc, repair, number, *pair)?;
        words.push_str(&said)?;
    }
    Ok(Some(words))
}
