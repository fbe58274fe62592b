//! What statements note in the progress of a run. Want of memory leaves it as it was.
ghost use Rattle.std.specs.Prelude.{◌≡◌, OnOk, OnErr};
ghost use Rattle.prog_tree.specs.Steps.{bound, did};
ghost use Rattle.prog_tree.specs.Evaluation.{begun_turn};
ghost use Rattle.prog_run.specs.Statement.{written_by};
ghost use Rattle.prog_run.specs.Todo.{named};

use crate::block::Turn;
use prog_tree::{Deed, Name, Progress};
use std::alloc::AllocError;

/// A look at the store gave a value, which a name is bound to.
pub fn note_found<'a>(
    progress: &mut Progress<'a>,
    name: &'a Name,
    value: i64,
    deed: Deed,
) -> Result<(), AllocError>
    ensures ok { OnOk result (progress.new ≡ bound name.now value (did deed progress.old)) }
    ensures err { OnErr result (progress.new ≡ progress.old) }
{
    let names = progress.env.len();
    progress.env.bind(name, value)?;
    let Ok(()) = progress.deeds.push(deed) else {
        progress.env.cut(names);
        return Err(AllocError);
    };
    Ok(())
}

/// A turn of an `each` begins: its two names are bound.
pub fn note_turn<'a>(progress: &mut Progress<'a>, turn: Turn<'a>) -> Result<(), AllocError>
    ensures ok { OnOk result (progress.new ≡ begun_turn
        (named turn.entry.names.key.now turn.entry.names.value.now)
        (turn.entry.key, turn.entry.value) progress.old) }
    ensures err { OnErr result (progress.new ≡ progress.old) }
{
    let names = progress.env.len();
    progress.env.bind(turn.names.key, turn.key)?;
    let Ok(()) = progress.env.bind(turn.names.value, turn.value) else {
        progress.env.cut(names);
        return Err(AllocError);
    };
    Ok(())
}

/// A deed of the store is done: what it changes is changed, and it is told.
pub fn note_deed(progress: &mut Progress<'_>, deed: Deed) -> Result<(), AllocError>
    ensures ok { OnOk result (progress.new ≡ did deed (written_by deed progress.old)) }
    ensures err { OnErr result (progress.new ≡ progress.old) }
{
    let deeds = progress.deeds.len();
    progress.deeds.push(deed)?;
    let written = match deed {
        Deed::Put(cell, value) => progress.changes.put(cell, value),
        Deed::Removed(cell) => progress.changes.remove(cell),
        Deed::Kept(cell) => progress.changes.keep(cell),
        _ => Ok(()),
    };
    let Ok(()) = written else {
        progress.deeds.truncate(deeds);
        return Err(AllocError);
    };
    Ok(())
}
