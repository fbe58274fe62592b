//! The committing paths of a set.
ghost use Rattle.std.specs.Prelude.{◌≡◌, ◌≤◌, ◌++◌, map, All, IfOk, OnOk};
ghost use Rattle.prog_tree.specs.Tree.{draft_tree, program_tree};
ghost use Rattle.prog_check.specs.Paths.{statement_count, program_paths, paths_of};
ghost use Rattle.prog_paths.specs.Few.{AreFew};
ghost use Rattle.prog_paths.specs.Questions.{ChangesSingleCells};
ghost use Rattle.prog_paths.specs.Trails.{path_with};

use crate::path::trail::Trail;
use crate::path::walk::walk_block;
use prog_check::{MAX_STATEMENTS, Path, ProgramSet};
use prog_tree::{Program, Sequence};
use std::alloc::{AllocError, Global};

fn push_paths(number: usize, trails: Vec<Trail>, paths: &mut Vec<Path>) -> Result<(), AllocError>
    ensures { OnOk result
        (paths.new.items ≡ paths.old.items ++ map (path_with number) trails.items) }
{
    for trail in trails {
        let Trail {
            choices,
            accesses,
            unknown: _,
        } = trail;
        paths.push(Path {
            program: number,
            choices,
            accesses,
        })?;
    }
    Ok(())
}

// Adds the committing paths of a program of this number.
fn add_paths(
    alloc: Global,
    set: &ProgramSet,
    number: usize,
    program: &Program,
    paths: &mut Vec<Path>,
) -> Result<(), AllocError>
    requires { statement_count (program_tree program.now).body ≤ MAX_STATEMENTS }
    ensures { OnOk result (paths.new.items ≡ paths.old.items
        ++ program_paths set.now.tables.items number (program_tree program.now)) }
{
    let start = Trail {
        choices: Sequence::new(alloc),
        accesses: Sequence::new(alloc),
        unknown: 0,
    };
    let trails = walk_block(alloc, set, &program.params, 0, &program.body, start)?;
    push_paths(number, trails, paths)?;
    Ok(())
}

/// The committing paths of a set, program by program, those through a branch's first block before
/// those through its second.
pub fn paths(alloc: Global, set: &ProgramSet) -> Result<Vec<Path>, AllocError>
    ensures exact { IfOk result (λ paths. paths.items ≡ paths_of (draft_tree set.now)) }
    ensures few { IfOk result (λ paths. AreFew paths.items) }
    ensures single { IfOk result (λ paths. All ChangesSingleCells paths.items) }
{
    let mut paths = Vec::new(alloc);
    for (number, program) in set.draft().programs.iter().enumerate() {
        add_paths(alloc, set, number, program, &mut paths)?;
    }
    Ok(paths)
}
