//! Accesses at their places.
ghost use Rattle.std.specs.Prelude.{◌≡◌, ◌++◌, IfOk, OnOk};
ghost use Rattle.prog_paths.specs.Places.{placed_from, all_from, accesses_by, program_from};

use prog_check::{Access, Path};
use std::alloc::{AllocError, Global};

/// An access with the number of its node and its own number there.
#[derive(Clone, Copy)]
pub struct Placed {
    pub node: usize,
    pub number: usize,
    pub access: Access,
}

// Adds the accesses of a node.
fn push_node(places: &mut Vec<Placed>, node: usize, accesses: &[Access]) -> Result<(), AllocError>
    ensures { OnOk result
        (places.new.items ≡ places.old.items ++ placed_from node 0 accesses.now) }
{
    for (number, access) in accesses.iter().enumerate() {
        places.push(Placed {
            node,
            number,
            access: *access,
        })?;
    }
    Ok(())
}

/// The accesses of all nodes.
pub fn all_places(alloc: Global, paths: &[Path]) -> Result<Vec<Placed>, AllocError>
    ensures { IfOk result (λ places. places.items ≡ all_from 0 paths.now) }
{
    let mut places = Vec::new(alloc);
    for (node, path) in paths.iter().enumerate() {
        push_node(&mut places, node, path.accesses.as_slice())?;
    }
    Ok(places)
}

// The accesses of a path, where it is one of a program.
fn accesses_by(path: &Path, program: usize) -> &[Access]
    ensures { result.now ≡ accesses_by program path.now }
{
    if path.program == program {
        path.accesses.as_slice()
    } else {
        &[]
    }
}

/// The accesses on the paths of a program.
pub fn program_places(
    alloc: Global,
    paths: &[Path],
    program: usize,
) -> Result<Vec<Placed>, AllocError>
    ensures { IfOk result (λ places. places.items ≡ program_from program 0 paths.now) }
{
    let mut places = Vec::new(alloc);
    for (node, path) in paths.iter().enumerate() {
        push_node(&mut places, node, accesses_by(path, program))?;
    }
    Ok(places)
}
