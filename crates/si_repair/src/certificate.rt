//! The certificate of a list of paths whose graph has no dangerous structure.
ghost use Rattle.std.specs.Prelude.{◌≡◌, map, IfOk};
ghost use Rattle.prog_paths.specs.Few.{AreFew};
ghost use Rattle.robust_cert.specs.Accepted.{body_size};
ghost use Rattle.robust_cert.specs.Ranges.{IsSmall};
ghost use Rattle.si_repair.specs.Certificates.{AreLevels};

use dep_graph::Graph;
use prog_check::Path;
use prog_tree::Sequence;
use robust_cert::{Certificate, Entries, body_size};
use std::alloc::{AllocError, Global};

/// A number as a certificate has it.
pub fn as_u32(number: usize) -> u32
    requires { IsSmall number }
    ensures { result ≡ number }
{
    number as u32
}

/// The level of each node.
pub fn levels_of(alloc: Global, graph: &Graph<'_>) -> Result<Vec<u32>, AllocError>
    requires { AreFew graph.now }
    ensures { IfOk result (λ levels. AreLevels graph.now levels.items) }
{
    let mut levels = Vec::with_capacity(alloc, graph.nodes())?;
    for x in 0..graph.nodes() {
        levels.push(as_u32(graph.level(x)))?;
    }
    Ok(levels)
}

// For each path how many of its accesses stand in the body of an `each`.
fn bodies_of(alloc: Global, paths: &[Path]) -> Result<Vec<u32>, AllocError>
    requires { AreFew paths.now }
    ensures { IfOk result (λ bodies. bodies.items ≡ map body_size paths.now) }
{
    let mut bodies = Vec::with_capacity(alloc, paths.len())?;
    for path in paths {
        bodies.push(as_u32(body_size(path)))?;
    }
    Ok(bodies)
}

/// The certificate of a list of paths that has these entries, with the levels of its nodes.
pub fn certificate_of(
    alloc: Global,
    paths: &[Path],
    entries: Entries,
    levels: Vec<u32>,
) -> Result<Certificate, AllocError>
    requires { AreFew paths.now }
    ensures entries { IfOk result (λ c. c.entries ≡ entries) }
    ensures levels { IfOk result (λ c. c.levels ≡ levels.items) }
    ensures bodies { IfOk result (λ c. c.bodies ≡ map body_size paths.now) }
{
    Ok(Certificate {
        entries,
        levels: Sequence::from_vec(levels),
        bodies: Sequence::from_vec(bodies_of(alloc, paths)?),
    })
}
