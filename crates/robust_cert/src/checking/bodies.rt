//! How many accesses of a path stand in the body of an `each`.
ghost use Rattle.std.specs.Prelude.{◌≡◌, ◌↔◌, map, IsTrue};
ghost use Rattle.robust_cert.specs.Accepted.{body_size};

use prog_check::Path;

/// How many accesses of a path aren't sure.
pub fn body_size(path: &Path) -> usize
    ensures { result ≡ body_size path.now }
{
    let accesses = path.accesses.as_slice();
    accesses.iter().filter(|access| !access.sure).count()
}

/// Whether these are the numbers of such accesses, path by path.
pub fn are_body_sizes(bodies: &[u32], paths: &[Path]) -> bool
    ensures { IsTrue result ↔ (bodies.now ≡ map body_size paths.now) }
{
    if bodies.len() != paths.len() {
        return false;
    }
    for k in 0..paths.len() {
        if bodies[k] as usize != body_size(&paths[k]) {
            return false;
        }
    }
    true
}
