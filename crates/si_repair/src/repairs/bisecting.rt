//! The most of some items that fit together, found by halving.
ghost use Rattle.std.specs.Prelude.{◌≡◌, ◌+◌, ◌<◌, ◌≤◌, ℕ, true, false, IfOk};

use std::alloc::{AllocError, Global};

/// Items of which the first ones are tried together.
pub trait Firsts {
    /// What holds of all of them.
    ghost stands: { Self → Type 0 };

    /// How many there are.
    ghost count: { Self → ℕ };

    /// That so many of the first ones fit.
    ghost fits: { Self → ℕ → Type 0 };

    /// That so many of the first ones are refused.
    ghost is_refused: { Self → ℕ → Type 0 };

    /// Whether so many of the first ones fit.
    fn fit(&self, alloc: Global, n: usize) -> Result<bool, AllocError>
        requires stands { stands self.now }
        requires within { n ≤ count self.now }
        ensures fits { IfOk result (λ all_fit. all_fit ≡ true → fits self.now n) }
        ensures refused { IfOk result (λ all_fit. all_fit ≡ false → is_refused self.now n) };
}

/// How many of the first items fit, where one more is refused: of no items, which fit, and so many,
/// which are refused, those between are halved.
pub fn most_that_fit<F: Firsts>(
    alloc: Global,
    firsts: &F,
    count: usize,
) -> Result<usize, AllocError>
    requires stands { F.stands firsts.now }
    requires within { count ≤ F.count firsts.now }
    requires some { 0 < count }
    requires none { F.fits firsts.now 0 }
    requires all { F.is_refused firsts.now count }
    ensures within { IfOk result (λ n. n < count) }
    ensures fits { IfOk result (λ n. F.fits firsts.now n) }
    ensures refused { IfOk result (λ n. F.is_refused firsts.now (n + 1)) }
{
    let mut fitting = 0;
    let mut large = count;
    while large - fitting > 1 {
        let middle = fitting + (large - fitting) / 2;
        if firsts.fit(alloc, middle)? {
            fitting = middle;
        } else {
            large = middle;
        }
    }
    Ok(fitting)
}
