//! Questions by the numbers of their two accesses among all: a table has many questions.
ghost use Rattle.std.specs.Prelude.{◌≡◌, ◌<◌, ◌^◌};
ghost use Rattle.conflict_pairs.specs.Pairing.{HasPlaces, question_at};

use prog_paths::{Placed, Question, question_between};

/// The numbers of two accesses among all.
#[derive(Clone, Copy)]
pub struct PlacePair {
    pub first: u32,
    pub second: u32,
}

impl PlacePair {
    pub fn new(first: usize, second: usize) -> PlacePair
        requires first_fits { first < 2 ^ 32 }
        requires second_fits { second < 2 ^ 32 }
        ensures first { result.first ≡ first }
        ensures second { result.second ≡ second }
    {
        PlacePair {
            first: first as u32,
            second: second as u32,
        }
    }
}

/// The question between the accesses of a pair.
#[inline]
pub fn question_of(places: &[Placed], pair: PlacePair) -> Question
    requires { HasPlaces places.now pair }
    ensures { result ≡ question_at places.now pair }
{
    question_between(&places[pair.first as usize], &places[pair.second as usize])
}
