//! Where the jobs of a list begin that are asked for one after another: each is looked for behind
//! the last one.
ghost use Rattle.std.specs.Prelude.{◌≡◌, ◌≤◌, ◌+◌};
ghost use Rattle.text_places.specs.Places.{line_number};
ghost use Rattle.run_words.specs.JobSpots.{IsFoundJob, IsSpot};

use text_places::{before, behind, feeds, job_place};

/// A place of a list of jobs, how many of them begin before it, and its line.
#[derive(Clone, Copy)]
pub struct Spot {
    pub place: usize,
    pub jobs: usize,
    pub line: usize,
}

/// The front of each list.
pub const FRONT: Spot = Spot {
    place: 0,
    jobs: 0,
    line: 1,
};

// The line of a place at or behind a spot: the bytes before the spot are not passed again.
#[tactic(auto, using(crate::proofs::WholeInput::line_from, crate::proofs::WholeInput::few_lines))]
fn line_behind(list: &[u8], from: Spot, place: usize) -> usize
    requires from { line_number list.now from.place ≡ from.line }
    requires behind { from.place ≤ place }
    ensures { result ≡ line_number list.now place }
{
    from.line + feeds(behind(before(list, place), from.place))
}

// Where the job of a number begins, which has so many between a spot and it.
fn spot_behind(list: &[u8], from: Spot, between: usize, number: usize) -> Option<Spot>
    requires from { IsSpot list.now from }
    requires number { from.jobs + between ≡ number }
    ensures { IsFoundJob list.now number result }
{
    let place = job_place(list, from.place, between)?;
    Some(Spot {
        place,
        jobs: number,
        line: line_behind(list, from, place),
    })
}

/// Where the job of a number begins, given where an earlier one does; one before that is looked for
/// from the front.
pub fn spot_of(list: &[u8], last: Spot, number: usize) -> Option<Spot>
    requires { IsSpot list.now last }
    ensures { IsFoundJob list.now number result }
{
    match number.checked_sub(last.jobs) {
        Some(between) => spot_behind(list, last, between, number),
        None => spot_behind(list, FRONT, number, number),
    }
}
