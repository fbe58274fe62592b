//! The laws of paths and of questions, as functions that a check has to prove.
ghost use Rattle.prog_paths.specs.Law.{LawOfPaths};
ghost use Rattle.prog_paths.specs.Listing.{LawOfListing, LawOfOrder};
ghost use Rattle.prog_paths.specs.Questions.{LawOfSingleChanges};
ghost use Rattle.prog_paths.specs.Own.{LawOfOwnUnknowns, LawOfCovers, LawOfTimes, LawOfValues};
ghost use Rattle.prog_paths.specs.Facts.{LawOfMeeting, LawOfConsistency, LawOfEqualTerms};

/// Each evaluation that ends Ready follows exactly one committing path.
pub fn law_of_paths()
    ensures { LawOfPaths }
{}

/// The facts of a question are met just where its accesses meet, and put two terms at most each
/// other just where both are then equal.
pub fn law_of_facts()
    ensures meeting { LawOfMeeting }
    ensures consistent { LawOfConsistency }
    ensures equal { LawOfEqualTerms }
{}

/// The list of questions has all that the paths ask, each once, in order.
pub fn law_of_listing()
    ensures questions { LawOfListing }
    ensures order { LawOfOrder }
{}

/// What a path of a draft changes or keeps is a single cell.
pub fn law_of_single_changes()
    ensures { LawOfSingleChanges }
{}

/// On a draft's paths no unknown of an access in a body is an end of a sure one, so no cover depends
/// on the times at which the others are made.
pub fn law_of_own_unknowns()
    ensures own { LawOfOwnUnknowns }
    ensures covers { LawOfCovers }
    ensures times { LawOfTimes }
    ensures values { LawOfValues }
{}
