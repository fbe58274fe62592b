//! The laws that stand as functions.

use conflict_pairs::law_of_verdicts;
use prog_paths::{
    law_of_facts, law_of_listing, law_of_own_unknowns, law_of_paths, law_of_single_changes,
};
use repair_laws::{
    law_of_as_many_questions, law_of_edges_kept, law_of_materialising, law_of_meaning,
    law_of_one_plan, law_of_paths_with_keeps, law_of_plan_steps, law_of_plans, law_of_promoting,
    law_of_sizes,
};
use robust_cert::law_of_acceptance;

#[test]
fn laws_of_paths_are_called() {
    law_of_paths();
    law_of_facts();
    law_of_listing();
    law_of_single_changes();
    law_of_own_unknowns();
}

#[test]
fn laws_of_what_is_found_are_called() {
    law_of_verdicts();
    law_of_acceptance();
}

#[test]
fn laws_of_plans_are_called() {
    law_of_plans();
    law_of_one_plan();
    law_of_plan_steps();
    law_of_as_many_questions();
    law_of_sizes();
}

#[test]
fn laws_of_repaired_sets_are_called() {
    law_of_meaning();
    law_of_materialising();
    law_of_promoting();
    law_of_paths_with_keeps();
    law_of_edges_kept();
}
