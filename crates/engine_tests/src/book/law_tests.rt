//! The laws that stand as functions.

use history_book::{
    clashes_name_a_commit, commits_are_what_the_instances_write, dependencies_are_of_instances,
    forward_orders_run_the_same, lawful_rows_are_right, least_orders_fit,
    least_orders_of_reduced_relations, orders_are_of_relations_without_a_cycle,
    reasons_are_of_dependencies,
};

#[test]
fn laws_of_histories_are_called() {
    commits_are_what_the_instances_write();
    clashes_name_a_commit();
    dependencies_are_of_instances();
    reasons_are_of_dependencies();
    lawful_rows_are_right();
}

#[test]
fn laws_of_orders_are_called() {
    least_orders_fit();
    forward_orders_run_the_same();
    least_orders_of_reduced_relations();
    orders_are_of_relations_without_a_cycle();
}
