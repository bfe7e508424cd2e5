//! The one-marker office: many paths, many records, and refused memory. Jobs with their replies,
//! and audits, are rows of `worked_rows`.

mod audited;
mod large;
mod memory;

use crate::fixtures::near_path;
use xbar_office::{Job, laws};

#[test]
fn laws_can_be_called() {
    laws::jobs_leave_lawful_sets();
    laws::no_part_is_in_two_paths();
    laws::legal_records_leave_a_lawful_set();
    laws::one_record_more_is_legal();
    laws::legal_records_have_no_fault();
    laws::a_completing_job_gives_its_register_back();
    laws::a_call_never_gets_a_path_to_its_own_line();
    laws::a_release_leaves_all_other_paths();
    laws::job_is_in_range(&Job::Dial(near_path().line));
}
