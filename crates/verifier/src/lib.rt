//! The build verifier: whether every build of a plan ends in exactly the claimed root.
#![tactic(auto)]

mod comparing;
mod error;
mod fault;
mod forms;
mod laws;
mod made;
mod origins;
mod recorded_step;
mod steps;
mod told;
mod verdict;
mod verifying;

pub use comparing::{Comparison, compare};
pub use error::VerifyError;
pub use forms::same_entry;
pub use laws::{
    a_build_meets_the_premises, a_merge_meets_the_premises, a_no_meets_the_premises,
    a_source_meets_the_premises, bad_ends_are_those_of_every_run, comparisons_find_the_step,
    lines_that_fail_stop_every_run, no_is_unlike_recorded, only_messages_are_looked_at,
    other_actions_are_never_run, outcomes_are_maps, plans_have_verdicts,
    recorded_plans_end_in_the_claim, stages_end_in_the_last_claim, stages_meet_the_premises,
    steps_are_as_recorded, two_builds_meet_the_premises, two_sources_meet_the_premises,
    two_yeses_differ_at_an_action, verdicts_are_single_valued,
    verdicts_depend_on_what_is_looked_at, verdicts_stay_when_more_is_told, version_one_is_grafted,
    what_is_forgotten_is_missing, what_is_looked_at_is_finite, yes_is_as_recorded,
};
pub use made::Made;
pub use origins::{Outcomes, put_together};
pub use recorded_step::{RecordedStep, recorded_steps};
pub use verdict::{Cause, Place, Verdict};
pub use verifying::{Judged, judge, verify};
