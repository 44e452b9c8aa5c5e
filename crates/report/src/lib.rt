//! A verdict, of one plan or of a build in stages, and how two builds compare, each as one line of
//! text.
#![tactic(auto)]

mod cause;
mod compared;
mod comparing;
mod reporting;
mod stages;

pub use cause::cause_text;
pub use compared::Compared;
pub use comparing::{is_same, report_compared};
pub use reporting::{is_yes, is_yes_of_stages, report, report_stages};
pub use stages::StagesVerdict;
