//! The report on two systems: in which notions the first can replace the second and the second the first, and else a formula of
//! least price that shows why not.
#![tactic(auto)]

mod compare;
mod comparison;
mod directions;
mod error;
mod extents;
mod found;
mod laws;
mod reported;
mod summary;
mod told;
mod verdict;
mod verdict_line;
mod writer;

pub use compare::report;
pub use error::ReportError;
pub use extents::put_extents;
pub use laws::{reports_are_one, reports_exist, reports_have_one_text};
pub use reported::Report;
pub use summary::put_summary;
pub use verdict::{MAX_INLINE_BYTES, Shown, Verdict};
pub use verdict_line::put_verdict;
pub use writer::text;
