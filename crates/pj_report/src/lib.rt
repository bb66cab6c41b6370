//! The lines that a run writes: those of its results, of its report and of its status.
#![tactic(auto)]

mod kept;
mod laws;
mod line_list;
mod lines;
mod notes;
mod report;
mod results;
mod status;
mod status_line;
mod stops;
mod sums;
mod text;
mod writer;

pub use laws::{forms_write_the_same, lines_are_of_elements, sorted_by_bags, totals_are_exact};
pub use lines::write_piece;
pub use report::{
    write_check, write_make, write_peak_line, write_results, write_stream, write_total,
};
pub use results::Counts;
pub use status::{LimitOf, Status};
pub use status_line::{write_lines, write_status};
pub use stops::WriteStop;
pub use text::write_text;
pub use writer::{Form, ResultWriter};
