// What the lines of an input, as many as it has, make of a survey, and what they print.
#![tactic(auto)]

mod batch;
mod scan;

pub use scan::{Scan, Scanned, scan_lines};
