// Frames as they are written: the lines that a survey prints.
#![tactic(auto)]

mod writing;

pub use writing::{
    REPLY_LINE, TOTALS_LINE, has_room, refusal_line, reply_lines, totals_bytes, totals_line,
};
