// The lines of a listing as text, put into a lent block: an entry's line, and the last line. specs/LineText.antt says what each line is.
#![tactic(auto)]

mod line_text;
mod text;

pub use line_text::{
    END_FIGURES, EndFigures, LONGEST_LINE, LONGEST_LOG, SectionFigures, end_figures, put_last,
    put_line,
};
