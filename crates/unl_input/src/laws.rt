//! Laws about the lines of an input.
ghost use Rattle.unl_input.specs.Laws.{IsSilent, PrintsCauseAlone};

use crate::line::LineProcessor;

/// If no accepted line prints anything, nothing is printed but the report of a refused line.
pub fn silent_lines<A: LineProcessor>()
    ensures { IsSilent A.line_result → PrintsCauseAlone A.line_result }
{}
