// Lines from an input, and what they print to an output. Uses `talk` for the lines of the input.
ghost use Rattle.std.proofs.Common.{rules};
ghost use Rattle.logrun.specs.Progress.{Ready};
ghost use Rattle.sheet.specs.Sheet.{fresh_sheet, after_line};
ghost use Rattle.talk.specs.Ends.{Ran};

use crate::Sheet;
use std::io::{Read, Write};
use talk::Dialog;

// The dialog of a sheet.
struct Reading;

impl Dialog<12928> for Reading {
    type State = Sheet;

    ghost after = { after_line };

    ghost first = { fresh_sheet };

    ghost Ready = { λ s. Ready s.progress };

    ghost fits = { Prim.search rules };

    fn fresh() -> Sheet {
        crate::fresh()
    }

    fn line(s: &mut Sheet, line: &[u8], out: &mut [u8; 12928]) -> usize {
        let a = crate::line(*s, line, out);
        *s = a.sheet;
        a.end
    }
}

// Answers all lines of the input; says what is kept then.
pub fn run<R: Read, W: Write>(input: &mut R, output: &mut W) -> Sheet
    ensures { Ran after_line fresh_sheet (R.remaining input.old) (R.remaining input.new) result }
{
    talk::run::<12928, Reading, R, W>(input, output)
}
