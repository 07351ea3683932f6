// The dialog with a panel over an input and an output. Uses `dialog` for all that is said, and `talk` for the lines of the input.
#![tactic(auto)]

ghost use Rattle.std.proofs.Common.{rules};
ghost use Rattle.dialog.specs.Dialog.{Ready, fresh_console, after_line};
ghost use Rattle.talk.specs.Ends.{Ran};

use dialog::Console;
use std::io::{Read, Write};
use talk::Dialog;

// The dialog with a panel.
struct Panel;

impl Dialog<128> for Panel {
    type State = Console;

    ghost after = { after_line };

    ghost first = { fresh_console };

    ghost Ready = { Ready };

    ghost fits = { Prim.search rules };

    fn fresh() -> Console {
        dialog::fresh()
    }

    fn line(c: &mut Console, line: &[u8], out: &mut [u8; 128]) -> usize {
        let s = dialog::line(*c, line, out);
        *c = s.console;
        s.end
    }
}

// Runs a dialog to the end of the input; says what is kept then.
pub fn run<R: Read, W: Write>(input: &mut R, output: &mut W) -> Console
    ensures { Ran after_line fresh_console (R.remaining input.old) (R.remaining input.new) result }
{
    talk::run::<128, Panel, R, W>(input, output)
}
