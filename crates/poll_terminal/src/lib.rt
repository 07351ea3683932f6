// A dispatcher over an input and an output (paper 02, K12, poller). Uses `poll_dialog` for all that is said, and `talk` for the lines of the input.
#![tactic(auto)]

ghost use Rattle.std.proofs.Common.{rules};
ghost use Rattle.std.specs.Prelude.{⊤};
ghost use Rattle.dispatcher.specs.Dispatch.{fresh_of};
ghost use Rattle.poll_dialog.specs.Dialog.{after_line};
ghost use Rattle.talk.specs.Ends.{Ran};

use dispatcher::Dispatcher;
use std::io::{Read, Write};
use talk::Dialog;

// The dialog with a dispatcher.
struct Polling;

impl Dialog<128> for Polling {
    type State = Dispatcher;

    ghost after = { after_line };

    ghost first = { fresh_of };

    // Any dispatcher is valid.
    ghost Ready = { λ d. ⊤ };

    ghost fits = { Prim.search rules };

    fn fresh() -> Dispatcher {
        dispatcher::fresh()
    }

    fn line(d: &mut Dispatcher, line: &[u8], out: &mut [u8; 128]) -> usize {
        let s = poll_dialog::line(*d, line, out);
        *d = s.dispatcher;
        s.end
    }
}

// Runs a dispatcher to the end of the input; says what it is then.
pub fn run<R: Read, W: Write>(input: &mut R, output: &mut W) -> Dispatcher
    ensures { Ran after_line fresh_of (R.remaining input.old) (R.remaining input.new) result }
{
    talk::run::<128, Polling, R, W>(input, output)
}
