// What is written in words where a line is no command. Uses `text`.
ghost use Rattle.std.specs.Prelude.{◌≤◌, length};
ghost use Rattle.text.specs.Put.{Put};
ghost use Rattle.poll_dialog.specs.Dialog.{longest_line};
ghost use Rattle.poll_dialog.specs.Messages.{message_of};

// Puts the message of a reason's number, with its newline.
// Kept: it takes a number, since `message_of` and `other-message` speak of every number (what may not change).
pub(crate) fn put_message(out: &mut [u8], reason: u8) -> usize
    requires { longest_line ≤ length out.old }
    ensures { Put out.old 0 (message_of reason) result out.new }
{
    match reason {
        0 => text::put_bytes(out, 0, b"? line has more than 1024 bytes\n"),
        1 => text::put_bytes(
            out,
            0,
            b"? no such word; the words are join, report and pick\n",
        ),
        2 => text::put_bytes(out, 0, b"? join takes a number from 0 to 65535\n"),
        3 => text::put_bytes(
            out,
            0,
            b"? report takes a number from 0 to 65535 and 0 or 1\n",
        ),
        _ => text::put_bytes(out, 0, b"? pick takes nothing\n"),
    }
}
