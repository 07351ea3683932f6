// What is written in words where a line is no command or no panel runs yet. Uses `text`.
ghost use Rattle.std.specs.Prelude.{◌+◌, ◌≤◌, length};
ghost use Rattle.text.specs.Put.{Put};
ghost use Rattle.script.specs.Messages.{message_of, longest_message};

// Puts the message of a reason's number, with its newline.
// Kept: it takes any number, since `put_message` took any and `other-message` speaks of the numbers that are no reason's (what may not change).
pub fn put_message(out: &mut [u8], at: usize, kind: u8) -> usize
    requires { at + longest_message ≤ length out.old }
    ensures { Put out.old at (message_of kind) result out.new }
{
    match kind {
        1 => text::put_bytes(
            out,
            at,
            b"? line has more than 1024 bytes, or 10240 with b\n",
        ),
        2 => text::put_bytes(
            out,
            at,
            b"? no such word; the words are node, slot, start, halves, record, t, b, i, c and f\n",
        ),
        3 => text::put_bytes(out, at, b"? node takes a number from 0 to 65535\n"),
        4 => text::put_bytes(
            out,
            at,
            b"? slot takes a number from 0 to 103 and a signed 32-bit word\n",
        ),
        5 => text::put_bytes(out, at, b"? start takes nothing\n"),
        6 => text::put_bytes(out, at, b"? t takes 1 to 8 hex digits\n"),
        7 => text::put_bytes(out, at, b"? i takes a number from 0 to 255\n"),
        8 => text::put_bytes(out, at, b"? c takes a number from 0 to 65535\n"),
        9 => text::put_bytes(
            out,
            at,
            b"? f takes at most 300 bytes of two hex digits each\n",
        ),
        10 => text::put_bytes(out, at, b"? halves takes nothing\n"),
        11 => text::put_bytes(out, at, b"? record takes nothing\n"),
        12 => text::put_bytes(
            out,
            at,
            b"? b takes at most 1100 telegrams of 1 to 8 hex digits each\n",
        ),
        _ => text::put_bytes(out, at, b"? no panel runs yet; start one\n"),
    }
}
