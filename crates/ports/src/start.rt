// What a program is started with: its arguments, and files that they name by bytes.
ghost use Rattle.std.specs.Prelude.{◌≡◌, ◌≤◌, length, take};

use crate::write_all;
use std::env::{Env, FillError};
use std::fs::Files;
use std::io::{Cursor, Error, Write};
use std::{fs, io, str};

// The system's number for bytes that are no text.
const NO_TEXT: i32 = 84;

// What stands between the system's text of an error and its number.
const NUMBER_MARK: &[u8] = b" (os error ";

// Puts argument i at the start of buf; says how many bytes it has, 0 where it is missing or longer than buf. Argument 0 is the program.
// Kept: its callers take an argument that is missing or too long for an empty one, which a number says as it is.
pub fn arg<E: Env>(env: &E, i: usize, buf: &mut [u8]) -> usize
    ensures bound { result ≤ length buf.new }
    ensures prefix { result ≡ length (take result buf.new) }
{
    env.arg(i, buf).unwrap_or(0)
}

// Whether there is an argument i.
pub fn has_arg<E: Env>(env: &E, i: usize) -> bool {
    let mut buf = [0u8; 1];
    !matches!(env.arg(i, &mut buf), Err(FillError::NotPresent))
}

// Opens a file for reading. A path that is not UTF-8 is none that can be opened.
pub fn open_read<F: Files>(files: &F, path: &[u8]) -> io::Result<F::File> {
    match str::from_utf8(path) {
        Ok(text) => fs::open(files, text),
        Err(_) => Err(Error::from_raw_os_error(NO_TEXT)),
    }
}

// Writes a line: what failed, a colon, and the system's text of the error.
pub fn write_failure<W: Write>(output: &mut W, what: &[u8], error: Error) {
    let mut room = Cursor::new([0u8; 128]);
    let _ = write!(room, "{error}");
    let text = room.into_inner();
    let n = text_length(&text);
    write_all(output, what);
    write_all(output, b": ");
    write_all(output, &text[..n]);
    write_all(output, b"\n");
}

// How many bytes stand before an error's number, or before the first 0 where it has none.
fn text_length(bytes: &[u8]) -> usize
    ensures { result ≤ length bytes.now }
{
    let end = bytes.iter().position(|b| *b == 0).unwrap_or(bytes.len());
    let mut places = bytes[..end].windows(NUMBER_MARK.len());
    places.position(|w| w == NUMBER_MARK).unwrap_or(end)
}
