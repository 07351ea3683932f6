// Numbers as text.
ghost use Rattle.std.specs.Prelude.{◌≡◌, true};
ghost use Rattle.std.specs.Fmt.{decimal};
ghost use Rattle.std.specs.Io.KnownBytes.{Appends};
ghost use Rattle.ports.specs.Hex.{hex_8};

use std::io::Write;

// Writes a number in decimal; says whether it went out.
pub fn print_decimal<W: Write>(output: &mut W, n: u64) -> bool
    ensures { result ≡ true → Appends (W.contents output.old) (W.contents output.new) (decimal n) }
{
    write!(output, "{n}").is_ok()
}

// Writes a number in hex, in lower case, with zeros in front up to eight digits; says whether it went out.
pub fn print_hex_8<W: Write>(output: &mut W, n: u64) -> bool
    ensures { result ≡ true → Appends (W.contents output.old) (W.contents output.new) (hex_8 n) }
{
    write!(output, "{n:08x}").is_ok()
}
