// Words of 32 bits in two's complement: a signed word and its bits. Uses nothing.
ghost use Rattle.std.specs.Prelude.{◌≡◌};
ghost use Rattle.integers.specs.TwosComplement.{signed_of, bits_of};

// A word of 32 bits as a signed word.
pub fn signed(w: u32) -> i32
    ensures { result ≡ signed_of w }
{
    w.cast_signed()
}

// The 32 bits of a signed word.
pub fn bits(z: i32) -> u32
    ensures { result ≡ bits_of z }
{
    z.cast_unsigned()
}
