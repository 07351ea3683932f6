// Numbers of 16 bits and their bytes. Uses nothing.
ghost use Rattle.std.specs.Prelude.{◌≡◌};
ghost use Rattle.modbus.specs.Words.{number};

// A number of 16 bits from its two bytes, high byte first.
pub fn number_of(high: u8, low: u8) -> u16
    ensures { result ≡ number high low }
{
    u16::from_be_bytes([high, low])
}
