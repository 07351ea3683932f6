// The bytes of a slave's replies, each with its CRC behind. Uses `checksum`.
ghost use Rattle.std.specs.Prelude.{[], ◌≡◌, ◌≤◌, length};
ghost use Rattle.modbus.specs.Crc.{sealed};
ghost use Rattle.modbus.specs.Replies.{read_reply, write_reply, exception_reply, packed};

use crate::checksum;

// The bytes of a reply.
// Kept: fixed memory, no heap: the bytes lie in an array, and their number beside it.
#[derive(Clone, Copy)]
pub struct Reply {
    // The bytes, and zeros behind them.
    pub bytes: [u8; 9],
    // How many there are.
    pub length: usize,
}

// A body of at most seven bytes, with its CRC behind.
fn closed(body: &[u8]) -> Reply
    requires { length body.now ≤ 7 }
    ensures { result ≡ packed (sealed body.now) }
{
    let [high, low] = checksum::crc(body).to_be_bytes();
    let end = body.len();
    let mut bytes = [0; 9];
    bytes[..end].copy_from_slice(body);
    bytes[end] = low;
    bytes[end + 1] = high;
    Reply {
        bytes,
        length: end + 2,
    }
}

// The reply to a read: the word.
pub fn read_reply(node: u8, z: i32) -> Reply
    ensures { result ≡ packed (read_reply node z) }
{
    let [b2, b3, b0, b1] = z.to_be_bytes();
    closed(&[node, crate::READ, 4, b0, b1, b2, b3])
}

// The reply to a write: where it began, and that it took two registers.
pub fn write_reply(node: u8, register: u16) -> Reply
    ensures { result ≡ packed (write_reply node register) }
{
    let [b0, b1] = register.to_be_bytes();
    closed(&[node, crate::WRITE, b0, b1, 0, 2])
}

// The reply that refuses a function with an exception.
pub fn exception_reply(node: u8, function: u8, code: u8) -> Reply
    ensures { result ≡ packed (exception_reply node function code) }
{
    closed(&[node, function | 0x80, code])
}

// No reply.
pub fn no_reply() -> Reply
    ensures { result ≡ packed [] }
{
    Reply {
        bytes: [0; 9],
        length: 0,
    }
}
