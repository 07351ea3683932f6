// The byte side of a Modbus RTU slave: what a frame asks, and the bytes of every reply. It knows frames and registers, and nothing of the panel.
// Its definitions use `integers` for signed words.
#![tactic(auto)]

mod checksum; // checksum.rt: the CRC
pub mod replies; // replies.rt: the bytes of a reply
pub mod words; // words.rt: numbers of 16 bits and their bytes

ghost use Rattle.std.specs.Prelude.{false, ◌≡◌, ◌≤◌, length};
ghost use Rattle.modbus.specs.Request.{start_in, value_in, is_misfit, crc_right, is_broken, is_mapped, is_unknown, wrong_amount, wrong_start, request_in, refusal_number, exception_code, asked_of};

// The function that reads.
// Kept: READ and WRITE are numbers and no enum, since `replies::exception_reply` takes any function number; an enum would ask more of callers.
pub const READ: u8 = 3;

// The function that writes.
pub const WRITE: u8 = 16;

// The most bytes of a frame.
pub const MOST_BYTES: usize = 256;

// The registers of the slots, from 0 on: two for each of 104.
const SLOT_REGISTERS: u16 = 2 * 104;

// The first of the two registers of the shown value.
pub const SHOWN_REGISTER: u16 = 0x1000;

// Why a frame is refused, without a reply.
#[derive(Clone, Copy)]
pub enum Refusal {
    // It is no frame, or one with a wrong length or CRC.
    BrokenFrame,
}

// The refusal's number.
impl From<Refusal> for u8 {
    ghost from_gives = { λ r number. number ≡ refusal_number r };

    fn from(value: Refusal) -> u8 {
        match value {
            Refusal::BrokenFrame => 20,
        }
    }
}

// Why a request is refused, by an exception.
#[derive(Clone, Copy)]
pub enum Exception {
    // The function is none of the two.
    Function,
    // No word starts at the start register, or it is a write to the shown value.
    Address,
    // The quantity is not 2, or the byte count of a write not 4.
    Value,
}

// The exception's code in a reply.
impl From<Exception> for u8 {
    ghost from_gives = { λ e code. code ≡ exception_code e };

    fn from(value: Exception) -> u8 {
        match value {
            Exception::Function => 1,
            Exception::Address => 2,
            Exception::Value => 3,
        }
    }
}

// What a frame asks.
#[derive(Clone, Copy)]
pub enum Request {
    // Refusal 20: no frame, or one with a wrong length or CRC.
    Broken,
    // For another node, or for all of them and no write.
    Ignored,
    // Refused, with the function asked for and the reason.
    Exception(u8, Exception),
    // A read of the word that starts at this register: an even one from 0 to 206, or hex 1000.
    Read(u16),
    // A write of a word that starts at this register: an even one from 0 to 206.
    Write(u16, i32),
}

// What a frame asks, and whether it is to be answered.
#[derive(Clone, Copy)]
pub struct Demand {
    // What it asks.
    pub request: Request,
    // Whether a reply is due.
    pub reply: bool,
}

// Whether the length is not that of the frame's function.
fn misfit(f: &[u8]) -> bool
    requires { 4 ≤ length f.now }
    ensures { result ≡ is_misfit f.now }
{
    let function = f[1];
    if function == READ {
        return f.len() != 8;
    }
    if function == WRITE {
        return f.len() < 9 || f.len() != 9 + usize::from(f[6]);
    }
    false
}

// Whether the last two bytes are the CRC of the others.
pub fn crc_right(f: &[u8]) -> bool
    ensures { result ≡ crc_right f.now }
{
    if f.len() < 2 {
        return false;
    }
    let end = f.len() - 2;
    words::number_of(f[end + 1], f[end]) == checksum::crc(&f[..end])
}

// Whether a frame is refused with 20.
pub fn broken(f: &[u8]) -> bool
    ensures { result ≡ is_broken f.now }
{
    f.len() < 4 || (f.len() > MOST_BYTES || (misfit(f) || !crc_right(f)))
}

// Whether a word that can be read starts at a register.
fn mapped(register: u16) -> bool
    ensures { result ≡ is_mapped register }
{
    register == SHOWN_REGISTER || register < SLOT_REGISTERS && register % 2 == 0
}

// Whether the function is none of the two that a slave knows.
pub fn unknown(f: &[u8]) -> bool
    ensures { result ≡ is_unknown f.now }
{
    if f.len() < 2 {
        return true;
    }
    let function = f[1];
    function != READ && function != WRITE
}

// Whether the quantity is not 2, or the byte count of a write not 4.
fn wrong_amount(f: &[u8]) -> bool
    requires { 8 ≤ length f.now }
    ensures { result ≡ wrong_amount f.now }
{
    words::number_of(f[4], f[5]) != 2 || f[1] == WRITE && f[6] != 4
}

// The start register.
fn start_of(f: &[u8]) -> u16
    requires { 8 ≤ length f.now }
    ensures { result ≡ start_in f.now }
{
    words::number_of(f[2], f[3])
}

// Whether no word starts at the start register, or it is a write to the shown value.
fn wrong_start(f: &[u8]) -> bool
    requires { 8 ≤ length f.now }
    ensures { result ≡ wrong_start f.now }
{
    let start = start_of(f);
    !mapped(start) || f[1] == WRITE && start == SHOWN_REGISTER
}

// The word that a write brings.
fn value_of(f: &[u8]) -> i32
    requires { 11 ≤ length f.now }
    ensures { result ≡ value_in f.now }
{
    i32::from_be_bytes([f[9], f[10], f[7], f[8]])
}

// What a frame asks that is not broken.
fn requested(f: &[u8]) -> Request
    requires { is_broken f.now ≡ false }
    ensures { result ≡ request_in f.now }
{
    if unknown(f) {
        return Request::Exception(f[1], Exception::Function);
    }
    if wrong_amount(f) {
        return Request::Exception(f[1], Exception::Value);
    }
    if wrong_start(f) {
        return Request::Exception(f[1], Exception::Address);
    }
    if f[1] == WRITE {
        return Request::Write(start_of(f), value_of(f));
    }
    Request::Read(start_of(f))
}

// What a frame asks of a node.
pub fn asked(node: u8, f: &[u8]) -> Demand
    ensures { result ≡ asked_of node f.now }
{
    if broken(f) {
        return Demand {
            request: Request::Broken,
            reply: false,
        };
    }
    if f[0] == 0 {
        if f[1] == WRITE {
            return Demand {
                request: requested(f),
                reply: false,
            };
        }
        return Demand {
            request: Request::Ignored,
            reply: false,
        };
    }
    if f[0] == node {
        return Demand {
            request: requested(f),
            reply: true,
        };
    }
    Demand {
        request: Request::Ignored,
        reply: false,
    }
}
