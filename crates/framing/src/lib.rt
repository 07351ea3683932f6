// Finding frames on a serial line: the bytes are collected until they are a whole frame, or until silence.
// Uses `modbus` for what a frame is.
#![tactic(auto)]

ghost use Rattle.std.specs.Prelude.{◌≡◌, ◌≤◌, ◌<◌, length, drop};
ghost use Rattle.framing.specs.Ends.{is_request, is_reply_long, is_reply, is_foreign};
ghost use Rattle.framing.specs.Collector.{most_held, held_length, emptied, fresh_collector, judged, added, kept, pushed, quieted, fed_by, fed_to};

// The bytes that are held at most: one more than a frame has, so that a longer one is seen to be too long.
const MOST_HELD: usize = modbus::MOST_BYTES + 1;

// The bytes of a line since its last frame.
// Kept: fixed memory, no heap: the bytes lie in an array, and their number beside it.
#[derive(Clone, Copy)]
pub struct Collector {
    // The bytes, and whatever stood behind them.
    pub bytes: [u8; MOST_HELD],
    // How many there are.
    pub length: usize,
    // Whether they are a frame; the next byte then begins another.
    pub ended: bool,
}

// Whether the bytes are a whole request.
fn whole_request(f: &[u8]) -> bool
    ensures { result ≡ is_request f.now }
{
    !modbus::unknown(f) && !modbus::broken(f)
}

// Whether the bytes are as many as a reply has.
fn reply_long(f: &[u8]) -> bool
    ensures { result ≡ is_reply_long f.now }
{
    if f.len() < 5 {
        return false;
    }
    let function = f[1];
    if function == modbus::READ {
        return f.len() > 5 && f.len() == 5 + usize::from(f[2]);
    }
    if function == modbus::WRITE {
        return f.len() == 8;
    }
    function >= 0x80 && f.len() == 5
}

// Whether the bytes are a whole reply. The length is tested first: it spares the CRC of a reply that grows.
fn whole_reply(f: &[u8]) -> bool
    ensures { result ≡ is_reply f.now }
{
    f.len() <= modbus::MOST_BYTES && (reply_long(f) && modbus::crc_right(f))
}

// Whether a frame is neither to this node nor to all.
fn foreign(node: u8, f: &[u8]) -> bool
    requires { 1 ≤ length f.now }
    ensures { result ≡ is_foreign node f.now }
{
    let address = f[0];
    address != 0 && address != node
}

impl Collector {
    // A line on which nothing was sent.
    pub fn fresh() -> Collector
        ensures { result ≡ fresh_collector }
    {
        Collector {
            bytes: [0; MOST_HELD],
            length: 0,
            ended: false,
        }
    }

    // How many bytes are held: those of the frame, where one has ended.
    #[tactic(auto, unfolding(crate::specs::Collector::held_length))]
    pub fn held_length(&self) -> usize
        ensures is { result ≡ held_length self.now }
        ensures within { result ≤ most_held }
    {
        self.length.min(MOST_HELD)
    }

    // How many bytes a new one follows.
    fn still_held(&self) -> usize
        ensures { result ≡ kept self.now }
    {
        if self.ended {
            return 0;
        }
        self.length
    }

    // Nothing held.
    fn empty(&mut self)
        ensures { self.new ≡ emptied self.old }
    {
        self.length = 0;
        self.ended = false;
    }

    // One byte behind the first `n`.
    fn add(&mut self, n: usize, b: u8)
        requires { n < most_held }
        ensures { self.new ≡ added self.old n b }
    {
        self.bytes[n] = b;
        self.length = n + 1;
        self.ended = false;
    }

    // Whether the bytes held end a frame, to be taken or passed over.
    fn judge(&mut self, node: u8)
        requires { (1 ≤ self.old.length) × (self.old.length ≤ most_held) }
        ensures { self.new ≡ judged node self.old }
    {
        let f = &self.bytes[..self.length];
        let request = whole_request(f);
        if !foreign(node, f) {
            if request {
                self.ended = true;
            }
            return;
        }
        if request || whole_reply(f) {
            self.empty();
        }
    }

    // One byte from the line.
    fn push(&mut self, node: u8, b: u8)
        ensures { self.new ≡ pushed node self.old b }
    {
        let n = self.still_held();
        if n < MOST_HELD {
            self.add(n, b);
            self.judge(node);
        }
    }

    // Silence on the line.
    pub fn silence(&mut self)
        ensures { self.new ≡ quieted self.old }
    {
        if self.still_held() == 0 {
            self.empty();
            return;
        }
        self.ended = true;
    }

    // Takes bytes from place `at` on, up to the end of a frame or of the bytes, and gives the place behind the last byte taken.
    pub fn feed(&mut self, node: u8, bytes: &[u8], at: usize) -> usize
        ensures { fed_by self.new result ≡ fed_to node self.old (drop at bytes.now) at }
    {
        for i in at..bytes.len() {
            self.push(node, bytes[i]);
            if self.ended {
                return i + 1;
            }
        }
        at.max(bytes.len())
    }
}
