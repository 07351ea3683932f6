// What no clause says: texts, and what a call answers where a read or a write fails between two that go well.
use crate::{print_decimal, print_hex_8, read_full, read_some, write_all, write_failure};
use std::io;
use std::io::{Error, Read, Write};

// A reader that gives two bytes, then fails, and so on.
#[derive(Clone, Copy)]
struct Faltering {
    fails: bool,
}

impl Read for Faltering {
    fn read(&mut self, buf: &mut [u8]) -> io::Result<usize> {
        let failing = self.fails;
        self.fails = !failing;
        if failing || buf.len() < 2 {
            return Err(Error::from_raw_os_error(5));
        }
        buf[0] = 7;
        buf[1] = 8;
        Ok(2)
    }
}

// A writer with room for three bytes a call, that fails at every second one.
#[derive(Clone, Copy)]
struct Stumbling {
    fails: bool,
    taken: usize,
}

impl Write for Stumbling {
    fn write(&mut self, buf: &[u8]) -> io::Result<usize> {
        let failing = self.fails;
        self.fails = !failing;
        if failing {
            return Err(Error::from_raw_os_error(32));
        }
        let n = buf.len().min(3);
        self.taken = self.taken.saturating_add(n);
        Ok(n)
    }

    fn flush(&mut self) -> io::Result<()> {
        Ok(())
    }
}

#[test]
fn reads_to_the_end(rt: HostRuntime) {
    let mut input: &[u8] = b"abcde";
    let mut buf = [0u8; 4];
    let first = read_full(&mut input, &mut buf);
    assert!(rt; first == 4 && buf[3] == b'd', "the first piece");
    let last = read_full(&mut input, &mut buf);
    assert!(rt; last == 1 && buf[0] == b'e', "the last piece");
    let end = read_some(&mut input, &mut buf);
    assert!(rt; end == 0, "the end");
}

#[test]
fn stops_at_a_failed_read(rt: HostRuntime) {
    let mut input = Faltering { fails: false };
    let mut buf = [0u8; 6];
    let n = read_full(&mut input, &mut buf);
    assert!(rt;
        n == 2 && buf[1] == 8 && buf[2] == 0,
        "two bytes, and no third"
    );
    let again = read_full(&mut input, &mut buf);
    assert!(rt; again == 2, "it reads on at the next call");
}

#[test]
fn stops_at_a_failed_write(rt: HostRuntime) {
    let mut output = Stumbling {
        fails: false,
        taken: 0,
    };
    assert!(rt;
        !write_all(&mut output, b"hello"),
        "five bytes do not go out"
    );
    assert!(rt; output.taken == 3, "three did");
    assert!(rt;
        write_all(&mut output, b"lo"),
        "two go out at the next call"
    );
}

#[test]
fn writes_numbers_and_failures(rt: HostRuntime) {
    let mut out = Vec::new(rt.alloc());
    let told = print_decimal(&mut out, 18446744073709551615) && write_all(&mut out, b" ");
    assert!(rt; told && print_hex_8(&mut out, 3237998080), "memory is left");
    write_failure(&mut out, b" none.txt", Error::from_raw_os_error(2));
    let want: &[u8] = b"18446744073709551615 c0ffee00 none.txt: No such file or directory\n";
    assert!(rt; out.as_slice() == want, "the text");
}
