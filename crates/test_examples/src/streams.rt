//! What is printed is gathered.
use crate::scenes::needed;
use std::alloc::Global;
use std::io;
use std::io::Write;
use text_streams::{Output, StreamFault};

// A writer that remembers what each call brought.
#[derive(Drop)]
struct Taking {
    alloc: Global,
    pieces: Vec<Vec<u8>>,
}

impl Write for Taking {
    fn write(&mut self, buf: &[u8]) -> io::Result<usize> {
        let mut piece = Vec::new(self.alloc);
        piece.extend_from_slice(buf)?;
        self.pieces.push(piece)?;
        Ok(buf.len())
    }

    fn flush(&mut self) -> io::Result<()> {
        Ok(())
    }
}

// So many lines of this text, and one more.
fn print_lines(
    alloc: Global,
    writer: &mut Taking,
    text: &str,
    count: u64,
) -> Result<(), StreamFault> {
    let mut output = Output::new(alloc, writer)?;
    for _ in 0..count {
        output.line(text)?;
    }
    output.line("account 1 500")?;
    output.flush()?;
    output.flush()
}

// The first piece is full, and the second one has a line of text and the last line.
fn are_two(pieces: &[Vec<u8>]) -> bool {
    let [first, last] = pieces else {
        return false;
    };
    (first.len(), last.len()) == (65_536, 1_024 + 14)
        && last.as_slice().ends_with(b"\naccount 1 500\n")
}

// 64 lines of 1,024 bytes are 65,536.
#[test]
fn lines_are_gathered_to_65536_bytes(rt: HostRuntime) {
    let alloc = rt.alloc();
    let mut text = String::new(alloc);
    for _ in 0..1_023 {
        needed(&rt, text.push('x'));
    }
    let mut writer = Taking {
        alloc,
        pieces: Vec::new(alloc),
    };
    needed(&rt, print_lines(alloc, &mut writer, text.as_str(), 65));
    assert!(rt; are_two(writer.pieces.as_slice()));
}
