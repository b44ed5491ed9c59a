ghost use Rattle.std.specs.Prelude.{◌≡◌, None, IfOk};

use crate::streams::{flush, give_to, take_from};
use crate::*;
use std::alloc::{AllocError, Global};
use std::io;
use std::io::{ErrorKind, Read, Write};
use std::test::Fail;

const TEXT: &[u8; 10] = b"new bankq\n";

const LINES: &[u8; 10] = b"1 ok\n2 ok\n";

fn source(alloc: Global, chunk: usize, failing: &[u32]) -> Result<MemSource, AllocError> {
    Ok(MemSource::new(TEXT.to_vec(alloc)?, chunk.max(1), failing.to_vec(alloc)?))
}

fn sink(alloc: Global, room: usize, chunk: usize, failing: &[u32]) -> Result<MemSink, AllocError> {
    let mut bytes = Vec::new(alloc);
    bytes.resize(room, 0)?;
    Ok(MemSink::new(bytes, chunk.max(1), failing.to_vec(alloc)?))
}

#[test]
fn reads_by_pieces(rt: HostRuntime) -> Result<(), Fail> {
    for chunk in [1, 4, 65_536] {
        let mut source = source(rt.alloc(), chunk, &[])?;
        let bytes = read_whole(rt.alloc(), &mut source).map_err(|_| "a read fault")?;
        assert_eq!(rt; bytes.as_slice(), TEXT.as_slice(), "by {chunk}");
    }
    Ok(())
}

#[test]
fn reads_more_than_one_step(rt: HostRuntime) -> Result<(), Fail> {
    let mut bytes = Vec::new(rt.alloc());
    bytes.resize(200_000, 7)?;
    bytes.push(8)?;
    let mut source = SureSource::new(bytes);
    let bytes = read_whole(rt.alloc(), &mut source).map_err(|_| "a read fault")?;
    assert_eq!(rt; bytes.len(), 200_001);
    assert_eq!(rt; bytes[65_536], 7);
    assert_eq!(rt; bytes[200_000], 8);
    Ok(())
}

#[test]
fn second_take_fails(rt: HostRuntime) -> Result<(), Fail> {
    let mut failing = source(rt.alloc(), 4, &[2])?;
    assert_eq!(rt;
        read_whole(rt.alloc(), &mut failing),
        Err(ReadError::Failed)
    );
    let mut again = source(rt.alloc(), 4, &[2])?;
    let mut buf = [0; 8];
    assert_eq!(rt; again.take(&mut buf), Taken::Bytes(4));
    assert_eq!(rt; again.take(&mut buf), Taken::Failed);
    assert_eq!(rt; again.take(&mut buf), Taken::Bytes(4));
    assert_eq!(rt; &buf[..4], b"bank".as_slice());
    assert_eq!(rt; again.take(&mut buf), Taken::Bytes(2));
    assert_eq!(rt; again.take(&mut buf), Taken::End);
    Ok(())
}

#[test]
fn writes_by_pieces(rt: HostRuntime) -> Result<(), Fail> {
    // The room, the most bytes a call, the calls that fail; whether all is written, and how many bytes are held.
    for (room, chunk, failing, whole, held) in [
        (64, 1, 99, true, 10),
        (64, 4, 99, true, 10),
        (10, 65_536, 99, true, 10),
        (64, 4, 3, false, 8),
        (64, 4, 1, false, 0),
        (6, 4, 99, false, 6),
        (0, 4, 99, false, 0),
    ] {
        let mut sink = sink(rt.alloc(), room, chunk, &[failing])?;
        let outcome = write_whole(&mut sink, LINES);
        assert_eq!(rt;
            outcome.is_ok(),
            whole,
            "room {room}, by {chunk}, failing {failing}"
        );
        assert_eq!(rt;
            sink.held().len(),
            held,
            "room {room}, by {chunk}, failing {failing}"
        );
        assert!(rt;
            LINES.starts_with(sink.held()),
            "room {room}, by {chunk}, failing {failing}"
        );
    }
    assert_eq!(rt; write_whole(&mut SureSink::new(), LINES), Ok(()));
    Ok(())
}

// Of its calls a signal interrupts the first ones, and the others fail or do the whole.
#[derive(Drop)]
struct Signalled {
    signals: u8,
    fails: bool,
}

impl Signalled {
    fn answer(&mut self, len: usize) -> io::Result<usize>
        ensures { IfOk result (λ n. n ≡ len) }
    {
        if self.signals > 0 {
            self.signals -= 1;
            return Err(ErrorKind::Interrupted.into());
        }
        if self.fails {
            return Err(ErrorKind::BrokenPipe.into());
        }
        Ok(len)
    }
}

impl Read for Signalled {
    fn read(&mut self, buf: &mut [u8]) -> io::Result<usize> {
        self.answer(buf.len())
    }
}

impl Write for Signalled {
    fn write(&mut self, buf: &[u8]) -> io::Result<usize> {
        self.answer(buf.len())
    }

    fn flush(&mut self) -> io::Result<()> {
        self.answer(0)?;
        Ok(())
    }
}

#[test]
fn interrupted_calls_are_made_again(rt: HostRuntime) {
    let mut buf = [0; 8];
    for (signals, fails, taken, given) in [
        (0, false, Taken::Bytes(8), Given::Bytes(10)),
        (3, false, Taken::Bytes(8), Given::Bytes(10)),
        (3, true, Taken::Failed, Given::Failed),
    ] {
        let mut end = Signalled { signals, fails };
        assert_eq!(rt; take_from(&mut end, &mut buf), taken);
        let mut end = Signalled { signals, fails };
        assert_eq!(rt; give_to(&mut end, LINES), given);
        let mut end = Signalled { signals, fails };
        assert_eq!(rt; flush(&mut end), !fails);
    }
}

// Gives a byte at every other call, and says that it ends at the others, as a terminal may.
#[derive(Drop)]
struct Bursts {
    calls: u64,
}

impl Source for Bursts {
    ghost left = { λ _. None };

    ghost faults = { λ _. 0 };

    fn take(&mut self, buf: &mut [u8]) -> Taken {
        self.calls = self.calls.wrapping_add(1);
        if self.calls % 2 == 0 {
            return Taken::End;
        }
        buf[0] = 7;
        Taken::Bytes(1)
    }
}

#[test]
fn nothing_is_taken_after_the_end(rt: HostRuntime) -> Result<(), Fail> {
    let mut bursts = Bursts { calls: 0 };
    let bytes = read_whole(rt.alloc(), &mut bursts).map_err(|_| "a read fault")?;
    assert_eq!(rt; bytes.as_slice(), [7].as_slice());
    assert_eq!(rt; bursts.calls, 2);

    let mut source = source(rt.alloc(), 64, &[])?;
    read_whole(rt.alloc(), &mut source).map_err(|_| "a read fault")?;
    let bytes = read_whole(rt.alloc(), &mut source).map_err(|_| "a read fault")?;
    assert_eq!(rt; bytes.len(), 0);
    Ok(())
}

// Takes four bytes a call, and notes how long each piece was.
#[derive(Drop)]
struct Noting {
    lens: [usize; 8],
    calls: usize,
}

impl Sink for Noting {
    ghost holds = { λ _. None };

    ghost faults = { λ _. 0 };

    fn give(&mut self, piece: &[u8]) -> Given {
        self.lens[self.calls % 8] = piece.len();
        self.calls = self.calls.wrapping_add(1);
        Given::Bytes(piece.len().min(4))
    }
}

#[test]
fn each_give_is_of_the_whole_rest(rt: HostRuntime) {
    let mut sink = Noting {
        lens: [0; 8],
        calls: 0,
    };
    assert_eq!(rt; write_whole(&mut sink, LINES), Ok(()));
    assert_eq!(rt; sink.lens, [10, 6, 2, 0, 0, 0, 0, 0]);
}

#[test]
fn errors_have_texts(rt: HostRuntime) -> Result<(), Fail> {
    for (error, text) in [
        (ReadError::TooLarge, "larger than 16777216 bytes"),
        (ReadError::Failed, "read fault"),
        (ReadError::NoMemory, "out of memory"),
    ] {
        let said = format!(in rt.alloc(); "{error}")?;
        assert_eq!(rt; said.as_str(), text);
    }
    let said = format!(in rt.alloc(); "{WriteError}")?;
    assert_eq!(rt; said.as_str(), "write fault");
    Ok(())
}

#[test]
fn standard_ends(rt: HostRuntime) -> Result<(), Fail> {
    let mut source = StdSource::new(rt.stdin());
    let bytes = read_whole(rt.alloc(), &mut source).map_err(|_| "a read fault")?;
    assert_eq!(rt; bytes.len(), 0);
    let mut sink = StdSink::new(rt.stdout());
    assert_eq!(rt; write_whole(&mut sink, LINES), Ok(()));
    Ok(())
}

fn pass<G: Gate + Sync>(gate: &G) {
    gate.at(Point::BeforeBegin, 1);
    gate.at(Point::AfterEnd, 1);
}

#[test]
fn open_gate_lets_pass() {
    pass(&OpenGate);
}
