ghost use Rattle.std.specs.Prelude.{◌≤◌, ◌<◌, ◌^◌, IfOk, length};

use facet_io::{
    Failed, MemorySink, MemorySource, ReadFault, Sink, Source, StdSink, StdSource, read_retrying,
    read_to_end, write_all, write_retrying,
};
use std::alloc::Global;
use std::io;
use std::io::{Read, Write};
use std::test::Fail;

const TEXT: &[u8] = b"facets and labels";

// Returns three bytes per call, and an error if none are left.
#[derive(Drop)]
struct Broken {
    bytes: &'static [u8],
}

impl Read for Broken {
    fn read(&mut self, into: &mut [u8]) -> io::Result<usize> {
        let count = into.len().min(self.bytes.len()).min(3);
        if count == 0 {
            return Err(io::ErrorKind::Other.into());
        }
        let (front, back) = self.bytes.split_at(count);
        into[..count].copy_from_slice(front);
        self.bytes = back;
        Ok(count)
    }
}

// Takes two bytes per call, and none once it is full.
#[derive(Drop)]
struct Small {
    room: usize,
}

impl Write for Small {
    fn write(&mut self, piece: &[u8]) -> io::Result<usize> {
        let count = piece.len().min(self.room).min(2);
        self.room -= count;
        Ok(count)
    }

    fn flush(&mut self) -> io::Result<()> {
        Ok(())
    }
}

// Returns or takes these bytes, at most five per call, and is interrupted twice before each such call.
#[derive(Drop)]
struct Interrupted {
    bytes: &'static [u8],
    left: u64,
}

impl Interrupted {
    fn new() -> Interrupted {
        Interrupted {
            bytes: TEXT,
            left: 2,
        }
    }

    fn next(&mut self, room: usize) -> io::Result<&'static [u8]>
        ensures { IfOk result (λ piece. length piece.now ≤ room) }
    {
        if self.left > 0 {
            self.left -= 1;
            return Err(io::ErrorKind::Interrupted.into());
        }
        self.left = 2;
        let count = room.min(self.bytes.len()).min(5);
        let (front, back) = self.bytes.split_at(count);
        self.bytes = back;
        Ok(front)
    }
}

impl Read for Interrupted {
    fn read(&mut self, into: &mut [u8]) -> io::Result<usize> {
        let piece = self.next(into.len())?;
        into[..piece.len()].copy_from_slice(piece);
        Ok(piece.len())
    }
}

impl Write for Interrupted {
    fn write(&mut self, piece: &[u8]) -> io::Result<usize> {
        let wanted = self.next(piece.len())?;
        if !piece.starts_with(wanted) {
            return Err(io::ErrorKind::Other.into());
        }
        Ok(wanted.len())
    }

    fn flush(&mut self) -> io::Result<()> {
        Ok(())
    }
}

// Returns whether one read returns what the reader returned after its interruptions.
fn reads_on() -> bool {
    let mut block = [0u8; 5];
    matches!(read_retrying(&mut Interrupted::new(), &mut block), Ok(5)) && block == *b"facet"
}

// Returns whether one write returns what the writer took after its interruptions.
fn writes_on() -> bool {
    matches!(write_retrying(&mut Interrupted::new(), TEXT), Ok(5))
}

fn source(alloc: Global, piece: usize, failing: &[u64]) -> Result<MemorySource, Fail>
    requires { 1 ≤ piece }
{
    let bytes = Vec::from_slice(alloc, TEXT)?;
    let failing = Vec::from_slice(alloc, failing)?;
    Ok(MemorySource::new(bytes, piece, failing))
}

// The piece, the reads that fail, the limit, and the result.
type Reading = (usize, &'static [u64], usize, Result<usize, ReadFault>);

const READINGS: &[Reading] = &[
    (1, &[], 17, Ok(17)),
    (5, &[], 17, Ok(17)),
    (100, &[], 100, Ok(17)),
    (5, &[], 16, Err(ReadFault::TooLong)),
    (1, &[], 0, Err(ReadFault::TooLong)),
    (5, &[1], 17, Err(ReadFault::Failed)),
    (5, &[9, 5], 17, Err(ReadFault::Failed)),
    (5, &[6, 0], 17, Ok(17)),
];

// Returns whether this is the result of reading the text.
fn answers<S: Source>(
    alloc: Global,
    source: &mut S,
    limit: usize,
    want: Result<usize, ReadFault>,
) -> bool
    requires { limit < 2 ^ 32 }
{
    match read_to_end(alloc, source, limit) {
        Ok(bytes) => bytes.as_slice() == TEXT && want == Ok(bytes.len()),
        Err(fault) => want == Err(fault),
    }
}

fn is_read(alloc: Global, reading: &Reading) -> Result<bool, Fail> {
    let (piece, failing, limit, want) = *reading;
    if piece == 0 || limit > 100 {
        return Ok(false);
    }
    let mut source = source(alloc, piece, failing)?;
    Ok(answers(alloc, &mut source, limit, want))
}

// Returns whether each reading has its result.
fn each_is_read(alloc: Global) -> Result<bool, Fail> {
    for reading in READINGS {
        if !is_read(alloc, reading)? {
            return Ok(false);
        }
    }
    Ok(true)
}

fn slice_is_read(alloc: Global) -> bool {
    let mut outside = StdSource::new(TEXT);
    answers(alloc, &mut outside, 17, Ok(17))
}

fn broken_fails(alloc: Global) -> bool {
    let mut broken = StdSource::new(Broken { bytes: TEXT });
    answers(alloc, &mut broken, 17, Err(ReadFault::Failed))
}

fn interrupted_is_read(alloc: Global) -> bool {
    let mut interrupted = StdSource::new(Interrupted::new());
    answers(alloc, &mut interrupted, 17, Ok(17))
}

// Returns whether only the second write fails, and leaves what was written before it.
fn second_write_fails(alloc: Global) -> Result<bool, Fail> {
    let mut sink = MemorySink::new(alloc, Vec::from_slice(alloc, &[2u64])?);
    let first = write_all(&mut sink, TEXT);
    let second = write_all(&mut sink, TEXT);
    let third = write_all(&mut sink, b"!");
    Ok(
        first == Ok(())
            && second == Err(Failed)
            && third == Ok(())
            && sink.bytes() == b"facets and labels!".as_slice(),
    )
}

fn vec_is_written(alloc: Global) -> bool {
    let mut outside = StdSink::new(Vec::new(alloc));
    write_all(&mut outside, TEXT) == Ok(())
}

// Returns whether a sink of five bytes takes two of them, and then not all of the text.
fn small_fails() -> bool {
    let mut small = StdSink::new(Small { room: 5 });
    small.write(TEXT) == Ok(2) && write_all(&mut small, TEXT) == Err(Failed)
}

fn interrupted_is_written() -> bool {
    let mut interrupted = StdSink::new(Interrupted::new());
    write_all(&mut interrupted, TEXT) == Ok(())
}

#[test]
fn sources_and_sinks(rt: HostRuntime) -> Result<(), Fail> {
    let alloc = rt.alloc();
    assert!(rt;
        each_is_read(alloc)?
            && slice_is_read(alloc)
            && broken_fails(alloc)
            && interrupted_is_read(alloc)
            && reads_on()
            && second_write_fails(alloc)?
            && vec_is_written(alloc)
            && small_fails()
            && interrupted_is_written()
            && writes_on()
    );
    Ok(())
}
