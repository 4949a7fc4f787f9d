use facet_codec::{CodecFault, Cursor, NoMemory, put_text, put_u8, put_u32, put_u64, put_vint};
use std::alloc::Global;
use std::test::Fail;

// Returns what is read after the first byte, and where the cursor is then.
fn vint_behind(bytes: &[u8]) -> (Result<u32, CodecFault>, usize) {
    let mut cursor = Cursor::new(bytes);
    let _ = cursor.u8();
    let read = cursor.vint();
    (read, cursor.at())
}

fn text_of(bytes: &[u8], max: u32) -> (Result<&str, CodecFault>, usize) {
    let mut cursor = Cursor::new(bytes);
    let read = cursor.text(max);
    (read, cursor.rest())
}

const SPELLED: &[(u32, &[u8])] = &[
    (0, &[9, 0x00]),
    (127, &[9, 0x7f]),
    (128, &[9, 0x80, 0x01]),
    (300, &[9, 0xac, 0x02]),
    (2097152, &[9, 0x80, 0x80, 0x80, 0x01]),
    (4294967295, &[9, 0xff, 0xff, 0xff, 0xff, 0x0f]),
];

fn spelled(alloc: Global, value: u32) -> Result<Vec<u8>, Fail> {
    let mut spelled = Vec::new(alloc);
    spelled.push(9)?;
    put_vint(&mut spelled, value)?;
    Ok(spelled)
}

// Returns whether each value is spelled so after a byte, and read from it.
fn are_spelled(alloc: Global) -> Result<bool, Fail> {
    for (value, bytes) in SPELLED {
        let read = vint_behind(*bytes) == (Ok(*value), bytes.len());
        if spelled(alloc, *value)?.as_slice() != *bytes || !read {
            return Ok(false);
        }
    }
    Ok(true)
}

const SHORT: CodecFault = CodecFault::Short { at: 1 };

const LONG: CodecFault = CodecFault::LongSpelling { at: 1 };

const OVER: CodecFault = CodecFault::OutOfRange { at: 1 };

const REFUSED: &[(&[u8], CodecFault)] = &[
    (&[9], SHORT),
    (&[9, 0x80], SHORT),
    (&[9, 0xff, 0xff, 0xff, 0xff], SHORT),
    (&[9, 0x81, 0x00], LONG),
    (&[9, 0x80, 0x80, 0x00, 0x01], LONG),
    (&[9, 0x80, 0x80, 0x80, 0x80, 0x00], LONG),
    (&[9, 0xff, 0xff, 0xff, 0xff, 0x10], OVER),
    (&[9, 0x80, 0x80, 0x80, 0x80, 0x80], OVER),
    (&[9, 0x80, 0x80, 0x80, 0x80, 0x80, 0x00], OVER),
];

fn are_refused() -> bool {
    for (bytes, fault) in REFUSED {
        if vint_behind(*bytes) != (Err(*fault), 1) {
            return false;
        }
    }
    true
}

#[test]
fn vints(rt: HostRuntime) -> Result<(), Fail> {
    assert!(rt; are_spelled(rt.alloc())? && are_refused());
    Ok(())
}

fn written(alloc: Global) -> Result<Vec<u8>, NoMemory> {
    let mut out = Vec::new(alloc);
    put_u8(&mut out, 0xfe)?;
    put_u32(&mut out, 0x01020304)?;
    put_u64(&mut out, 0x05060708090a0b0c)?;
    put_text(&mut out, "é")?;
    Ok(out)
}

const WRITTEN: [u8; 16] = [0xfe, 1, 2, 3, 4, 5, 6, 7, 8, 9, 10, 11, 12, 2, 0xc3, 0xa9];

// Returns whether these bytes are read as what was written, and the end is reported.
fn are_read(bytes: &[u8]) -> bool {
    let mut cursor = Cursor::new(bytes);
    let numbers = cursor.u8() == Ok(0xfe)
        && cursor.u32() == Ok(0x01020304)
        && cursor.u64() == Ok(0x05060708090a0b0c);
    let short = cursor.bytes(4) == Err(CodecFault::Short { at: 13 });
    let text = cursor.bytes(3) == Ok([2, 0xc3, 0xa9].as_slice());
    numbers && short && text && cursor.u8().map_err(|fault| fault.at()) == Err(16)
}

// Returns whether reading more bytes than there are fails and takes none of them.
fn are_short(bytes: &[u8]) -> bool {
    let mut cursor = Cursor::new(bytes);
    let short = CodecFault::Short { at: 0 };
    cursor.u32() == Err(short) && cursor.u64() == Err(short) && cursor.rest() == bytes.len()
}

// The bytes, the greatest length, the result, and how many bytes are left.
type TextRow = (&'static [u8], u32, Result<&'static str, CodecFault>, usize);

const TEXTS: &[TextRow] = &[
    (&[0], 0, Ok(""), 0),
    (&[3, 0xc3, 0xa9, 0x6b, 7], 3, Ok("ék"), 1),
    (&[0x80], 9, Err(CodecFault::Short { at: 0 }), 1),
    (&[0x81, 0], 9, Err(CodecFault::LongSpelling { at: 0 }), 2),
    (
        &[0xff, 0xff, 0xff, 0xff, 0x10],
        9,
        Err(CodecFault::OutOfRange { at: 0 }),
        5,
    ),
    (&[3, 0xff], 2, Err(CodecFault::OutOfRange { at: 0 }), 2),
    (
        &[2, 0xff, 0xff],
        1,
        Err(CodecFault::OutOfRange { at: 0 }),
        3,
    ),
    (&[2, 0xff], 2, Err(CodecFault::Short { at: 0 }), 2),
    (&[1, 0xff], 1, Err(CodecFault::NotUtf8 { at: 0 }), 2),
    (
        &[2, 0x61, 0xc3, 0xa9],
        2,
        Err(CodecFault::NotUtf8 { at: 0 }),
        4,
    ),
];

fn are_texts() -> bool {
    for (bytes, max, want, left) in TEXTS {
        if text_of(*bytes, *max) != (*want, *left) {
            return false;
        }
    }
    true
}

fn numbers_are_read(alloc: Global) -> Result<bool, Fail> {
    let bytes = written(alloc)?;
    Ok(bytes.as_slice() == WRITTEN.as_slice() && are_read(&bytes))
}

#[test]
fn texts_and_numbers(rt: HostRuntime) -> Result<(), Fail> {
    assert!(rt; numbers_are_read(rt.alloc())? && are_short(&[1, 2, 3]) && are_texts());
    Ok(())
}
