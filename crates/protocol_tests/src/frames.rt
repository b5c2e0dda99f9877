//! Frames in pieces: those of a connection, those of a driver, and what is refused.

ghost use Rattle.std.specs.Prelude.{◌≤◌, length};

use cs_base::Bytes;
use frame_v4::{Decoded, Frame, FrameError, Framer, Frames, decode, write_frame, write_request};
use std::alloc::{AllocError, Global};
use std::process::Abort;
use std::test::Fail;

/// Requests of a connection that begins, in order: stream, opcode and bytes. They are written by hand after the protocol's
/// text: STARTUP, QUERY, PREPARE, EXECUTE, QUERY, QUERY and EXECUTE.
const CONNECTION: [(i16, u8, &str); 7] = [
    (
        0,
        0x01,
        "04 00 0000 01 00000016 0001 000B 43514C5F56455253494F4E 0005 332E302E30",
    ),
    (
        1,
        0x07,
        "04 00 0001 07 0000000D 00000006 555345206B73 0001 00",
    ),
    (
        2,
        0x09,
        "04 00 0002 09 00000026 00000022 494E5345525420494E544F207420286B2C2076292056414C55455320283F2C203F29",
    ),
    (
        3,
        0x0A,
        "04 00 0003 0A 00000039 0025 6B73 00 494E5345525420494E544F207420286B2C2076292056414C55455320283F2C203F29 0006 01 0002 00000004 00000001 00000001 78",
    ),
    (
        4,
        0x07,
        "04 00 0004 07 00000026 0000001B 53454C45435420762046524F4D2074205748455245206B203D2031 0006 04 00000064",
    ),
    (
        5,
        0x07,
        "04 00 0005 07 00000028 0000001B 53454C45435420762046524F4D2074205748455245206B203D203F 0001 01 0001 FFFFFFFD",
    ),
    (6, 0x0A, "04 00 0006 0A 00000006 0001 AB 0001 00"),
];

/// Requests as the DataStax Python driver 3.25 encodes them.
const DRIVER: [(i16, u8, &str); 10] = [
    // STARTUP
    (
        0,
        0x01,
        "040000000100000016 \
             0001000b43514c5f56455253494f4e0005332e342e30",
    ),
    // OPTIONS
    (2, 0x05, "040000020500000000"),
    // REGISTER
    (
        3,
        0x0b,
        "040000030b00000022 \
             0002000f544f504f4c4f47595f4348414e4745000d5354415455535f4348414e4745",
    ),
    // PREPARE
    (
        19653,
        0x09,
        "04004cc5090000000a \
             00000006555345206b73",
    ),
    // QUERY
    (
        3026,
        0x07,
        "04000bd2070000001e \
             00000006555345206b730001280000000501800000014000000000000000",
    ),
    // EXECUTE
    (
        32112,
        0x0a,
        "04007d700a00000026 \
             00199bb88761a8db3f4101c2285b15bfebc216dc1bbefea1d7d6eb0003150000000000640008",
    ),
    // BATCH
    (
        32676,
        0x0d,
        "04007fa40d00000025 \
             010001010008d3ac448f085617080002000000040000000400000004fffffffd0005100008",
    ),
    // BATCH
    (
        11659,
        0x0d,
        "04002d8b0d00000015 \
             0100010100085a9f61424b184d6d0000000a100009",
    ),
    // EXECUTE
    (
        8547,
        0x0a,
        "040021630a0000004d \
             00117762f0f3cb4d764dc7072051159a0f89f200081100040000000dcae344bb311245fd6f84df9a \
             d700000012b3d076ac0e8f53a7356c88913f20f6f72db0ffffffff000000040a96dad40009",
    ),
    // BATCH
    (
        30151,
        0x0d,
        "040075c70d00000084 \
             0100030000000006555345206b730000000000002653454c45435420762046524f4d206b732e7420 \
             5748455245206b203d203f204c494d4954203300020000000400000003ffffffff000000001b5345 \
             4c454354202a2046524f4d2074205748455245206b203d203100010000000882e7904fa14713d200 \
             093000094000000000000000",
    ),
];

fn digit(character: u8) -> u8 {
    match character {
        b'0'..=b'9' => character - b'0',
        b'A'..=b'F' => character - b'A' + 10,
        b'a'..=b'f' => character - b'a' + 10,
        _ => 0,
    }
}

/// Adds the bytes of hexadecimal text, in which spaces don't count.
fn push_hex(bytes: &mut Vec<u8>, text: &str) -> Result<(), AllocError> {
    let mut high = None;
    for character in text.as_bytes() {
        if *character == b' ' {
            continue;
        }
        match high {
            None => high = Some(digit(*character)),
            Some(first) => {
                bytes.push(u8::wrapping_mul(first, 16).wrapping_add(digit(*character)))?;
                high = None;
            }
        }
    }
    Ok(())
}

fn unhex(alloc: Global, text: &str) -> Result<Vec<u8>, AllocError> {
    let mut bytes = Vec::new(alloc);
    push_hex(&mut bytes, text)?;
    Ok(bytes)
}

fn append(frames: &mut Vec<Frame>, more: Frames) -> Result<(), AllocError> {
    frames.append(&mut more.into_vec())
}

/// Adds the frames that come of a piece, and tells why it is refused.
fn feed(
    framer: &mut Framer,
    frames: &mut Vec<Frame>,
    piece: &[u8],
) -> Result<Option<FrameError>, FrameError> {
    match framer.feed(piece) {
        Ok(given) => {
            append(frames, given)?;
            Ok(None)
        }
        Err(FrameError::NoMemory) => Err(FrameError::NoMemory),
        Err(error) => {
            append(frames, framer.taken())?;
            Ok(Some(error))
        }
    }
}

/// What comes of three pieces. After a refusal the other pieces are fed all the same.
fn feed_all(
    framer: &mut Framer,
    frames: &mut Vec<Frame>,
    pieces: [&[u8]; 3],
) -> Result<Option<FrameError>, FrameError> {
    let mut refusal = None;
    for piece in pieces {
        if let Some(error) = feed(framer, frames, piece)? {
            refusal = Some(error);
        }
    }
    Ok(refusal)
}

/// What comes of the bytes in three pieces.
fn cut(alloc: Global, bytes: &[u8], first: usize, second: usize) -> Result<Decoded, FrameError>
    requires in_order { first ≤ second }
    requires within { second ≤ length bytes.now }
{
    let pieces = [&bytes[..first], &bytes[first..second], &bytes[second..]];
    let mut frames = Vec::new(alloc);
    let refusal = feed_all(&mut Framer::new(alloc), &mut frames, pieces)?;
    Ok(Decoded {
        frames: Frames::from_vec(frames),
        refusal,
    })
}

/// The frame has these fields, and the bytes behind its header.
fn is_row(frame: &Frame, stream: i16, opcode: u8, bytes: &[u8]) -> bool {
    frame.flags == 0
        && frame.stream == stream
        && frame.opcode == opcode
        && 9 <= bytes.len()
        && frame.body.as_slice() == &bytes[9..]
}

/// There is no refusal, and one frame, which has these fields and the bytes.
fn is_request(decoded: &Decoded, row: (i16, u8, &str), bytes: &[u8]) -> bool {
    match decoded.frames.as_slice() {
        [frame] => decoded.refusal.is_none() && is_row(frame, row.0, row.1, bytes),
        _ => false,
    }
}

fn comes_of_pieces(
    alloc: Global,
    row: (i16, u8, &str),
    bytes: &[u8],
    first: usize,
    second: usize,
) -> Result<bool, FrameError>
    requires in_order { first ≤ second }
    requires within { second ≤ length bytes.now }
{
    let decoded = cut(alloc, bytes, first, second)?;
    Ok(is_request(&decoded, row, bytes))
}

/// A request, cut at each place, and a short one at each two places.
fn request_in_any_pieces(
    rt: &impl Abort,
    alloc: Global,
    row: (i16, u8, &str),
    bytes: &[u8],
) -> Result<(), FrameError> {
    let text = row.2;
    for first in 0..bytes.len() + 1 {
        let most = if bytes.len() <= 32 {
            bytes.len()
        } else {
            first
        };
        for second in first..most + 1 {
            assert!(rt;
                comes_of_pieces(alloc, row, bytes, first, second)?,
                "{text} {first} {second}"
            );
        }
    }
    Ok(())
}

#[test]
fn requests_in_any_pieces(rt: HostRuntime) -> Result<(), Fail> {
    for rows in [CONNECTION.as_slice(), DRIVER.as_slice()] {
        for row in rows {
            let bytes = unhex(rt.alloc(), row.2)?;
            request_in_any_pieces(&rt, rt.alloc(), *row, &bytes)?;
        }
    }
    Ok(())
}

/// A connection's stream, with a frame at its end that is too long.
fn connection(alloc: Global) -> Result<Vec<u8>, AllocError> {
    let mut stream = Vec::new(alloc);
    for (_, _, text) in &CONNECTION {
        push_hex(&mut stream, text)?;
    }
    push_hex(&mut stream, "04 00 0007 07 01000001 00000001 41")?;
    Ok(stream)
}

fn is_frame(alloc: Global, frame: &Frame, row: (i16, u8, &str)) -> Result<bool, AllocError> {
    Ok(is_row(frame, row.0, row.1, &unhex(alloc, row.2)?))
}

fn are_connection(alloc: Global, frames: &[Frame]) -> Result<bool, AllocError> {
    for (row, frame) in CONNECTION.iter().zip(frames) {
        if !is_frame(alloc, frame, *row)? {
            return Ok(false);
        }
    }
    Ok(frames.len() == CONNECTION.len())
}

fn is_connection(alloc: Global, stream: &[u8], place: usize) -> Result<bool, FrameError>
    requires within { place ≤ length stream.now }
{
    let decoded = cut(alloc, stream, place, place)?;
    let refusal = FrameError::TooLong(7, 16_777_217);
    Ok(decoded.refusal == Some(refusal) && are_connection(alloc, decoded.frames.as_slice())?)
}

/// The stream, cut at each place.
fn connection_in_any_pieces(
    rt: &impl Abort,
    alloc: Global,
    stream: &[u8],
) -> Result<(), FrameError> {
    for place in 0..stream.len() + 1 {
        assert!(rt; is_connection(alloc, stream, place)?, "{place}");
    }
    Ok(())
}

#[test]
fn stream_in_any_pieces(rt: HostRuntime) -> Result<(), Fail> {
    let stream = connection(rt.alloc())?;
    connection_in_any_pieces(&rt, rt.alloc(), &stream)?;
    Ok(())
}

/// Streams and their refusals.
const REFUSALS: [(&str, FrameError); 10] = [
    ("05", FrameError::Version(5)),
    ("84 00 0000 02 00000000", FrameError::Version(0x84)),
    ("00", FrameError::Version(0)),
    ("04 01 0001 07 00000000", FrameError::Compressed(1)),
    // The flag comes before the length, and other flags pass.
    ("04 03 0102 07 FFFFFFFF", FrameError::Compressed(258)),
    ("04 01 FFFF 07 7FFFFFFF 00", FrameError::Compressed(-1)),
    ("04 0E 0001 07 FFFFFFFF", FrameError::NegativeLength(1, -1)),
    (
        "04 00 8000 07 80000000",
        FrameError::NegativeLength(-32768, -2_147_483_648),
    ),
    (
        "04 00 7FFF 07 01000001",
        FrameError::TooLong(32767, 16_777_217),
    ),
    (
        "04 00 FFFE 07 7FFFFFFF",
        FrameError::TooLong(-2, 2_147_483_647),
    ),
];

/// The stream of the text between two frames.
fn between_frames(alloc: Global, text: &str) -> Result<Vec<u8>, AllocError> {
    let mut stream = unhex(alloc, "04 0A FFFE 05 00000002 ABCD")?;
    push_hex(&mut stream, text)?;
    push_hex(&mut stream, "04 00 0001 05 00000000")?;
    Ok(stream)
}

/// Whether the first of these frames alone is there, and this refusal.
fn is_refused(decoded: &Decoded, refusal: FrameError) -> bool {
    match decoded.frames.as_slice() {
        [frame] => {
            decoded.refusal == Some(refusal)
                && frame.flags == 0x0A
                && frame.stream == -2
                && frame.body.as_slice() == b"\xAB\xCD".as_slice()
        }
        _ => false,
    }
}

fn is_refused_in_pieces(
    alloc: Global,
    refusal: FrameError,
    stream: &[u8],
    place: usize,
) -> Result<bool, FrameError>
    requires within { place ≤ length stream.now }
{
    let decoded = cut(alloc, stream, place, place)?;
    Ok(is_refused(&decoded, refusal))
}

/// The stream, cut at each place.
fn refusal_in_any_pieces(
    rt: &impl Abort,
    alloc: Global,
    (text, refusal): (&str, FrameError),
    stream: &[u8],
) -> Result<(), FrameError> {
    for place in 0..stream.len() + 1 {
        assert!(rt;
            is_refused_in_pieces(alloc, refusal, stream, place)?,
            "{text} {place}"
        );
    }
    Ok(())
}

/// A frame before a refusal is kept, and what comes behind changes nothing.
#[test]
fn refusals(rt: HostRuntime) -> Result<(), Fail> {
    for row in &REFUSALS {
        let stream = between_frames(rt.alloc(), row.0)?;
        refusal_in_any_pieces(&rt, rt.alloc(), *row, &stream)?;
    }
    Ok(())
}

/// Whether no frame and no refusal comes of the bytes.
fn gives_nothing(alloc: Global, bytes: &[u8]) -> Result<bool, FrameError> {
    let decoded = cut(alloc, bytes, 0, bytes.len())?;
    Ok(decoded.refusal.is_none() && decoded.frames.as_slice().is_empty())
}

fn is_held(alloc: Global, text: &str) -> Result<bool, FrameError> {
    gives_nothing(alloc, &unhex(alloc, text)?)
}

/// What is refused only when nine bytes are there, and the longest body, are held.
#[test]
fn held_so_far(rt: HostRuntime) -> Result<(), Fail> {
    for text in &[
        "04",
        "04 01 0001 07 000000",
        "04 00 0001 07 FFFFFF",
        "04 00 0001 07 01000000",
    ] {
        assert!(rt; is_held(rt.alloc(), text)?, "{text}");
    }
    Ok(())
}

fn are_sevens(bytes: &[u8]) -> bool {
    for byte in bytes {
        if *byte != 7 {
            return false;
        }
    }
    true
}

fn is_longest(frames: &[Frame]) -> bool {
    match frames {
        [frame] => {
            let body = frame.body.as_slice();
            frame.stream == 1 && body.len() == 16_777_216 && are_sevens(body)
        }
        _ => false,
    }
}

/// Whether no frame comes of the piece.
fn gives_none(framer: &mut Framer, piece: &[u8]) -> Result<bool, FrameError> {
    Ok(framer.feed(piece)?.as_slice().is_empty())
}

/// Whether the longest body comes of so many of the piece, with the last of them.
fn gives_longest(framer: &mut Framer, piece: &[u8], count: usize) -> Result<bool, FrameError> {
    for _ in 1..count {
        if !gives_none(framer, piece)? {
            return Ok(false);
        }
    }
    Ok(is_longest(framer.feed(piece)?.as_slice()))
}

fn gives_longest_in(alloc: Global, length: usize, count: usize) -> Result<bool, FrameError> {
    let mut framer = Framer::new(alloc);
    if !gives_none(&mut framer, b"\x04\x00\x00\x01\x0A\x01\x00\x00\x00")? {
        return Ok(false);
    }
    let piece = vec![in alloc; 7u8; length]?;
    gives_longest(&mut framer, &piece, count)
}

/// A body of 16 MiB in pieces of 1 KiB takes a time in line with its length, and comes in large pieces too.
#[test]
fn longest_body_in_pieces(rt: HostRuntime) -> Result<(), Fail> {
    for (length, count) in [(1024, 16384), (262_144, 64)] {
        assert!(rt; gives_longest_in(rt.alloc(), length, count)?, "{length}");
    }
    Ok(())
}

fn taken_count(framer: &mut Framer) -> usize {
    framer.taken().as_slice().len()
}

/// Whether the piece is refused as the stream is.
fn is_bad_version(framer: &mut Framer, piece: &[u8]) -> bool {
    framer.feed(piece).err() == Some(FrameError::Version(255))
}

fn are_taken_once(framer: &mut Framer, stream: &[u8]) -> bool {
    taken_count(framer) == 0
        && is_bad_version(framer, stream)
        && is_bad_version(framer, b"\x04")
        && taken_count(framer) == 2
        && taken_count(framer) == 0
        && is_bad_version(framer, &[])
}

fn are_taken(alloc: Global, text: &str) -> Result<bool, AllocError> {
    let stream = unhex(alloc, text)?;
    Ok(are_taken_once(&mut Framer::new(alloc), &stream))
}

/// The frames before a refusal are taken once.
#[test]
fn frames_are_taken(rt: HostRuntime) -> Result<(), Fail> {
    let stream = "04 00 0001 05 00000000 04 00 0002 05 00000000 FF";
    assert!(rt; are_taken(rt.alloc(), stream)?);
    Ok(())
}

fn frame(alloc: Global, stream: i16, opcode: u8, body: &str) -> Result<Frame, AllocError> {
    Ok(Frame {
        flags: 0,
        stream,
        opcode,
        body: Bytes::from_vec(unhex(alloc, body)?),
    })
}

fn is_written(alloc: Global, frame: &Frame, bytes: &[u8]) -> Result<bool, AllocError> {
    if frame.body.as_slice().len() >= 100 {
        return Ok(false);
    }
    Ok(write_frame(alloc, frame)?.as_slice() == bytes)
}

fn is_spelled(
    alloc: Global,
    (stream, opcode, body, text): (i16, u8, &str, &str),
) -> Result<bool, AllocError> {
    let bytes = unhex(alloc, text)?;
    is_written(alloc, &frame(alloc, stream, opcode, body)?, &bytes)
}

#[test]
fn written_as_spelled(rt: HostRuntime) -> Result<(), Fail> {
    for row in &[
        (0, 0x02, "", "84 00 0000 02 00000000"),
        (
            1,
            0x08,
            "00000003 0002 6B73",
            "84 00 0001 08 00000008 00000003 0002 6B73",
        ),
        (3, 0x08, "00000001", "84 00 0003 08 00000004 00000001"),
        (
            5,
            0x00,
            "0000000A 0010 6261642076616C7565206C656E677468",
            "84 00 0005 00 00000016 0000000A 0010 6261642076616C7565206C656E677468",
        ),
    ] {
        let text = row.3;
        assert!(rt; is_spelled(rt.alloc(), *row)?, "{text}");
    }
    Ok(())
}

fn requests_of_the_driver(alloc: Global) -> Result<Vec<Bytes>, AllocError> {
    let mut pieces = Vec::new(alloc);
    for (_, _, text) in &DRIVER {
        pieces.push(Bytes::from_vec(unhex(alloc, text)?))?;
    }
    Ok(pieces)
}

fn is_written_again(alloc: Global, frame: &Frame, piece: &[u8]) -> Result<bool, AllocError> {
    if frame.body.as_slice().len() >= 1000 {
        return Ok(false);
    }
    Ok(write_request(alloc, frame)?.as_slice() == piece)
}

fn are_written_again(
    alloc: Global,
    frames: &[Frame],
    pieces: &[Bytes],
) -> Result<bool, AllocError> {
    for (frame, piece) in frames.iter().zip(pieces) {
        if !is_written_again(alloc, frame, piece.as_slice())? {
            return Ok(false);
        }
    }
    Ok(frames.len() == DRIVER.len())
}

fn are_decoded_and_written(alloc: Global, pieces: &[Bytes]) -> Result<bool, AllocError> {
    let decoded = decode(alloc, pieces)?;
    let frames = decoded.frames.as_slice();
    Ok(decoded.refusal.is_none() && are_written_again(alloc, frames, pieces)?)
}

fn are_the_drivers(alloc: Global) -> Result<bool, AllocError> {
    let pieces = requests_of_the_driver(alloc)?;
    are_decoded_and_written(alloc, &pieces)
}

/// What the driver wrote is decoded from pieces and written again.
#[test]
fn requests_are_written_again(rt: HostRuntime) -> Result<(), Fail> {
    assert!(rt; are_the_drivers(rt.alloc())?);
    Ok(())
}

fn is_printed(alloc: Global, error: FrameError, text: &str) -> Result<bool, AllocError> {
    Ok(format!(in alloc; "{error}")?.as_str() == text)
}

#[test]
fn refusals_print(rt: HostRuntime) -> Result<(), Fail> {
    for (error, text) in &[
        (FrameError::Version(5), "version byte 0x05 in place of 0x04"),
        (FrameError::Compressed(-1), "compressed frame on stream -1"),
        (
            FrameError::TooLong(7, 16_777_217),
            "body of 16777217 bytes on stream 7, more than 16 MiB",
        ),
        (
            FrameError::NegativeLength(0, -3),
            "body of -3 bytes on stream 0",
        ),
        (FrameError::NoMemory, "out of memory"),
    ] {
        assert!(rt; is_printed(rt.alloc(), *error, text)?, "{text}");
    }
    Ok(())
}
