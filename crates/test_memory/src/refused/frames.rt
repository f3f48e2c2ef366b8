//! A frame of one entry, written and read, whole and in pieces.
use std::alloc::Global;
use test_kit::cases::{Ended, Met};
use warm_frames::{BoxedMessage, Decoder, Fed, FrameFault, Message, decode, encode};

// A frame of sender 1, with horizon 12 and the entry 0:7 with stamps 20@1 and 10@1.
const WIDE: [u8; 54] = [
    0x4C, 0x32, 0x47, 0x32, 1, 0, 1, 0, 0, 0, 0, 0, 0, 0, 0x0C, 0, 0, 0, 0x23, 0, 0, 0, 1, 0, 0, 0,
    0, 0, 0, 0, 0, 0, 7, 2, 0, 0, 0, 0, 0, 0, 0, 0x14, 0, 1, 0, 0, 0, 0, 0, 0, 0, 0x0A, 0, 1,
];

// The same in the older format, which has no horizon: it is 0.
const NARROW: [u8; 42] = [
    0x4C, 0x32, 0x47, 0x31, 1, 0, 1, 0, 0, 0, 0x1F, 0, 0, 0, 1, 0, 0, 0, 0, 0, 7, 2, 0, 0, 0, 0, 0,
    0, 0, 0x14, 0, 1, 0, 0, 0, 0, 0, 0, 0, 0x0A, 0, 1,
];

fn decoded(met: &mut Met, alloc: Global, bytes: &[u8]) -> Result<Message, Ended> {
    match decode(alloc, bytes) {
        Ok(message) => Ok(message),
        Err(fault) => {
            met.refuse(fault == FrameFault::Memory, "the bytes encode a message")?;
            match decode(alloc, bytes) {
                Ok(message) => Ok(message),
                Err(_) => Err(met.broken("decode is refused again")),
            }
        }
    }
}

fn encoded(met: &mut Met, alloc: Global, message: &Message, wanted: &[u8]) -> Result<(), Ended> {
    let bytes = match encode(alloc, message) {
        Ok(bytes) => bytes,
        Err(_) => {
            met.refuse(true, "")?;
            let Ok(bytes) = encode(alloc, message) else {
                return Err(met.broken("encode is refused again"));
            };
            bytes
        }
    };
    met.holds(
        bytes.as_slice() == wanted,
        "a message is written in one way",
    )
}

// Feeds a piece that lies in the frame. A refusal consumes nothing, so the same piece is fed again.
fn fed(met: &mut Met, decoder: &mut Decoder, piece: &[u8]) -> Result<Option<BoxedMessage>, Ended> {
    let Fed { taken, message } = match decoder.feed(piece) {
        Ok(fed) => fed,
        Err(fault) => {
            met.refuse(fault == FrameFault::Memory, "the pieces are of a frame")?;
            let Ok(fed) = decoder.feed(piece) else {
                return Err(met.broken("a piece is refused again"));
            };
            fed
        }
    };
    met.holds(taken == piece.len(), "a piece is taken whole")?;
    Ok(message)
}

fn pieces(met: &mut Met, alloc: Global) -> Result<(), Ended> {
    let mut decoder = Decoder::new(alloc);
    let first = fed(met, &mut decoder, &WIDE[..20])?;
    met.holds(first.is_none(), "20 bytes are no frame")?;
    let second = fed(met, &mut decoder, &WIDE[20..53])?;
    met.holds(second.is_none(), "53 bytes are no frame")?;
    let Some(message) = fed(met, &mut decoder, &WIDE[53..])? else {
        return Err(met.broken("54 bytes are a frame"));
    };
    encoded(met, alloc, message.as_message(), &WIDE)
}

pub(crate) fn rows(met: &mut Met, alloc: Global) -> Result<(), Ended> {
    let message = decoded(met, alloc, &WIDE)?;
    encoded(met, alloc, &message, &WIDE)?;
    let older = decoded(met, alloc, &NARROW)?;
    let mut widened = WIDE;
    widened[14] = 0;
    encoded(met, alloc, &older, &widened)?;
    pieces(met, alloc)
}
