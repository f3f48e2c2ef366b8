//! Messages from a stream of frames that is given in pieces.
ghost use Rattle.std.specs.Prelude.{◌≡◌, ◌⊎◌, ◌<◌, ◌++◌, [], length, None, IfOk, IfErr, OnOk};
ghost use Rattle.std.specs.Prelude.{OnErr};
ghost use Rattle.warm_frames.specs.declared.layout.TheConstants.{HEADER_SIZE};
ghost use Rattle.warm_frames.specs.Encoding.{Encodes};
ghost use Rattle.warm_frames.specs.Sizes.{frame_size, KnowsSize, SaysSize};
ghost use Rattle.warm_frames.specs.Pieces.{DecoderState.Inside, DecodesWith, FeedStep, KnowsWith};
ghost use Rattle.warm_frames.specs.Pieces.{finish_of};

use crate::fault::FrameFault;
use crate::layout::HEADER_SIZE;
use crate::message::{BoxedMessage, decode_boxed};
use crate::reading::frame_size;
use std::alloc::Global;
use std::cmp::min;
use std::marker::Model;

/// What [`Decoder::feed`] did with a piece.
#[derive(Debug, Drop)]
pub struct Fed {
    /// The number of bytes of the piece that were consumed: up to the end of the frame, or all of
    /// them.
    pub taken: usize,
    /// The message of the frame that is now complete, if one is.
    pub message: Option<BoxedMessage>,
}

/// Decodes the frames of a stream, however the stream is cut into pieces.
///
/// It returns a message as soon as the last byte of its frame is there. Until then it holds the
/// bytes of the frame that has begun, and no others. After a fault it may still hold the bytes of
/// that frame from earlier pieces, until it is dropped; it reads them no more and holds no further
/// ones. Contracts see its state: inside a frame of which these bytes have come, or after a fault.
#[derive(Debug, Drop)]
pub struct Decoder {
    alloc: Global,
    // The bytes of the frame that has begun. After a fault they have no meaning.
    held: Vec<u8>,
    // The size of the whole frame, once its header is complete.
    size: Option<usize>,
    failed: bool,
}

impl Model for Decoder {
    ghost use Rattle.warm_frames.specs.Encoding.{Encodes};
    ghost use Rattle.warm_frames.specs.Sizes.{KnowsSize};
    ghost use Rattle.warm_frames.specs.Pieces.{DecoderState, state_of};

    ghost Value = { DecoderState };

    ghost view = { λ d. state_of d.failed d.held.items };

    ghost invariant = { λ d. KnowsSize d.held.items d.size };
}

// The size of the frame that begins with the bytes held and goes on with the piece. A header may be
// split between the two: it is assembled on the stack.
fn size_with(held: &[u8], piece: &[u8]) -> Result<usize, FrameFault>
    requires { length held.now < HEADER_SIZE }
    ensures { result ≡ frame_size (held.now ++ piece.now) }
{
    let mut header = [0; HEADER_SIZE];
    let len = held.len();
    let more = min(HEADER_SIZE - len, piece.len());
    header[..len].copy_from_slice(held);
    header[len..len + more].copy_from_slice(&piece[..more]);
    frame_size(&header[..len + more])
}

// The size of the frame, if its header is complete with the piece. It may be known already.
fn size_of(held: &[u8], known: Option<usize>, piece: &[u8]) -> Result<Option<usize>, FrameFault>
    requires { KnowsSize held.now known }
    ensures { SaysSize held.now piece.now result }
{
    if let Some(size) = known {
        return Ok(Some(size));
    }
    match size_with(held, piece) {
        Ok(size) => Ok(Some(size)),
        Err(fault) => {
            if let FrameFault::Truncated = fault {
                return Ok(None);
            }
            Err(fault)
        }
    }
}

// Appends the bytes of the piece to those held.
fn hold(held: &mut Vec<u8>, piece: &[u8]) -> Result<(), FrameFault>
    ensures ok { OnOk result (held.new.items ≡ held.old.items ++ piece.now) }
    ensures err { OnErr result (held.new.items ≡ held.old.items) }
    ensures memory { IfErr result (λ fault. fault ≡ FrameFault.Memory) }
{
    held.extend_from_slice(piece)?;
    Ok(())
}

// The answer to a piece that was consumed whole, if the frame is not complete yet.
fn all_of(piece: &[u8]) -> Fed
    ensures taken { result.taken ≡ length piece.now }
    ensures none { result.message ≡ None }
{
    Fed {
        taken: piece.len(),
        message: None,
    }
}

// The message of the frame that consists of the bytes held and those at its end. A frame that lies
// whole in one piece is decoded in place, without a copy.
fn message_with(alloc: Global, held: &mut Vec<u8>, end: &[u8]) -> Result<BoxedMessage, FrameFault>
    ensures reads { DecodesWith held.old.items end.now result held.new.items }
    ensures encodes { IfOk result (λ message. Encodes (held.old.items ++ end.now) message) }
{
    if held.is_empty() {
        return decode_boxed(alloc, end);
    }
    let before = held.len();
    hold(held, end)?;
    match decode_boxed(alloc, held) {
        Err(FrameFault::Memory) => {
            held.truncate(before);
            Err(FrameFault::Memory)
        }
        answer => answer,
    }
}

impl Decoder {
    /// A decoder at the beginning of a stream. Allocation-free.
    pub fn new(alloc: Global) -> Decoder
        ensures { result ≡ Inside [] }
    {
        Decoder {
            alloc,
            held: Vec::new(alloc),
            size: None,
            failed: false,
        }
    }

    /// Consumes the bytes of the piece up to the end of the frame that has begun, and returns the
    /// message that it encodes; or all bytes, if the frame isn't complete yet. The bytes not
    /// consumed belong to the next frame: feed them again.
    ///
    /// Refused:
    /// - `Memory`: an allocation failed, for the bytes, the message or its entries. Nothing was
    ///   consumed, and the same piece may be fed again;
    /// - any fault of [`decode`] but `Truncated`, at the byte that shows it: a fault of a header
    ///   field at the field's last byte, a fault of the body at the body's last byte. No
    ///   message's encoding begins with the bytes up to there;
    /// - `Failed`: there was a fault before. Nothing more is consumed.
    pub fn feed(&mut self, piece: &[u8]) -> Result<Fed, FrameFault>
        ensures { FeedStep self.old piece.now result self.new }
    {
        if self.failed {
            return Err(FrameFault::Failed);
        }
        match size_of(&self.held, self.size, piece) {
            Ok(size) => self.take(size, piece),
            Err(fault) => {
                self.failed = true;
                Err(fault)
            }
        }
    }

    // Consumes bytes of the piece, given what is known of the frame's size.
    fn take(&mut self, size: Option<usize>, piece: &[u8]) -> Result<Fed, FrameFault>
        requires { KnowsWith self.old piece.now size }
        ensures { FeedStep self.old piece.now result self.new }
    {
        let Some(size) = size else {
            hold(&mut self.held, piece)?;
            return Ok(all_of(piece));
        };
        let missing = size - self.held.len();
        if piece.len() < missing {
            hold(&mut self.held, piece)?;
            self.size = Some(size);
            return Ok(all_of(piece));
        }
        match message_with(self.alloc, &mut self.held, &piece[..missing]) {
            Ok(message) => {
                self.held.clear();
                self.size = None;
                Ok(Fed {
                    taken: missing,
                    message: Some(message),
                })
            }
            Err(fault) => {
                if let FrameFault::Memory = fault {
                    return Err(fault);
                }
                self.held.clear();
                self.size = None;
                self.failed = true;
                Err(fault)
            }
        }
    }

    /// Whether the stream may end here. `Truncated` inside a frame, `Failed` after a fault.
    pub fn finish(&self) -> Result<(), FrameFault>
        ensures { result ≡ finish_of self.now }
    {
        if self.failed {
            Err(FrameFault::Failed)
        } else if self.held.is_empty() {
            Ok(())
        } else {
            Err(FrameFault::Truncated)
        }
    }
}
