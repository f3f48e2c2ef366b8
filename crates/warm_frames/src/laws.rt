//! The laws of the encoding and of streams: the encoding is injective and prefix-free, and a stream
//! has one reading, however it is cut into pieces.
ghost use Rattle.warm_frames.specs.Laws.{EncodingIsInjective, PrefixFree, InPieces, FaultInPieces};
ghost use Rattle.warm_frames.specs.Laws.{OneReading, OneFault, PartOrFault, FaultForGood};
ghost use Rattle.warm_frames.specs.Laws.{PartIsShort};

/// The encoding is injective: no two messages share one, in whichever formats.
pub fn encoding_is_injective()
    ensures { EncodingIsInjective }
{}

/// The encoding is prefix-free: no frame is a proper prefix of another.
pub fn prefix_free()
    ensures { PrefixFree }
{}

/// The bytes that a decoder consumed, in any pieces, encode the messages that it returned, one
/// after the other, and are then a part of the next frame.
pub fn in_pieces()
    ensures { InPieces }
{}

/// If a decoder then finds a fault, the bytes up to it show it.
pub fn fault_in_pieces()
    ensures { FaultInPieces }
{}

/// A stream is the frames of exactly one list of messages, and one rest.
pub fn one_reading()
    ensures { OneReading }
{}

/// A stream shows at most one fault, after one list of messages.
pub fn one_fault()
    ensures { OneFault }
{}

/// A stream that ends inside a frame shows no fault.
pub fn part_or_fault()
    ensures { PartOrFault }
{}

/// No frame begins with bytes that show a fault, whatever follows them.
pub fn fault_for_good()
    ensures { FaultForGood }
{}

/// A part of a frame, such as a decoder holds, has fewer bytes than the longest frame.
pub fn part_is_short()
    ensures { PartIsShort }
{}
