//! Laws of streams of frames, which each call of a function of this module gives to its caller.

ghost use Rattle.frame_v4.specs.Laws.{OneReading, EachIsRead, GoesOn, RefusalStands, RefusalComes, FirstFrame};

/// A stream is read in one way, so it does not matter how it was cut into pieces.
pub fn one_reading()
    ensures { OneReading }
{}

/// The frames of a piece are read behind the bytes that were held before it.
pub fn goes_on()
    ensures { GoesOn }
{}

/// A fault is refused with its first byte or its whole header, and not before.
pub fn refusal_comes()
    ensures { RefusalComes }
{}

/// What comes behind a fault changes nothing.
pub fn refusal_stands()
    ensures { RefusalStands }
{}

/// What `write_request` wrote is read as that frame, whatever follows it.
pub fn first_frame()
    ensures { FirstFrame }
{}

/// Any bytes are frames and then less than a whole one, or a fault.
pub fn each_is_read()
    ensures { EachIsRead }
{}
