//! What holds of all bodies: laws, each the contract of a function that does nothing.

ghost use Rattle.request_bodies.specs.Laws.{OneReading, DecodingUndoesEncoding, EncodingUndoesDecoding};

/// No bytes are the body of two requests.
pub fn one_reading()
    ensures { OneReading }
{}

/// What is encoded is a word of the grammar, and is decoded to the same request.
pub fn decoding_undoes_encoding()
    ensures { DecodingUndoesEncoding }
{}

/// What is decoded is encoded as the same bytes, but for a paging state that is null, which has many spellings, and for a
/// custom payload, which is not kept.
pub fn encoding_undoes_decoding()
    ensures { EncodingUndoesDecoding }
{}
