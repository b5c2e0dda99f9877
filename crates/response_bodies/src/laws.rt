//! What holds of all bodies: laws, each the contract of a function that does nothing.

ghost use Rattle.response_bodies.specs.Laws.{OneReading, DecodingUndoesEncoding, EncodingUndoesDecoding};

/// No bytes are the body of two responses.
pub fn one_reading()
    ensures { OneReading }
{}

/// What is encoded is a word of the grammar, and is decoded to the same response.
pub fn decoding_undoes_encoding()
    ensures { DecodingUndoesEncoding }
{}

/// What is decoded is encoded as the same bytes, but for a null cell or paging state, each of which has many spellings.
pub fn encoding_undoes_decoding()
    ensures { EncodingUndoesDecoding }
{}
