// Where the type section ends, which a record that is cut runs into.
use paper::Place;

// The bytes before the strings, as far as there are so many.
pub(crate) fn types_of(blob: &[u8]) -> &[u8] {
    let end = 24 + words::blob_word(blob, Place(12)) as usize;
    if blob.len() < end {
        return &blob[..0];
    }
    &blob[..end]
}
