//! A header without filters and its bytes: each gives the other.
ghost use Rattle.fractal_heap.specs.SpellingLaws.{SpelledIsRead, ReadIsSpelled};

/// Where the bytes of a header stand whose fields fit their widths, it is read, whatever else the file holds.
pub fn spelled_headers_are_read()
    ensures { SpelledIsRead }
{}

/// A header that is read stands there byte for byte as it is spelled, and its fields fit their widths.
pub fn read_headers_are_spelled()
    ensures { ReadIsSpelled }
{}
