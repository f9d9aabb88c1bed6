//! Answers whose text is always the same.

/// The head of the answer to a live listener. Its content ends with the connection.
pub const LIVE: &[u8] = b"HTTP/1.1 200 OK\r\n\
    Content-Type: application/ogg\r\n\
    Cache-Control: no-store\r\n\
    Connection: close\r\n\r\n";

/// The answer to a connection too many.
pub const FULL: &[u8] = b"HTTP/1.1 503 Service Unavailable\r\n\
    Retry-After: 1\r\n\
    Content-Length: 0\r\n\
    Connection: close\r\n\r\n";
