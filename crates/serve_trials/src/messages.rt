// Messages that the trials make. None where there is no memory for one.
use std::alloc::Global;

/// The pieces, one after another.
pub fn joined(alloc: Global, pieces: &[&[u8]]) -> Option<Vec<u8>> {
    let mut bytes = Vec::new(alloc);
    for piece in pieces {
        bytes.extend_from_slice(piece).ok()?;
    }
    Some(bytes)
}

/// A piece so many times, after another one.
pub fn repeated(alloc: Global, first: &[u8], piece: &[u8], count: usize) -> Option<Vec<u8>> {
    let mut bytes = joined(alloc, &[first])?;
    for _ in 0..count {
        bytes.extend_from_slice(piece).ok()?;
    }
    Some(bytes)
}

/// A message without a body.
pub fn bare(alloc: Global, method: &str, target: &str) -> Option<Vec<u8>> {
    let end = b" HTTP/1.1\r\nContent-Length: 0\r\n\r\n".as_slice();
    joined(
        alloc,
        &[method.as_bytes(), b" ".as_slice(), target.as_bytes(), end],
    )
}

/// A digit of a number, of this unit or of ones.
fn digit(number: usize, unit: usize) -> u8 {
    b'0' + (number / unit.max(1) % 10) as u8
}

/// A POST with a body of at most 9,999 bytes.
pub fn with_body(alloc: Global, target: &str, body: &[u8]) -> Option<Vec<u8>> {
    let start = b"POST ".as_slice();
    let between = b" HTTP/1.1\r\nContent-Length: ".as_slice();
    let len = body.len();
    let digits = [
        digit(len, 1000),
        digit(len, 100),
        digit(len, 10),
        digit(len, 1),
    ];
    let end = b"\r\n\r\n".as_slice();
    joined(
        alloc,
        &[start, target.as_bytes(), between, &digits, end, body],
    )
}

/// A head of so many bytes, at least 30, that asks for the state.
pub fn long_head(alloc: Global, len: usize) -> Option<Vec<u8>> {
    let mut head = repeated(
        alloc,
        b"GET /v1/state HTTP/1.1\r\nA:",
        b"a",
        len.saturating_sub(30),
    )?;
    head.extend_from_slice(b"\r\n\r\n").ok()?;
    Some(head)
}

/// A head with so many fields, 26 bytes and six for each field, that asks for the state.
pub fn many_fields(alloc: Global, count: usize) -> Option<Vec<u8>> {
    let mut head = repeated(alloc, b"GET /v1/state HTTP/1.1\r\n", b"A: b\r\n", count)?;
    head.extend_from_slice(b"\r\n").ok()?;
    Some(head)
}
