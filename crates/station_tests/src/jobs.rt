// Jobs for tests.
use job::read::count_before;
use jobparts::bytes::rest_at;
use std::alloc::{AllocError, Global};

// The commands whose bodies are parted by `|`: ESC, a body, LF and NUL, one command behind the other. No bodies are no command.
pub fn framed(heap: Global, bodies: &[u8]) -> Result<Vec<u8>, AllocError> {
    let mut job = Vec::new(heap);
    if bodies.is_empty() {
        return Ok(job);
    }
    for body in bodies.split(|b| *b == b'|') {
        job.push(0x1b)?;
        job.extend_from_slice(body)?;
        job.extend_from_slice(b"\n\0")?;
    }
    Ok(job)
}

// The same commands, so many times.
pub fn repeated(heap: Global, bodies: &[u8], times: u32) -> Result<Vec<u8>, AllocError> {
    let once = framed(heap, bodies)?;
    let mut job = Vec::new(heap);
    for _ in 0..times {
        job.extend_from_slice(&once)?;
    }
    Ok(job)
}

// The place behind the command at a place: behind the first LF and one byte more.
pub fn behind(job: &[u8], at: usize) -> usize {
    let body = count_before(rest_at(job, at), b'\n');
    at.saturating_add(body).saturating_add(2)
}
