//! Files made from a number.
use std::alloc::{AllocError, Global};

const PAGE_SIZE: usize = 4096;

/// The size of the pattern that pages are cut from, in bytes.
const PATTERN_SIZE: usize = 65_536;

/// Numbers that look random (xorshift, George Marsaglia, 2003).
#[derive(Clone, Copy)]
pub struct Numbers(u64);

impl Numbers {
    pub fn new(seed: u64) -> Numbers {
        Numbers(seed.wrapping_mul(0x9e37_79b9_7f4a_7c15) | 1)
    }

    pub fn next(&mut self) -> u64 {
        let mut x = self.0;
        x ^= x << 13;
        x ^= x >> 7;
        x ^= x << 17;
        self.0 = x;
        x
    }
}

/// Bytes of which no two pages are alike: each page is a piece of one pattern, and a number of its own.
pub fn bytes(alloc: Global, seed: u64, size: usize) -> Result<Vec<u8>, AllocError> {
    let mut numbers = Numbers::new(seed);
    let pattern = pattern(alloc, &mut numbers)?;
    let mut bytes = Vec::with_capacity(alloc, size)?;
    push_pages(&mut bytes, pattern.as_slice(), &mut numbers, size)?;
    Ok(bytes)
}

fn push_pages(
    bytes: &mut Vec<u8>,
    pattern: &[u8],
    numbers: &mut Numbers,
    size: usize,
) -> Result<(), AllocError> {
    for _ in 0..size / PAGE_SIZE {
        push_page(bytes, pattern, numbers.next(), PAGE_SIZE - 8)?;
    }
    if size % PAGE_SIZE >= 8 {
        push_page(bytes, pattern, numbers.next(), size % PAGE_SIZE - 8)?;
    }
    Ok(())
}

/// Adds a number, and so many bytes of the pattern.
fn push_page(
    bytes: &mut Vec<u8>,
    pattern: &[u8],
    number: u64,
    size: usize,
) -> Result<(), AllocError> {
    let from = (number % 60_000) as usize;
    bytes.extend_from_slice(&number.to_le_bytes())?;
    match pattern.get(from..from.saturating_add(size)) {
        Some(piece) => bytes.extend_from_slice(piece),
        None => Ok(()),
    }
}

fn pattern(alloc: Global, numbers: &mut Numbers) -> Result<Vec<u8>, AllocError> {
    let mut pattern = Vec::with_capacity(alloc, PATTERN_SIZE)?;
    for _ in 0..PATTERN_SIZE / 8 {
        pattern.extend_from_slice(&numbers.next().to_le_bytes())?;
    }
    Ok(pattern)
}

/// An arm64 Image of this size, whose memory is a quarter larger.
pub fn image(alloc: Global, seed: u64, size: usize) -> Result<Vec<u8>, AllocError> {
    let mut image = Vec::with_capacity(alloc, size)?;
    let memory = (size as u64).saturating_add(size as u64 / 4);
    image.extend_from_slice(&[0x4d, 0x5a, 0x40, 0xfa, 0, 0, 0, 0x14])?;
    image.extend_from_slice(&[0; 8])?;
    image.extend_from_slice(&memory.to_le_bytes())?;
    image.extend_from_slice(&[0x0a, 0, 0, 0, 0, 0, 0, 0])?;
    image.extend_from_slice(&[0; 24])?;
    image.extend_from_slice(b"ARM\x64")?;
    image.extend_from_slice(&[0; 4])?;
    let mut numbers = Numbers::new(seed);
    let pattern = pattern(alloc, &mut numbers)?;
    push_pages(
        &mut image,
        pattern.as_slice(),
        &mut numbers,
        size.saturating_sub(64),
    )?;
    Ok(image)
}
