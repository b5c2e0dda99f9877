//! Decodes and encodes made mutations, and prints what came out: `mutations [CHANGES VALUE_LENGTH REPEATS]`.
//!
//! With three numbers it does so several times, and prints the nanoseconds of the fastest turns too. The mutations and the
//! counts are those of `bench/row_change/plain.rs`, which does the same without contracts.

use anyhow::Result;
use row_change::{CodecError, Mutation, decode_mutation, encode_mutation};
use std::alloc::{AllocError, Global};
use std::io;
use std::time::Instant;

/// How often each is measured.
const TURNS: u32 = 7;

/// A mutation of so many cells, ten to a row, with values of a length.
fn made_bytes(alloc: Global, count: u32, value_length: u32) -> Result<Vec<u8>, AllocError> {
    let mut bytes = Vec::new(alloc);
    bytes.extend_from_slice(b"\0\x03\0\0\0\0\0\0\0\x09\0\0\0\x08some key")?;
    bytes.extend_from_slice(&count.to_be_bytes())?;
    for at in 0..count {
        bytes.extend_from_slice(b"\x01\0\0\0\x04")?;
        bytes.extend_from_slice(&(at / 10).to_be_bytes())?;
        bytes.push((at % 10) as u8)?;
        bytes.push(1)?;
        bytes.extend_from_slice(&value_length.to_be_bytes())?;
        for place in 0..value_length {
            bytes.push((at.wrapping_add(place) % 256) as u8)?;
        }
        bytes.extend_from_slice(&u64::from(at).to_be_bytes())?;
        bytes.extend_from_slice(b"\0\0\0\0\0\0\0\x05\x02\0\0\0\0\0\0\0\x05")?;
    }
    Ok(bytes)
}

/// What a mutation is made of, so that two programs can be compared.
fn mix(mutation: &Mutation) -> u64 {
    let mut mix = 0u64;
    for change in mutation.changes.as_slice() {
        let length = match &change.value {
            Some(value) => value.as_slice().len() as u64,
            None => 0,
        };
        mix = mix
            .wrapping_mul(31)
            .wrapping_add(length)
            .wrapping_add(change.timestamp.cast_unsigned());
    }
    mix
}

fn decode_all(alloc: Global, bytes: &[u8], repeats: u32) -> Result<u64, CodecError> {
    let mut total = 0u64;
    for _ in 0..repeats {
        let mutation = decode_mutation(alloc, bytes)?;
        total = total.wrapping_add(mutation.changes.as_slice().len() as u64);
    }
    Ok(total)
}

/// Encodes what the bytes are decoded to.
fn encode_all(alloc: Global, bytes: &[u8], repeats: u32) -> Result<u64, CodecError> {
    let mutation = decode_mutation(alloc, bytes)?;
    let mut total = 0u64;
    for _ in 0..repeats {
        match encode_mutation(alloc, &mutation) {
            Ok(again) => total = total.wrapping_add(again.as_slice().len() as u64),
            Err(_) => return Err(CodecError::NoMemory),
        }
    }
    Ok(total)
}

fn print_sample(rt: &impl Print, alloc: Global, bytes: &[u8]) -> io::Result<()> {
    match decode_mutation(alloc, bytes) {
        Ok(mutation) => {
            let count = mutation.changes.as_slice().len();
            let mix = mix(&mutation);
            println!(rt; "bytes {}, changes {count}, mix {mix}", bytes.len())
        }
        Err(error) => println!(rt; "{error}"),
    }
}

/// The fastest of several turns of decoding, and of encoding.
fn run_timed(rt: &HostRuntime, count: u32, value_length: u32, repeats: u32) -> Result<()> {
    let bytes = made_bytes(rt.alloc(), count, value_length)?;
    print_sample(rt, rt.alloc(), &bytes)?;
    let mut decoding = u128::MAX;
    let mut encoding = u128::MAX;
    let mut total = 0u64;
    for _ in 0..TURNS {
        let start = Instant::now(rt)?;
        let decoded = decode_all(rt.alloc(), &bytes, repeats).unwrap_or(0);
        decoding = decoding.min(start.elapsed(rt)?.as_nanos());
        let start = Instant::now(rt)?;
        let encoded = encode_all(rt.alloc(), &bytes, repeats).unwrap_or(0);
        encoding = encoding.min(start.elapsed(rt)?.as_nanos());
        total = total.wrapping_add(decoded).wrapping_add(encoded);
    }
    println!(rt; "total {total}")?;
    println!(rt; "decoding {decoding}, encoding {encoding}")?;
    Ok(())
}

pub(crate) fn run(rt: &HostRuntime, words: &[String]) -> Result<()> {
    match words {
        [count, value_length, repeats] => {
            run_timed(rt, count.parse()?, value_length.parse()?, repeats.parse()?)
        }
        _ => {
            let bytes = made_bytes(rt.alloc(), 100, 16)?;
            print_sample(rt, rt.alloc(), &bytes)?;
            Ok(())
        }
    }
}
