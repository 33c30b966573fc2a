use crate::Blob;
use std::alloc::Global;
use std::sync::Wait;
use std::test::Fail;
use std::thread;
use std::thread::Threads;

/// The digest of `abc` in the standard of SHA-256.
const ABC: &[u8] = b"ba7816bf8f01cfea414140de5dae2223b00361a396177a9cb410ff61f20015ad";

fn content(alloc: Global) -> Result<Blob, Fail> {
    let bytes = b"abc".to_vec(alloc)?;
    Ok(Blob::of(alloc, bytes)?)
}

fn has_digits(alloc: Global, content: &Blob) -> bool {
    match content.digits(alloc) {
        Ok(digits) => digits.as_slice() == ABC,
        Err(_) => false,
    }
}

// Computes the digest, as a lane does, and returns true if the digits are right.
fn comes_to_know<R: Wait>(rt: &R, alloc: Global, content: &Blob) -> bool {
    content.know_digest(rt, alloc).is_ok() && has_digits(alloc, content)
}

fn both_know<R: Threads + Wait + Sync>(rt: &R, alloc: Global, one: &Blob, other: &Blob) -> bool {
    let (here, there) = thread::join(
        rt,
        || comes_to_know(rt, alloc, one),
        || comes_to_know(rt, alloc, other),
    );
    here && there
}

#[test]
fn two_copies_have_the_digits(rt: HostRuntime) -> Result<(), Fail> {
    let alloc = rt.alloc();
    let one = content(alloc)?;
    let other = one.again()?;
    assert!(rt; has_digits(alloc, &one));
    assert!(rt; comes_to_know(&rt, alloc, &one));
    assert!(rt; has_digits(alloc, &one));
    assert!(rt; has_digits(alloc, &other));
    assert!(rt; comes_to_know(&rt, alloc, &other));
    Ok(())
}

#[test]
fn lanes_that_come_at_once_have_the_digits(rt: HostRuntime) -> Result<(), Fail> {
    let alloc = rt.alloc();
    let one = content(alloc)?;
    let other = one.again()?;
    assert!(rt; both_know(&rt, alloc, &one, &other));
    Ok(())
}
