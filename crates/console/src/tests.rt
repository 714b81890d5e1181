//! What is printed of a sheet that is run, of one that is refused, and of one over layers that delay a replica; and the
//! words of a failure.
use crate::failure::Failure;
use crate::print::print;
use crate::run::run;
use runner::choice::Choice;
use std::alloc::{AllocError, Global};
use std::io;

#[test]
fn a_listing(rt: HostRuntime) -> Result<(), Failure> {
    let sheet: &[u8] = b"settings 5\n4 1 1 1 1000\norders 2\nw 1200\nw 5\n";
    let mut text: Vec<u8> = Vec::new(rt.alloc());
    run(rt.alloc(), Choice::Queue, sheet, &mut text)?;
    assert!(rt; text.as_slice() == b"100 0 0 0 0\n13 0 0 0 0\n".as_slice());
    Ok(())
}

#[test]
fn a_fault(rt: HostRuntime) -> Result<(), Failure> {
    let sheet: &[u8] = b"settings 6\n";
    let mut text: Vec<u8> = Vec::new(rt.alloc());
    run(rt.alloc(), Choice::DelayTwice(0, 1), sheet, &mut text)?;
    assert!(rt; text.as_slice() == b"fault 31 1\n".as_slice());
    Ok(())
}

#[test]
fn a_sheet_printed(rt: HostRuntime) -> Result<(), Failure> {
    let sheet: &[u8] = b"settings 5\n4 1 1 1 1000\norders 2\nw 1200\nw 5\n";
    let mut text: Vec<u8> = Vec::new(rt.alloc());
    print(rt.alloc(), Choice::Slots, sheet, &mut text)?;
    assert!(rt; text.as_slice() == b"100 0 0 0 0\n13 0 0 0 0\n".as_slice());
    Ok(())
}

#[test]
fn a_failed_allocation_in_its_own_words(rt: HostRuntime) -> Result<(), Failure> {
    let line = format!(in rt.alloc(); "{}", Failure::from(AllocError))?;
    assert!(rt; line.as_str() == "memory allocation failed");
    Ok(())
}

#[test]
fn a_failed_read_in_its_own_words(rt: HostRuntime) -> Result<(), Failure> {
    let read = io::Error::from(AllocError);
    let line = format!(in rt.alloc(); "{}", Failure::from(read))?;
    assert!(rt; line.as_str() == "out of memory");
    Ok(())
}

// A write while replica 2 is out: its message shows in the listing where it is carried.
const ONE_OUT: &[u8] =
    b"settings 5\n4 1 1 1 1000\norders 11\nw 7\nb 2\nc\nc\nc\nc\nc\nc\nc\nc\nc\n";

// Is this what is printed of that sheet over a channel?
fn gives(alloc: Global, choice: Choice, listing: &[u8]) -> Result<bool, Failure> {
    let mut text: Vec<u8> = Vec::new(alloc);
    print(alloc, choice, ONE_OUT, &mut text)?;
    Ok(text.as_slice() == listing)
}

#[test]
fn a_layer_delays_the_replica_named(rt: HostRuntime) -> Result<(), Failure> {
    let two: &[u8] = b"100 0 0 0 0\n100 2 0 0 0\n101 0 0 0 0\n101 0 0 0 0\n101 0 0 0 0\n\
        104 0 0 0 0\n104 0 0 0 0\n105 0 1 7 1\n102 0 0 0 0\n18 0 0 0 0\n18 0 0 0 0\n";
    let holds = gives(rt.alloc(), Choice::DelayQueue(2), two)?;
    assert!(rt; holds);
    Ok(())
}

// The upper layer is named first: the one listing comes with no other lower layer, the other with no other upper one.
#[test]
fn two_layers_delay_the_replicas_named(rt: HostRuntime) -> Result<(), Failure> {
    let lower_two: &[u8] = b"100 0 0 0 0\n100 2 0 0 0\n101 0 0 0 0\n101 0 0 0 0\n104 0 0 0 0\n\
        104 0 0 0 0\n102 0 0 0 0\n101 0 0 0 0\n105 0 1 7 1\n18 0 0 0 0\n18 0 0 0 0\n";
    let upper_two: &[u8] = b"100 0 0 0 0\n100 2 0 0 0\n101 0 0 0 0\n101 0 0 0 0\n104 0 0 0 0\n\
        104 0 0 0 0\n101 0 0 0 0\n105 0 1 7 1\n102 0 0 0 0\n18 0 0 0 0\n18 0 0 0 0\n";
    let lower = gives(rt.alloc(), Choice::DelayTwice(1, 2), lower_two)?;
    let upper = gives(rt.alloc(), Choice::DelayTwice(2, 1), upper_two)?;
    assert!(rt; lower && upper);
    Ok(())
}
