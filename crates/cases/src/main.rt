//! Many sheets, each over a channel of its own: what the programs drill and rehearse print for each of them.
//! On standard input a sheet stands after the form of its channel (q, s, d, e or f), two replica numbers of three
//! digits and its length in six digits. What it prints comes after a line with a dash.
#![tactic(auto)]

use console::print::print;
use runner::choice::Choice;
use std::alloc::AllocError;
use std::io::{Read, Write};

// The number that the digits write. No byte is refused: one below `0` counts as 0, one above `9` as more than 9.
fn number(digits: &[u8]) -> usize {
    digits.iter().fold(0, |n: usize, b| {
        n.saturating_mul(10)
            .saturating_add(usize::from(b.saturating_sub(b'0')))
    })
}

fn replica(digits: &[u8]) -> u8 {
    (number(digits) & 0xff) as u8
}

// The channel that the head of a case names.
fn choice(head: &[u8]) -> Choice {
    let n = replica(head.get(1..4).unwrap_or(b""));
    let m = replica(head.get(4..7).unwrap_or(b""));
    match head.first() {
        Some(b's') => Choice::Slots,
        Some(b'd') => Choice::DelayQueue(n),
        Some(b'e') => Choice::DelaySlots(n),
        Some(b'f') => Choice::DelayTwice(n, m),
        _ => Choice::Queue,
    }
}

fn main(rt: HostRuntime) -> anyhow::Result<()> {
    let heap = rt.alloc();
    let mut given = Vec::new(heap);
    rt.stdin().take(4_000_000).read_to_end(&mut given)?;
    let mut all: Vec<u8> = Vec::new(heap);
    let mut rest = given.as_slice();
    // At most 1,000 cases.
    for _ in 0..1000 {
        let Some((head, behind)) = rest.split_at_checked(13) else {
            break;
        };
        let len = number(head.get(7..).unwrap_or(b""));
        let (sheet, next) = behind.split_at_checked(len).unwrap_or((b"", b""));
        all.extend_from_slice(b"-\n")?;
        // The writer is memory too, so an error is of memory: the text is that of an allocation.
        print(heap, choice(head), sheet, &mut all).map_err(|_| AllocError)?;
        rest = next;
    }
    rt.stdout().write_all(&all)?;
    Ok(())
}
