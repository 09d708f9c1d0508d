//! Runs the check of a card on cards that an outside program made and damaged, and prints a line for each.
//!
//! Standard input has a count of base cards, each as its length and its bytes, and then the cases until the end:
//! the base card, a new length (0 past the base card's end), a count of changed bytes, and each change as a place and a byte.
//! Lengths and places have two bytes, the low one first; the rest has one.
#![tactic(auto)]

use card::check_card;
use std::alloc::{AllocError, Global};
use std::io;
use std::io::Read;
use wire::{run, word};

/// The longest card that a case may have.
const MOST: usize = 8192;

/// The cases that one run may have.
const CASES: usize = 10_000;

fn byte(input: &mut &[u8]) -> Option<u8> {
    input.split_off_first().copied()
}

/// The base cards. Where the input ends early, there are none, or the last ones are empty.
fn base_cards<'a>(heap: Global, input: &mut &'a [u8]) -> Result<Vec<&'a [u8]>, AllocError> {
    let mut cards = Vec::new(heap);
    let count = byte(input).unwrap_or(0);
    for _ in 0..count {
        let len = word(input).unwrap_or(0);
        cards.push(run(input, usize::from(len)))?;
    }
    Ok(cards)
}

/// Lays a base card into the buffer, with 0 past its end.
fn lay(buffer: &mut [u8], base: &[u8]) {
    let len = base.len().min(buffer.len());
    buffer[..len].copy_from_slice(&base[..len]);
    buffer[len..].fill(0);
}

/// Makes the next case in the buffer, and answers its length.
fn next_case(input: &mut &[u8], cards: &[&[u8]], buffer: &mut [u8]) -> Option<usize> {
    let base = byte(input)?;
    let len = word(input)?;
    let changes = byte(input)?;
    lay(buffer, cards.get(usize::from(base)).copied()?);
    for _ in 0..changes {
        let place = word(input)?;
        let byte = byte(input)?;
        if let Some(changed) = buffer.get_mut(usize::from(place)) {
            *changed = byte;
        }
    }
    Some(usize::from(len).min(buffer.len()))
}

fn report(rt: &HostRuntime, card: &[u8]) -> io::Result<()> {
    match check_card(card) {
        Ok(sound) => {
            let sizes = sound.sizes();
            println!(rt; "sound {} {}", sizes.ropes(), sizes.rows())
        }
        // The second place too, since an outside program tells both.
        Err(fault) => println!(rt; "{fault} {}", fault.notice().second),
    }
}

fn run_cases(rt: &HostRuntime) -> anyhow::Result<()> {
    let mut bytes = Vec::new(rt.alloc());
    rt.stdin().read_to_end(&mut bytes)?;
    let mut input = bytes.as_slice();
    let cards = base_cards(rt.alloc(), &mut input)?;
    let mut buffer = vec![in rt.alloc(); 0u8; MOST]?;
    // Each case is made in the one buffer, which an iterator over cases could not lend.
    for _ in 0..CASES {
        let Some(len) = next_case(&mut input, cards.as_slice(), buffer.as_mut_slice()) else {
            break;
        };
        if let Some(card) = buffer.get(..len) {
            report(rt, card)?;
        }
    }
    Ok(())
}

fn main(rt: HostRuntime) -> anyhow::Result<()> {
    run_cases(&rt)
}
