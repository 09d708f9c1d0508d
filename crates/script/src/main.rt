//! A script of calls on a small job: as one `session` over tables of records, and one by one with `run` over a card and over layers that come to the same numbers.
//! The stored output was written by hand from the rules.
#![tactic(auto)]

use calls::{Amendment, Dropped, Found, Report, Shown};
use card::CardTable;
use opening::Refusal;
use plan::Plan;
use session::{Answer, Asked, Call, Pair, run, session};
use sheet::write;
use small_job::{CURVATURE, LISTS, ROW};
use std::alloc::{AllocError, Global};
use std::{io, slice};
use table::{Flip, Record, Sum, Table, Triplets};

/// How many bytes the card of J has.
const BYTES: usize = 3584;

/// How many calls the script makes.
const CALLS: usize = 20;

fn print_refusal(rt: &HostRuntime, refusal: &Refusal) -> io::Result<()> {
    println!(rt; "{}", refusal.notice())
}

fn print_dropped(rt: &HostRuntime, dropped: &Dropped) -> io::Result<()> {
    print!(rt; "amended")?;
    if dropped.point {
        print!(rt; ", point dropped")?;
    }
    if dropped.proof {
        print!(rt; ", proof dropped")?;
    }
    println!(rt; "")
}

fn print_report(rt: &HostRuntime, report: &Report) -> io::Result<()> {
    println!(rt;
        "{} steps, {}; {} moves, {}",
        report.steps, report.exchange, report.moves, report.walk
    )
}

fn print_shown(rt: &HostRuntime, shown: &Shown, list: &[i64]) -> io::Result<()> {
    print!(rt; "floor {}", shown.floor)?;
    match shown.found {
        Found::NoneExists => print!(rt; ", none exists")?,
        Found::NoPoint => print!(rt; ", no point")?,
        Found::Point { cost, gap } => {
            print!(rt; ", cost {cost}, gap {gap}, point")?;
            for z in list {
                print!(rt; " {z}")?;
            }
        }
    }
    println!(rt; "")
}

fn print_answer(rt: &HostRuntime, answer: &Answer, call: &Call) -> io::Result<()> {
    match (answer, call) {
        (Answer::Judged(Ok(verdict)), _) => println!(rt; "{verdict}"),
        (Answer::Amended(Ok(dropped)), _) => print_dropped(rt, dropped),
        (Answer::Solved(Ok(report)), _) => print_report(rt, report),
        (Answer::Shown(Ok(shown)), Call::Show(list)) => print_shown(rt, shown, list),
        (Answer::Shown(Ok(shown)), _) => print_shown(rt, shown, &[]),
        (
            Answer::Judged(Err(refusal))
            | Answer::Amended(Err(refusal))
            | Answer::Solved(Err(refusal))
            | Answer::Shown(Err(refusal)),
            _,
        ) => print_refusal(rt, refusal),
    }
}

fn print_slot(rt: &HostRuntime, slot: &Asked) -> io::Result<()> {
    match &slot.answer {
        Some(answer) => print_answer(rt, answer, &slot.call),
        None => println!(rt; "no answer"),
    }
}

/// New limits for the one row of the job.
fn limits<'a>(lo: i64, hi: i64) -> Call<'a> {
    Call::Amend(Amendment::Row { index: 0, lo, hi })
}

/// A solve under these budgets.
fn solve<'a>(steps: u64, moves: u64) -> Call<'a> {
    Call::Solve { steps, moves }
}

/// The call at a place of the script, and a show at any other place. A show has a list of two numbers as it wants, and one has a list of three.
fn call_at<'a>(place: usize, list: &'a mut [i64; 3]) -> Call<'a> {
    match place {
        1 => Call::Point(&[1, 2]),
        3 => Call::Point(&[2, 2]),
        4 => Call::Floor(Pair {
            point: &[1, 2],
            multipliers: &[-512],
        }),
        6 => limits(0, 2),
        8 => limits(20, 30),
        9 | 11 => Call::Proof(&[1]),
        10 => limits(21, 30),
        13 => Call::Point(&[1, 2, 3]),
        14 => Call::Show(list),
        15 => solve(1001, 0),
        16 => solve(1000, 1000001),
        17 => limits(0, 3),
        18 => solve(1000, 100000),
        _ => Call::Show(&mut list[..2]),
    }
}

/// The calls of the script: a point, a pair, other limits that leave the point out, a proof of none, calls that are refused, and a solve.
/// Each has a list of its own, which a show writes into.
fn asks<'a>(heap: Global, lists: &'a mut [[i64; 3]]) -> Result<Vec<Asked<'a>>, AllocError> {
    let mut asked = Vec::with_capacity(heap, lists.len())?;
    for (place, list) in lists.iter_mut().enumerate() {
        asked.push(Asked::new(call_at(place, list)))?;
    }
    Ok(asked)
}

/// Makes the script's calls on J over records as one session, and prints the answers.
fn over_records(rt: &HostRuntime) -> anyhow::Result<()> {
    println!(rt; "over records")?;
    let g = Triplets::new(2, 2, &CURVATURE);
    let a = Triplets::new(1, 2, &ROW);
    let mut lists = [[0i64; 3]; CALLS];
    let mut asked = asks(rt.alloc(), &mut lists)?;
    match session(g, a, &LISTS, asked.as_mut_slice()) {
        Ok(()) => {
            for slot in asked.iter() {
                print_slot(rt, slot)?;
            }
        }
        Err(refusal) => print_refusal(rt, &refusal)?,
    }
    Ok(())
}

/// Opens J over two tables, makes the script's calls on it one by one, and prints each answer as it comes.
fn run_script<G: Table + Drop, A: Table + Drop>(
    rt: &HostRuntime,
    name: &str,
    g: G,
    a: A,
) -> anyhow::Result<()> {
    println!(rt; "over {name}")?;
    match Plan::open(g, a, &LISTS) {
        Ok(mut plan) => {
            let mut lists = [[0i64; 3]; CALLS];
            let mut asked = asks(rt.alloc(), &mut lists)?;
            for slot in asked.iter_mut() {
                run(&mut plan, slice::from_mut(slot));
                print_slot(rt, slot)?;
            }
        }
        Err(refusal) => print_refusal(rt, &refusal)?,
    }
    Ok(())
}

/// J over a flip of each of its tables: the row stands as a column below.
fn over_flips(rt: &HostRuntime) -> anyhow::Result<()> {
    let column = [Record::new(0, 0, 1), Record::new(1, 0, 1)];
    let g = Flip::over(Triplets::new(2, 2, &CURVATURE));
    let a = Flip::over(Triplets::new(2, 1, &column));
    run_script(rt, "flips", g, a)
}

/// J over its card, and over sums that a card with half of its numbers and records make up.
fn over_cards(rt: &HostRuntime, card: &[u8], half: &[u8]) -> anyhow::Result<()> {
    let g = CardTable::curvature(card);
    let a = CardTable::rows(card);
    run_script(rt, "a card", g, a)?;
    let ones = [Record::new(0, 0, 1), Record::new(1, 1, 1)];
    let rest = Triplets::new(2, 2, &ones);
    let g = Sum::of(CardTable::curvature(half), rest);
    let last = [Record::new(0, 1, 1)];
    let a = Sum::of(CardTable::rows(half), Triplets::new(1, 2, &last));
    run_script(rt, "sums of a card and records", g, a)?;
    let g = Flip::over(Sum::of(rest, CardTable::curvature(half)));
    let last = [Record::new(1, 0, 1)];
    let flipped = Flip::over(CardTable::rows(half));
    let a = Flip::over(Sum::of(flipped, Triplets::new(2, 1, &last)));
    run_script(rt, "flips of sums", g, a)
}

/// Writes a card of the lists of J and these records.
fn write_card(
    rt: &HostRuntime,
    g: &[Record],
    a: &[Record],
    card: &mut [u8; BYTES],
) -> io::Result<()> {
    let g = Triplets::new(2, 2, g);
    let a = Triplets::new(1, 2, a);
    if let Err(refusal) = write(&g, &a, &LISTS, card) {
        print_refusal(rt, &refusal)?;
    }
    Ok(())
}

fn run_all(rt: &HostRuntime) -> anyhow::Result<()> {
    over_records(rt)?;
    over_flips(rt)?;
    let mut card = [0u8; BYTES];
    write_card(rt, &CURVATURE, &ROW, &mut card)?;
    let mut half = [0u8; BYTES];
    let ones = [Record::new(0, 0, 1), Record::new(1, 1, 1)];
    write_card(rt, &ones, &[Record::new(0, 0, 1)], &mut half)?;
    over_cards(rt, &card, &half)
}

fn main(rt: HostRuntime) -> anyhow::Result<()> {
    run_all(&rt)
}
