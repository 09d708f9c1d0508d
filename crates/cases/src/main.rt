//! What is refused, with its number, places and layer, and what just passes, through public calls.
//! The stored output was written by hand from the rules.
#![tactic(auto)]

use block::Block;
use calls::Amendment;
use card::CardTable;
use opening::{Lists, Refusal};
use plan::Plan;
use print::{print_plan, print_refusal};
use session::{Answer, Asked, Call, Pair, session};
use sheet::{load, write};
use small_job::{CURVATURE, LISTS, ROW};
use std::alloc::{AllocError, Global};
use std::io::Write;
use std::{io, slice};
use table::{Record, Table, Triplets};

/// How many bytes the card of J has.
const BYTES: usize = 3584;

fn refused(rt: &HostRuntime, name: &str, refusal: Refusal) -> io::Result<()> {
    let notice = refusal.notice();
    println!(rt; "{name}: {notice} {} ({})", notice.second, notice.layer)
}

/// Writes the card of J into a list.
fn write_into(rt: &HostRuntime, name: &str, out: &mut [u8]) -> io::Result<()> {
    let g = Triplets::new(2, 2, &CURVATURE);
    let a = Triplets::new(1, 2, &ROW);
    match write(&g, &a, &LISTS, out) {
        Ok(bytes) => println!(rt; "{name}: {bytes} bytes"),
        Err(refusal) => refused(rt, name, refusal),
    }
}

fn check_sums(rt: &HostRuntime, card: &[u8]) -> io::Result<()> {
    print!(rt; "check sums:")?;
    // A card's blocks are read by number.
    for number in 0..7 {
        if let Some(block) = Block::read(card, number) {
            print!(rt; " {}", block.sum())?;
        }
    }
    println!(rt; "")
}

/// Writes J again from the tables on its card, and compares the bytes.
fn write_again(rt: &HostRuntime, card: &[u8]) -> io::Result<()> {
    let mut again = [0u8; BYTES];
    let g = CardTable::curvature(card);
    let a = CardTable::rows(card);
    match write(&g, &a, &LISTS, &mut again) {
        Ok(bytes) => {
            let words = if &again[..] == card {
                "the same"
            } else {
                "others"
            };
            println!(rt; "J written again from its card: {bytes} bytes, {words}")
        }
        Err(refusal) => refused(rt, "J written again from its card", refusal),
    }
}

/// Loads a card with some bytes changed, each given by its place.
fn load_with(
    rt: &HostRuntime,
    name: &str,
    card: &[u8],
    edits: &[(usize, u8)],
) -> anyhow::Result<()> {
    let mut bytes = Vec::from_slice(rt.alloc(), card)?;
    for (at, byte) in edits {
        if let Some(place) = bytes.get_mut(*at) {
            *place = *byte;
        }
    }
    match load(bytes.as_slice()) {
        Ok(_) => println!(rt; "{name}: opens")?,
        Err(refusal) => refused(rt, name, refusal)?,
    }
    Ok(())
}

/// One fault each. A byte that is set goes into the check sum, times its place from 1; J's head has 91, and blocks 1 and 6 have 118 and 94.
fn card_faults(rt: &HostRuntime, card: &[u8; BYTES]) -> anyhow::Result<()> {
    load_with(rt, "no bytes", &[], &[])?;
    load_with(rt, "700 bytes", &card[0..700], &[])?;
    load_with(rt, "a block too few", &card[0..3072], &[])?;
    load_with(rt, "another number in block 2", card, &[(1028, 2)])?;
    load_with(rt, "letter I in block 0", card, &[(0, 73), (510, 92)])?;
    load_with(rt, "block 1 numbered 2", card, &[(514, 2), (1022, 121)])?;
    load_with(rt, "17 ropes in the head", card, &[(4, 17), (510, 166)])?;
    let edits = [(8, 33), (510, 123), (511, 1)];
    load_with(rt, "33 rows in the head", card, &edits)?;
    load_with(rt, "byte 1 of block 0", card, &[(1, 1), (510, 93)])?;
    load_with(rt, "third number in block 0", card, &[(12, 1), (510, 104)])?;
    let edits = [(3580, 1), (3582, 91), (3583, 2)];
    load_with(rt, "byte 508 of block 6", card, &edits)?;
    let edits = [(516, 1), (517, 16), (1022, 209)];
    load_with(rt, "4097 in G of a card", card, &edits)
}

/// Two faults each.
fn card_order(rt: &HostRuntime, card: &[u8; BYTES]) -> anyhow::Result<()> {
    let short = &card[0..3072];
    load_with(rt, "head's sum, 700 bytes", &card[0..700], &[(510, 90)])?;
    load_with(rt, "head's sum, a block too few", short, &[(510, 90)])?;
    let edits = [(0, 73), (4, 17), (510, 167)];
    load_with(rt, "letter I and 17 ropes", card, &edits)?;
    let edits = [(1, 1), (4, 17), (510, 168)];
    load_with(rt, "17 ropes and byte 1", card, &edits)?;
    load_with(rt, "byte 1, a block too few", short, &[(1, 1), (510, 93)])?;
    let edits = [(513, 1), (1022, 120), (1028, 2)];
    load_with(rt, "spare in block 1, sum of 2", card, &edits)
}

fn cards(rt: &HostRuntime, card: &mut [u8; BYTES]) -> anyhow::Result<()> {
    write_into(rt, "J written", card)?;
    check_sums(rt, card)?;
    load_with(rt, "J from its card", card, &[])?;
    write_again(rt, card)?;
    write_into(rt, "J into 3583 bytes", &mut [0u8; 3583])?;
    card_faults(rt, card)?;
    card_order(rt, card)
}

fn open<G: Table + Drop, A: Table + Drop>(
    rt: &HostRuntime,
    name: &str,
    g: G,
    a: A,
    lists: &Lists,
) -> io::Result<()> {
    match Plan::open(g, a, lists) {
        Ok(_) => println!(rt; "{name}: opens"),
        Err(refusal) => refused(rt, name, refusal),
    }
}

/// So many ropes and no rows, with the lists of 16 ropes, all 0.
fn open_ropes(rt: &HostRuntime, name: &str, n: i64) -> io::Result<()> {
    let zeros = [0i64; 16];
    let slip = [0i64; 256];
    let lists = Lists {
        c: &zeros,
        l: &zeros,
        u: &zeros,
        lo: &[],
        hi: &[],
        slip: &slip,
    };
    let g = Triplets::new(n, n, &[]);
    let a = Triplets::new(0, 0, &[]);
    open(rt, name, g, a, &lists)
}

/// Tables of these sizes, all 0, with the lists of J.
fn open_sizes(rt: &HostRuntime, name: &str, g: (i64, i64), a: (i64, i64)) -> io::Result<()> {
    let g = Triplets::new(g.0, g.1, &[]);
    let a = Triplets::new(a.0, a.1, &[]);
    open(rt, name, g, a, &LISTS)
}

/// Tables of the sizes of J's with these records, and the lists of J.
fn open_records(rt: &HostRuntime, name: &str, g: &[Record], a: &[Record]) -> io::Result<()> {
    let g = Triplets::new(2, 2, g);
    let a = Triplets::new(1, 2, a);
    open(rt, name, g, a, &LISTS)
}

fn table_sizes(rt: &HostRuntime) -> io::Result<()> {
    open_ropes(rt, "16 ropes", 16)?;
    open_ropes(rt, "17 ropes", 17)?;
    open_ropes(rt, "no ropes", 0)?;
    open_sizes(rt, "G 2 by 3", (2, 3), (1, 2))?;
    open_sizes(rt, "A 1 by 3", (2, 2), (1, 3))?;
    open_sizes(rt, "A 33 by 2", (2, 2), (33, 2))?;
    open_sizes(rt, "G 2 by 3 and A 1 by 3", (2, 3), (1, 3))
}

fn table_places(rt: &HostRuntime) -> io::Result<()> {
    let wild = [Record::new(1, 1, 4097)];
    let crooked = [Record::new(1, 0, 1)];
    let beyond = [Record::new(0, 1, 1025)];
    open_records(rt, "4096 in G", &[Record::new(1, 1, 4096)], &[])?;
    open_records(rt, "4097 in G", &wild, &[])?;
    open_records(rt, "-1024 in A", &[], &[Record::new(0, 1, -1024)])?;
    open_records(rt, "-1025 in A", &[], &[Record::new(0, 1, -1025)])?;
    open_records(rt, "blank in A", &[], &[Record::new(0, 0, 1048577)])?;
    open_records(rt, "G differs across its diagonal", &crooked, &[])?;
    open_records(rt, "4097 in G and 1025 in A", &wild, &beyond)?;
    open_records(rt, "1025 in A and G not symmetric", &crooked, &beyond)
}

/// A card that ends after its head gives sizes, and no place of its tables.
fn blank_tables(rt: &HostRuntime, card: &[u8; BYTES]) -> io::Result<()> {
    let one = Triplets::new(1, 2, &[]);
    let g = CardTable::curvature(&card[..Block::BYTES]);
    open(rt, "G blank throughout", g, one, &LISTS)?;
    let many = Triplets::new(33, 2, &[]);
    let g = CardTable::curvature(&card[..Block::BYTES]);
    open(rt, "G blank throughout and A 33 by 2", g, many, &LISTS)
}

/// Tables of 2 on the diagonal of G, and J's lists but for one or two.
fn open_lists(rt: &HostRuntime, name: &str, lists: Lists) -> io::Result<()> {
    let g = Triplets::new(2, 2, &CURVATURE);
    let a = Triplets::new(1, 2, &ROW);
    open(rt, name, g, a, &lists)
}

/// The same, where the lists are J's but for what is changed.
fn open_with<'a, F: FnOnce(&mut Lists<'a>)>(
    rt: &HostRuntime,
    name: &str,
    change: F,
) -> io::Result<()>
    requires { F.IsAlwaysCallable change }
{
    let mut lists = LISTS;
    change(&mut lists);
    open_lists(rt, name, lists)
}

fn list_lengths(rt: &HostRuntime) -> io::Result<()> {
    open_with(rt, "3 linear costs", |lists| lists.c = &[0, 0, 0])?;
    open_with(rt, "1 lower bound", |lists| lists.l = &[0])?;
    open_with(rt, "3 upper bounds", |lists| lists.u = &[9, 9, 9])?;
    open_with(rt, "no lower limit", |lists| lists.lo = &[])?;
    open_with(rt, "2 upper limits", |lists| lists.hi = &[9, 9])?;
    open_with(rt, "slip of 3 numbers", |lists| lists.slip = &[0, 0, 0])
}

/// 1,448² is at most 2 · 1,048,576, and 1,449² is not.
fn list_numbers(rt: &HostRuntime) -> io::Result<()> {
    open_with(rt, "cost 268435456", |lists| lists.c = &[0, 268435456])?;
    open_with(rt, "cost 268435457", |lists| lists.c = &[0, 268435457])?;
    open_with(rt, "lower bound -32769", |lists| lists.l = &[-32769, 0])?;
    open_with(rt, "upper bound 32769", |lists| lists.u = &[9, 32769])?;
    open_with(rt, "limit -536870913", |lists| lists.lo = &[-536870913])?;
    open_with(rt, "limit 536870913", |lists| lists.hi = &[536870913])?;
    open_with(
        rt,
        "131073 in the slip",
        |lists| lists.slip = &[0, 0, 0, 131073],
    )?;
    open_with(rt, "bounds crossed", |lists| lists.l = &[0, 11])?;
    open_with(rt, "limits crossed", |lists| lists.lo = &[4])?;
    open_with(rt, "slip 1448", |lists| lists.slip = &[0, 0, 0, 1448])?;
    open_with(rt, "slip 1449", |lists| lists.slip = &[0, 0, 0, 1449])
}

fn list_order(rt: &HostRuntime) -> io::Result<()> {
    let crooked = [Record::new(1, 0, 1)];
    let g = Triplets::new(2, 2, &crooked);
    let a = Triplets::new(1, 2, &[]);
    let lists = Lists {
        c: &[0, 0, 0],
        ..LISTS
    };
    open(rt, "G not symmetric and 3 costs", g, a, &lists)?;
    let lists = Lists {
        c: &[0, 268435457],
        u: &[10],
        ..LISTS
    };
    open_lists(rt, "cost 268435457 and 1 upper bound", lists)?;
    let lists = Lists {
        slip: &[131073, 0, 0, 0],
        l: &[11, 0],
        ..LISTS
    };
    open_lists(rt, "131073 in the slip and bounds crossed", lists)?;
    let lists = Lists {
        slip: &[0, 0, 0, 1449],
        lo: &[4],
        ..LISTS
    };
    open_lists(rt, "slip 1449 and limits crossed", lists)
}

fn openings(rt: &HostRuntime, card: &[u8; BYTES]) -> io::Result<()> {
    table_sizes(rt)?;
    table_places(rt)?;
    blank_tables(rt, card)?;
    list_lengths(rt)?;
    list_numbers(rt)?;
    list_order(rt)
}

fn answered(rt: &HostRuntime, name: &str, answer: &Answer) -> io::Result<()> {
    match answer {
        Answer::Judged(Ok(verdict)) => println!(rt; "{name}: {verdict}"),
        Answer::Amended(Ok(_)) => println!(rt; "{name}: amended"),
        Answer::Solved(Ok(_)) => println!(rt; "{name}: solved"),
        Answer::Shown(Ok(_)) => println!(rt; "{name}: shown"),
        Answer::Judged(Err(refusal))
        | Answer::Amended(Err(refusal))
        | Answer::Solved(Err(refusal))
        | Answer::Shown(Err(refusal)) => refused(rt, name, *refusal),
    }
}

/// Makes one call on a new plan of two ropes and three rows: J with the rows (1, 1) from 0 to 5, (1, -1) from -3 to 2 and (0, 1) from 0 to 2.
fn ask(rt: &HostRuntime, name: &str, call: Call) -> io::Result<()> {
    let ones = [
        Record::new(0, 0, 1),
        Record::new(0, 1, 1),
        Record::new(1, 0, 1),
        Record::new(1, 1, -1),
        Record::new(2, 1, 1),
    ];
    let g = Triplets::new(2, 2, &CURVATURE);
    let a = Triplets::new(3, 2, &ones);
    let lists = Lists {
        lo: &[0, -3, 0],
        hi: &[5, 2, 2],
        ..LISTS
    };
    let mut slot = Asked::new(call);
    match session(g, a, &lists, slice::from_mut(&mut slot)) {
        Ok(()) => match &slot.answer {
            Some(answer) => answered(rt, name, answer),
            None => println!(rt; "{name}: no answer"),
        },
        Err(refusal) => refused(rt, name, refusal),
    }
}

fn points(rt: &HostRuntime) -> io::Result<()> {
    ask(rt, "point 1 2", Call::Point(&[1, 2]))?;
    ask(rt, "point of 3 numbers", Call::Point(&[0, 0, 0]))?;
    ask(rt, "32769 in a point", Call::Point(&[0, 32769]))?;
    ask(rt, "point below rope 0", Call::Point(&[-1, 2]))?;
    ask(rt, "point above rope 1", Call::Point(&[1, 11]))?;
    ask(rt, "point above row 0", Call::Point(&[4, 2]))?;
    ask(rt, "point above row 1", Call::Point(&[3, 0]))?;
    ask(rt, "point above row 2", Call::Point(&[2, 3]))?;
    ask(rt, "wrong length and 32769", Call::Point(&[32769, 0, 0]))?;
    ask(rt, "above rope 0 and 32769", Call::Point(&[11, 32769]))?;
    ask(rt, "above rope 1 and above row 0", Call::Point(&[0, 11]))?;
    ask(rt, "below row 1 and above row 2", Call::Point(&[0, 4]))
}

fn pair<'a>(point: &'a [i64], multipliers: &'a [i64]) -> Call<'a> {
    Call::Floor(Pair { point, multipliers })
}

fn pairs(rt: &HostRuntime) -> io::Result<()> {
    ask(rt, "pair outside the bounds", pair(&[11, 11], &[0, 0, 0]))?;
    ask(rt, "pair with 3 ropes", pair(&[0, 0, 0], &[0, 0, 0]))?;
    ask(rt, "pair with 2 multipliers", pair(&[0, 0], &[0, 0]))?;
    ask(rt, "-32769 in a pair", pair(&[0, -32769], &[0, 0, 0]))?;
    ask(rt, "multiplier 16777217", pair(&[0, 0], &[0, 0, 16777217]))?;
    ask(rt, "1 rope and 2 multipliers", pair(&[0], &[0, 0]))?;
    ask(rt, "2 multipliers and 32769", pair(&[32769, 0], &[0, 0]))?;
    ask(rt, "both beyond", pair(&[0, -32769], &[16777217, 0, 0]))
}

fn proofs(rt: &HostRuntime) -> io::Result<()> {
    ask(rt, "proof of 2 multipliers", Call::Proof(&[1, 1]))?;
    ask(rt, "-16777217 in a proof", Call::Proof(&[0, -16777217, 0]))?;
    ask(rt, "proof of nothing", Call::Proof(&[1, 0, 0]))?;
    ask(rt, "2 multipliers, one beyond", Call::Proof(&[16777217, 0]))
}

fn solve<'a>(steps: u64, moves: u64) -> Call<'a> {
    Call::Solve { steps, moves }
}

fn solves_and_shows(rt: &HostRuntime) -> io::Result<()> {
    ask(rt, "1001 steps", solve(1001, 0))?;
    ask(rt, "1000001 moves", solve(0, 1000001))?;
    ask(rt, "1001 steps and 1000001 moves", solve(1001, 1000001))?;
    ask(rt, "1000 steps and 1000000 moves", solve(1000, 1000000))?;
    ask(rt, "show into 1 number", Call::Show(&mut [0]))?;
    ask(rt, "show into 3 numbers", Call::Show(&mut [0, 0, 0]))?;
    ask(rt, "show into 2 numbers", Call::Show(&mut [0, 0]))
}

fn row<'a>(index: usize, lo: i64, hi: i64) -> Call<'a> {
    Call::Amend(Amendment::Row { index, lo, hi })
}

fn rope<'a>(index: usize, l: i64, u: i64) -> Call<'a> {
    Call::Amend(Amendment::Rope { index, l, u })
}

fn linear_cost<'a>(index: usize, c: i64) -> Call<'a> {
    Call::Amend(Amendment::Cost { index, c })
}

fn amendments(rt: &HostRuntime) -> io::Result<()> {
    ask(rt, "row 3", row(3, 0, 1))?;
    ask(rt, "bounds of rope 2", rope(2, 0, 1))?;
    ask(rt, "cost of rope 2", linear_cost(2, 0))?;
    ask(rt, "row 2 at its limits", row(2, -536870912, 536870912))?;
    ask(rt, "row 2 beyond its limit", row(2, -536870913, 0))?;
    ask(rt, "row 1 from 5 to 4", row(1, 5, 4))?;
    ask(rt, "rope 1 up to 32769", rope(1, 0, 32769))?;
    ask(rt, "rope 1 from 1 to 0", rope(1, 1, 0))?;
    ask(rt, "rope 1 costs 268435457", linear_cost(1, 268435457))?;
    ask(rt, "row 3 from 5 to 4", row(3, 5, 4))?;
    ask(rt, "rope 2 up to 32769", rope(2, 0, 32769))
}

/// A show into each list.
fn shows<'a>(heap: Global, lists: &'a mut [[i64; 2]]) -> Result<Vec<Asked<'a>>, AllocError> {
    let mut asked = Vec::with_capacity(heap, lists.len())?;
    for list in lists {
        asked.push(Asked::new(Call::Show(list)))?;
    }
    Ok(asked)
}

/// A long run of calls: each slot has its answer.
fn many_shows(rt: &HostRuntime) -> anyhow::Result<()> {
    let g = Triplets::new(2, 2, &CURVATURE);
    let a = Triplets::new(1, 2, &ROW);
    let mut lists = [[0i64; 2]; 1000];
    let mut asked = shows(rt.alloc(), &mut lists)?;
    match session(g, a, &LISTS, asked.as_mut_slice()) {
        Ok(()) => {
            let answers = asked.iter().filter(|slot| slot.answer.is_some()).count();
            println!(rt; "1000 shows: {answers} answers")?;
        }
        Err(refusal) => refused(rt, "1000 shows", refusal)?,
    }
    Ok(())
}

/// The sheet of J after a solve without steps or moves, which offers the lower bounds.
fn sheet_of(card: &[u8], text: &mut [u8]) -> Result<usize, Refusal> {
    let mut plan = load(card)?;
    let report = plan.solve(0, 0)?;
    print_plan(&plan, &report, text)
}

fn printed(
    rt: &HostRuntime,
    name: &str,
    answer: Result<usize, Refusal>,
    text: &[u8],
) -> io::Result<()> {
    match answer {
        Ok(len) => {
            println!(rt; "{name}: {len} bytes")?;
            rt.stdout().write_all(&text[0..len.min(text.len())])
        }
        Err(refusal) => refused(rt, name, refusal),
    }
}

fn print_into(rt: &HostRuntime, card: &[u8], text: &mut [u8]) -> io::Result<()> {
    let len = text.len();
    println!(rt; "print into {len} bytes")?;
    let answer = sheet_of(card, text);
    printed(rt, "sheet", answer, text)?;
    let answer = print_refusal(&Refusal::Bound { rope: 1 }, text);
    printed(rt, "refusal", answer, text)
}

fn run(rt: &HostRuntime) -> anyhow::Result<()> {
    let mut card = [0u8; BYTES];
    cards(rt, &mut card)?;
    openings(rt, &card)?;
    points(rt)?;
    pairs(rt)?;
    proofs(rt)?;
    solves_and_shows(rt)?;
    amendments(rt)?;
    many_shows(rt)?;
    print_into(rt, &card, &mut [0u8; 319])?;
    print_into(rt, &card, &mut [0u8; 320])?;
    Ok(())
}

fn main(rt: HostRuntime) -> anyhow::Result<()> {
    run(&rt)
}
