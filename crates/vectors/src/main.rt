//! Runs the two halves of the solver on cases that an outside program made, a case to a line, and prints what comes out.
//!
//! A line that begins with 0 is a walk: the number of ropes, rows and moves, and then G row by row, c, A rope by rope,
//! the limits lo and hi, the bounds l and u, and, to the end of the line, the point that the walk starts from.
//! One that begins with 1 is a system: the number of unknowns and the smallest pivot so far, and then line by line its coefficients and the right side.
//! Each float stands as m and e for m times 2 to the e; m = 0 with an e above 0 is no number. Floats are answered by their 64 bits,
//! and the lines that a system leaves by a sum over theirs.
//! One that begins with 2 is an exchange, written as a walk is, with steps in the place of moves and no point.
//! Where a line ends early its missing numbers are 0, and missing places of a list make it shorter; a negative size is 0, and so are moves beyond 32 bits.
#![tactic(auto)]

use elimination::{LINE_PLACES, MOST_UNKNOWNS, Solution, nearest, solve};
use exchange::{Exchange, Offer, Report, Step, end_after};
use job::Job;
use std::alloc::{AllocError, Global};
use std::io;
use std::io::{BufRead, BufReader};
use std::num::nearest_i64_to_f64;
use terms::Terms;
use walk::walk;
use wire::{bits, run};

/// A case may have one unknown more than a system.
const MOST_LINES: usize = MOST_UNKNOWNS + 1;

fn numbers(heap: Global, line: &str) -> anyhow::Result<Vec<i64>> {
    let mut numbers = Vec::new(heap);
    for word in line.split_whitespace() {
        numbers.push(word.parse::<i64>()?)?;
    }
    Ok(numbers)
}

/// The numbers of a line, of which some are taken at a time.
#[derive(Drop)]
struct Line<'a> {
    left: &'a [i64],
}

impl<'a> Line<'a> {
    /// The next number, 0 past the line's end.
    fn number(&mut self) -> i64 {
        self.left.split_off_first().copied().unwrap_or(0)
    }

    fn size(&mut self) -> usize {
        usize::try_from(self.number()).unwrap_or(0)
    }

    fn float(&mut self) -> f64 {
        let m = self.number();
        let e = self.number();
        scaled(m, e)
    }

    /// The next numbers, or those that are left.
    fn list(&mut self, heap: Global, count: usize) -> Result<Vec<i64>, AllocError> {
        Vec::from_slice(heap, run(&mut self.left, count))
    }
}

fn print_point(rt: &HostRuntime, point: &[i64]) -> io::Result<()> {
    for z in point {
        print!(rt; " {z}")?;
    }
    println!(rt; "")
}

/// m times 2 to the e, for an m of at most 53 bits; no number for m = 0 and an e above 0.
fn scaled(m: i64, e: i64) -> f64 {
    if m == 0 && e > 0 {
        return f64::NAN;
    }
    let mut x = nearest_i64_to_f64(m);
    for _ in 0..e {
        x *= 2.0;
    }
    for _ in e..0 {
        x *= 0.5;
    }
    x
}

fn print_solution(rt: &HostRuntime, n: usize, solution: &Solution) -> io::Result<()> {
    let smallest = bits(solution.smallest);
    let Some(unknowns) = solution.unknowns else {
        return print!(rt; "stuck {smallest}");
    };
    print!(rt; "solved {smallest}")?;
    for x in unknowns.into_iter().take(n) {
        print!(rt; " {} {}", bits(x), nearest(x))?;
    }
    Ok(())
}

/// Reads the lines of a system. The place after the right side, where there is one, gets the line's number, which shows where the line goes.
fn read_lines(line: &mut Line, lines: &mut [[f64; LINE_PLACES]]) {
    let width = lines.len() + 1;
    let mut number = 0.0;
    for places in lines {
        for x in places.iter_mut().take(width) {
            *x = line.float();
        }
        if let Some(place) = places.get_mut(width) {
            *place = number;
        }
        number += 1.0;
    }
}

/// A sum over the bits of all places, which tells them apart by where they stand.
fn sum_of(lines: &[[f64; LINE_PLACES]]) -> u64 {
    let mut sum = 0u64;
    for places in lines {
        for x in places.iter().take(lines.len() + 2) {
            sum = sum.wrapping_mul(1_000_003).wrapping_add(bits(*x));
        }
    }
    sum
}

fn run_system(rt: &HostRuntime, line: &mut Line) -> io::Result<()> {
    // One unknown too many is stuck, and more of them are no other case.
    let n = line.size().min(MOST_LINES);
    let smallest = line.float();
    let mut square = [[0.0; LINE_PLACES]; MOST_LINES];
    let lines = &mut square[..n];
    read_lines(line, lines);
    let solution = solve(lines, smallest);
    print_solution(rt, n, &solution)?;
    println!(rt; " left {}", sum_of(lines))
}

/// The budget and the lists of a case, as its line has them.
#[derive(Drop)]
struct Case {
    budget: usize,
    g: Vec<i64>,
    c: Vec<i64>,
    a: Vec<i64>,
    lo: Vec<i64>,
    hi: Vec<i64>,
    l: Vec<i64>,
    u: Vec<i64>,
}

impl Case {
    /// The job, which is not handed on by value from here: it lies in places for the largest.
    fn job(&self) -> Option<Job> {
        let terms = Terms::new(&self.c, &self.l, &self.u, &self.lo, &self.hi)?;
        Job::new(terms, &self.g, &self.a)
    }
}

fn read_case(heap: Global, line: &mut Line) -> Result<Case, AllocError> {
    let n = line.size();
    let m = line.size();
    Ok(Case {
        budget: line.size(),
        g: line.list(heap, n.saturating_mul(n))?,
        c: line.list(heap, n)?,
        a: line.list(heap, n.saturating_mul(m))?,
        lo: line.list(heap, m)?,
        hi: line.list(heap, m)?,
        l: line.list(heap, n)?,
        u: line.list(heap, n)?,
    })
}

/// Walks from the point that the rest of the line has.
fn run_walk(
    rt: &HostRuntime,
    heap: Global,
    job: &Job,
    budget: usize,
    start: &[i64],
) -> anyhow::Result<()> {
    let budget = u32::try_from(budget).unwrap_or(0);
    let mut point = Vec::from_slice(heap, start)?;
    match walk(job, point.as_mut_slice(), budget) {
        Ok(walked) => print!(rt; "walk {} {}", walked.moves, walked.end)?,
        Err(_) => print!(rt; "refused")?,
    }
    Ok(print_point(rt, point.as_slice())?)
}

fn print_report(rt: &HostRuntime, report: &Report) -> io::Result<()> {
    print!(rt;
        "exchange {} {} {}",
        report.steps,
        report.end,
        bits(report.smallest)
    )
}

fn print_offer(rt: &HostRuntime, job: &Job, offer: &Offer) -> io::Result<()> {
    print!(rt; " ;")?;
    for z in offer.point.iter().take(job.ropes()) {
        print!(rt; " {z}")?;
    }
    for y in offer.multipliers.iter().take(job.rows()) {
        print!(rt; " {y}")?;
    }
    Ok(())
}

fn run_exchange(rt: &HostRuntime, job: &Job, budget: usize) -> io::Result<()> {
    print_report(rt, &exchange::run(job, budget))?;
    let mut exchange = Exchange::new(job);
    for _ in 0..budget {
        let step = exchange.step();
        if let Step::Found(offer, _) = step {
            print_offer(rt, job, &offer)?;
        }
        if end_after(step).is_some() {
            break;
        }
    }
    println!(rt; "")
}

/// What a line asks for.
#[derive(Clone, Copy, PartialEq, Eq)]
enum Kind {
    Walk,
    System,
    Exchange,
}

/// The kind that a line's first number stands for; any but 0 and 1 stands for an exchange.
impl From<i64> for Kind {
    fn from(number: i64) -> Kind {
        match number {
            0 => Kind::Walk,
            1 => Kind::System,
            _ => Kind::Exchange,
        }
    }
}

fn run_line(rt: &HostRuntime, heap: Global, line: &mut Line) -> anyhow::Result<()> {
    let kind = Kind::from(line.number());
    if kind == Kind::System {
        return Ok(run_system(rt, line)?);
    }
    let case = read_case(heap, line)?;
    match &case.job() {
        None => Ok(println!(rt; "no job")?),
        Some(job) if kind == Kind::Walk => run_walk(rt, heap, job, case.budget, line.left),
        Some(job) => Ok(run_exchange(rt, job, case.budget)?),
    }
}

fn run_lines(rt: &HostRuntime) -> anyhow::Result<()> {
    let heap = rt.alloc();
    for text in BufReader::new(heap, rt.stdin())?.lines(heap) {
        let text = text?;
        let numbers = numbers(heap, text.as_str())?;
        let mut line = Line {
            left: numbers.as_slice(),
        };
        run_line(rt, heap, &mut line)?;
    }
    Ok(())
}

fn main(rt: HostRuntime) -> anyhow::Result<()> {
    run_lines(&rt)
}
