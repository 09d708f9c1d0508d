//! The text of a sheet and of a refusal.
ghost use Rattle.std.specs.Prelude.{◌≡◌, ◌+◌, ◌≤◌, [], ◌∷◌, ◌++◌, length};
ghost use Rattle.exchange.specs.Ends.{name_of as exchange_word};
ghost use Rattle.walk.specs.Ends.{name_of as walk_word};
ghost use Rattle.lines.specs.Texts.{floor_line, point_lines, found_text, sheet_text, refusal_text};
ghost use Rattle.lines.specs.Answers.{room_check, sheet_check, answered, list_after};
ghost use Rattle.lines.specs.Reading.{Legible};

use crate::checks::{check_point, check_room};
use crate::coordinates::Coordinates;
use crate::page::Page;
use crate::unwritten::Unwritten;
use calls::{Found, Report, Shown};

/// How the exchange's line ends.
fn exchange_ending(end: exchange::End) -> &'static str
    ensures word { result.now ≡ 32 ∷ (exchange_word end ++ (10 ∷ [])) }
    ensures short { length result.now ≤ 7 }
{
    // Not by `Display`, here and below: that a `write!` to the page succeeds would be left open.
    match end {
        exchange::End::Done => " done\n",
        exchange::End::Full => " full\n",
        exchange::End::Stuck => " stuck\n",
        exchange::End::Spent => " spent\n",
    }
}

/// How the walk's line ends.
fn walk_ending(end: walk::End) -> &'static str
    ensures word { result.now ≡ 32 ∷ (walk_word end ++ (10 ∷ [])) }
    ensures short { length result.now ≤ 9 }
{
    match end {
        walk::End::Settled => " settled\n",
        walk::End::Spent => " spent\n",
    }
}

/// Adds a first line and the floor's line.
fn add_missing(page: &mut Page, first: &str, floor: i128)
    requires { length page.old.text.bytes + length first.now + 47 ≤ 320 }
    ensures { page.new.text.bytes ≡ page.old.text.bytes ++ (first.now ++ floor_line floor) }
{
    page.word(first);
    page.entry("floor ", floor);
}

/// Adds the lines of a point.
fn add_point(page: &mut Page, cost: i64, floor: i128, gap: i128, point: Coordinates)
    requires { length page.old.text.bytes + 240 ≤ 320 }
    ensures { page.new.text.bytes
        ≡ page.old.text.bytes ++ point_lines cost floor gap point.entry.numbers.now }
{
    page.entry("cost ", cost);
    page.entry("floor ", floor);
    page.entry("gap ", gap);
    page.word("point");
    page.numbers(point.numbers);
}

/// Adds what was found.
fn add_found(page: &mut Page, shown: &Shown, point: Coordinates)
    requires { length page.old.text.bytes + 240 ≤ 320 }
    ensures { page.new.text.bytes
        ≡ page.old.text.bytes ++ found_text shown.now.floor point.entry.numbers.now shown.now.found }
{
    match shown.found {
        Found::NoneExists => add_missing(page, "none exists\n", shown.floor),
        Found::Point { cost, gap } => add_point(page, cost, shown.floor, gap, point),
        Found::NoPoint => add_missing(page, "no point\n", shown.floor),
    }
}

fn sheet(report: &Report, shown: &Shown, point: Coordinates) -> Page
    ensures { result.text.bytes ≡ sheet_text report.now shown.now point.entry.numbers.now }
{
    let mut page = Page::new();
    page.labelled("exchange ", report.steps);
    page.word(exchange_ending(report.exchange));
    page.labelled("moves ", report.moves);
    page.word(walk_ending(report.walk));
    add_found(&mut page, shown, point);
    page
}

fn refusal(number: u8, place: usize) -> Page
    ensures { result.text.bytes ≡ refusal_text number place }
{
    let mut page = Page::new();
    page.labelled("refused ", number);
    page.entry(" at ", place);
    page
}

/// Writes what a solve did and what a plan shows at the start of a list, with the numbers of the point where one was found, and answers how many
/// bytes that has.
/// The bytes past the text stay. Refuses a list of fewer than 320 bytes, a point of more than 16 numbers, and one with a number beyond ±32,768:
/// then the list stays as it stood.
pub fn write_sheet(
    out: &mut [u8],
    report: &Report,
    shown: &Shown,
    point: &[i64],
) -> Result<usize, Unwritten>
    ensures answer { result ≡ answered (sheet_check out.old point.now) (sheet_text report.now shown.now point.now) }
    ensures after { out.new
        ≡ list_after (sheet_check out.old point.now) (sheet_text report.now shown.now point.now) out.old }
    ensures legible { Legible }
{
    check_room(out.len())?;
    let point = check_point(point)?;
    Ok(sheet(report, shown, point).copy_to(out))
}

/// Writes the line of a refusal at the start of a list, and answers how many bytes it has. The bytes past it stay.
/// Refuses a list of fewer than 320 bytes, which stays as it stood.
pub fn write_refusal(out: &mut [u8], number: u8, place: usize) -> Result<usize, Unwritten>
    ensures answer { result ≡ answered (room_check (length out.old)) (refusal_text number place) }
    ensures after { out.new ≡ list_after (room_check (length out.old)) (refusal_text number place) out.old }
    ensures legible { Legible }
{
    check_room(out.len())?;
    Ok(refusal(number, place).copy_to(out))
}
