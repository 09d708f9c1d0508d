//! The unknowns, from the last up.
ghost use Rattle.std.specs.Prelude.{◌≡◌, ◌+◌, ◌-◌, ◌<◌, ◌≤◌, length, take};
ghost use Rattle.std.specs.Option.{option_map};
ghost use Rattle.elimination.specs.Lines.{rest, inside, unknown_of, unknowns_of, padded};
ghost use Rattle.elimination.specs.Runs.{Answered};

use crate::squares::{LINE_PLACES, MOST_UNKNOWNS};

/// An unknown lies strictly within 2^30 either way.
const BOUND: f64 = 1073741824.0;

/// The unknowns, filled up with 0, where each lies inside: they are found from the last up.
pub(crate) fn back_substitute(lines: &[[f64; LINE_PLACES]]) -> Option<[f64; MOST_UNKNOWNS]>
    requires { length lines.now ≤ 32 }
    ensures value { result ≡ option_map padded (unknowns_of (length lines.now) 0 lines.now) }
    ensures law { Answered (length lines.now) 0 lines.now (option_map (take (length lines.now)) result) }
{
    let mut unknowns = [0.0; MOST_UNKNOWNS];
    for k in (0..lines.len()).rev() {
        let x = unknown(&lines[k], k, &unknowns[k + 1..lines.len()]);
        if !is_inside(x) {
            return None;
        }
        unknowns[k] = x;
    }
    Some(unknowns)
}

/// The unknown of line k, where the later ones are known: the right side stands behind their coefficients.
fn unknown(line: &[f64], k: usize, later: &[f64]) -> f64
    requires { k + length later.now + 1 < length line.now }
    ensures { result ≡ unknown_of (k + length later.now + 1) k line.now later.now }
{
    let right = line[k + later.len() + 1];
    remainder(&line[k + 1..], later, right) / line[k]
}

fn remainder(coefficients: &[f64], unknowns: &[f64], right: f64) -> f64
    ensures { result ≡ rest right coefficients.now unknowns.now }
{
    let mut left = right;
    for (a, x) in coefficients.iter().zip(unknowns) {
        left -= a * x;
    }
    left
}

fn is_inside(x: f64) -> bool
    ensures { result ≡ inside x }
{
    x.abs() < BOUND
}
