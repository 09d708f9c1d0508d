//! A job is made of terms and of matrices that fit them.
ghost use Rattle.std.specs.Prelude.{◌≡◌, ◌≤◌};
ghost use Rattle.std.specs.Option.{option_map};
ghost use Rattle.terms.specs.Numbers.{numbers_of as terms_of};
ghost use Rattle.job.specs.Numbers.{numbers, numbers_of, fitting, matrices};

use crate::numbers::Job;
use terms::{PLACE_LIMIT, Terms, all_within, placed};

fn matrices_fit(ropes: usize, rows: usize, g: &[i64], a: &[i64]) -> bool
    requires ropes { ropes ≤ 16 }
    requires rows { rows ≤ 32 }
    ensures { result ≡ matrices ropes rows g.now a.now }
{
    g.len() == ropes * ropes
        && a.len() == ropes * rows
        && all_within(PLACE_LIMIT, g)
        && all_within(PLACE_LIMIT, a)
}

impl Job {
    /// A job of these terms and matrices, or nothing where a matrix has another length than the terms ask for, or a number beyond its limit.
    ///
    /// `g` goes row by row and `a` rope by rope.
    pub fn new(terms: Terms, g: &[i64], a: &[i64]) -> Option<Job>
        ensures { option_map numbers_of result ≡ fitting (numbers (terms_of terms) g.now a.now) }
    {
        if !matrices_fit(terms.ropes(), terms.rows(), g, a) {
            return None;
        }
        Some(Job {
            terms,
            g: placed(g),
            a: placed(a),
        })
    }
}
