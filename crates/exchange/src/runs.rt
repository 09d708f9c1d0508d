//! A whole exchange.
ghost use Rattle.std.specs.Prelude.{◌≡◌};
ghost use Rattle.job.specs.Numbers.{problem_of};
ghost use Rattle.exchange.specs.Laws.{LawfulRun, AloneRun};
ghost use Rattle.exchange.specs.Runs.{end_after, exchanged, reported, report_at, report_of};

use crate::exchanges::Exchange;
use crate::members::{Choice, End, Report, Step};
use elimination::LARGEST;
use job::Job;

/// The end that a step means, if it is one.
pub fn end_after(step: Step) -> Option<End>
    ensures { result ≡ end_after step }
{
    match step {
        Step::Stuck => Some(End::Stuck),
        Step::Found(_, Choice::Full) => Some(End::Full),
        Step::Found(_, Choice::Done) => Some(End::Done),
        Step::Found(_, Choice::Enter(_) | Choice::Leave(_)) => None,
    }
}

impl Exchange<'_> {
    /// The smallest size of a pivot taken so far, 0 if none was.
    pub fn smallest_pivot(&self) -> f64
        ensures { result ≡ reported self.now.smallest }
    {
        if self.smallest < LARGEST {
            self.smallest
        } else {
            0.0
        }
    }

    /// What is said of an exchange that ends here, so many steps begun.
    pub fn report(&self, steps: usize, end: End) -> Report
        ensures { result ≡ report_at steps end self.now.smallest }
    {
        Report {
            steps,
            end,
            smallest: self.smallest_pivot(),
        }
    }
}

/// Runs an exchange of the job for at most so many steps, and says how it went.
pub fn run(job: &Job, budget: usize) -> Report
    ensures value { result ≡ report_of (exchanged (problem_of job.now) budget) }
    ensures law { LawfulRun (problem_of job.now) budget (exchanged (problem_of job.now) budget).offers result }
    ensures alone { AloneRun (problem_of job.now) budget (exchanged (problem_of job.now) budget).offers result }
{
    let mut exchange = Exchange::new(job);
    for k in 0..budget {
        let step = exchange.step();
        if let Some(end) = end_after(step) {
            return exchange.report(k + 1, end);
        }
    }
    exchange.report(budget, End::Spent)
}
