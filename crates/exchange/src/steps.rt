//! One step after another.
ghost use Rattle.std.specs.Prelude.{◌≡◌, ℕ, ◌+◌, ◌<◌, ◌≤◌, true, [], length, take};
ghost use Rattle.job.specs.Numbers.{problem_of};
ghost use Rattle.elimination.specs.Lines.{at, inside, largest};
ghost use Rattle.exchange.specs.Systems.{size_of};
ghost use Rattle.exchange.specs.Offers.{offered};
ghost use Rattle.exchange.specs.Steps.{changed, Follows, choice_at, step_at, solved_at, members_after, OffersInside, ChosenWell, LawfulStep};

use crate::exchanges::Exchange;
use crate::members::{Choice, Offer, Step};
use crate::offers::point_of;
use crate::rounded::Rounded;
use crate::rounds::{in_parts, rounded};
use crate::working::WorkingSet;
use arrayvec::ArrayVec;
use elimination::{LARGEST, LINE_PLACES, MOST_UNKNOWNS, solve};
use job::Job;

impl WorkingSet<'_> {
    /// What the unknowns of the solved system offer, and how the working set changes.
    fn reading(&self, unknowns: &mut [f64]) -> (Offer, Choice)
        requires all { length unknowns.old ≡ size_of (problem_of self.now.job.now) self.now.members.now }
        requires inside { (k : ℕ) → k < size_of (problem_of self.now.job.now) self.now.members.now → inside (at unknowns.old k) ≡ true }
        ensures offer { result.0 ≡ offered (problem_of self.now.job.now) self.now.members.now unknowns.old }
        ensures choice { result.1 ≡ choice_at (problem_of self.now.job.now) self.now.members.now unknowns.old }
    {
        let (job, members) = (self.job, self.members);
        let ropes = job.ropes();
        let (pulls, pressures) = unknowns.split_at_mut(ropes);
        in_parts(pressures);
        let pulls = rounded(pulls);
        let pressures = rounded(pressures);
        let solution = Rounded {
            set: *self,
            pulls: &pulls[0..ropes],
            pressures: &pressures[0..members.len()],
        };
        let choice = solution.choose();
        let multipliers = solution.multipliers();
        let point = point_of(job, pulls);
        (Offer { point, multipliers }, choice)
    }
}

impl<'a> Exchange<'a> {
    /// An exchange of the job with an empty working set and no pivot taken.
    pub fn new(job: &'a Job) -> Exchange<'a>
        ensures job { result.job.now ≡ job.now }
        ensures members { result.members.items ≡ [] }
        ensures smallest { result.smallest ≡ largest }
    {
        Exchange {
            job,
            members: ArrayVec::new(),
            smallest: LARGEST,
        }
    }

    fn follow(&mut self, choice: Choice)
        requires { Follows (problem_of self.old.job.now).ropes (problem_of self.old.job.now).rows self.old.members.items choice }
        ensures members { self.new.members.items ≡ changed self.old.members.items choice }
        ensures job { self.new.job.now ≡ self.old.job.now }
        ensures smallest { self.new.smallest ≡ self.old.smallest }
    {
        match choice {
            Choice::Enter(member) => {
                self.members.push(member);
            }
            Choice::Leave(k) => {
                let _ = self.members.remove(k);
            }
            Choice::Full | Choice::Done => {}
        }
    }

    /// Solves the working set's system, offers what it finds, and changes the set.
    pub fn step(&mut self) -> Step
        ensures value { result ≡ step_at (problem_of self.old.job.now) self.old.members.items self.old.smallest }
        ensures members { self.new.members.items ≡ members_after self.old.members.items result }
        ensures smallest { self.new.smallest ≡ (solved_at (problem_of self.old.job.now) self.old.members.items self.old.smallest).0 }
        ensures job { self.new.job.now ≡ self.old.job.now }
        ensures inside { OffersInside (problem_of self.old.job.now) result }
        ensures choice { ChosenWell (problem_of self.old.job.now) self.old.members.items }
        ensures law { LawfulStep (problem_of self.old.job.now) self.old.members.items self.old.smallest result self.new.smallest }
    {
        let set = WorkingSet {
            job: self.job,
            members: &self.members,
        };
        let size = set.size();
        // The square is made here: one that a function hands out is copied.
        let mut lines = [[0.0; LINE_PLACES]; MOST_UNKNOWNS];
        set.fill_square(&mut lines);
        let solution = solve(&mut lines[..size], self.smallest);
        self.smallest = solution.smallest;
        let Some(mut unknowns) = solution.unknowns else {
            return Step::Stuck;
        };
        let (offer, choice) = set.reading(&mut unknowns[..size]);
        self.follow(choice);
        Step::Found(offer, choice)
    }
}
