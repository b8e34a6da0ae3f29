// What a search does that is counted, and the counts beside their allowances.
#![tactic(auto)]

ghost use Rattle.std.specs.Prelude.{◌≡◌, ◌≤◌};
ghost use Rattle.events.specs.Counts.{fresh, trial_counted, check_counted, checks_counted, with_all_checks};

// The checks and trials made, each beside its allowance. It goes by value.
#[derive(Clone, Copy)]
pub struct Counts {
    pub checks: u64,
    pub trials: u64,
    pub most_checks: u64,
    pub most_trials: u64,
}

// What is due is counted, or it is not covered: then there is None, and the counts are as they were.
impl Counts {
    pub fn new(most_checks: u64, most_trials: u64) -> Self
        ensures { result ≡ fresh most_checks most_trials }
    {
        Self {
            checks: 0,
            trials: 0,
            most_checks,
            most_trials,
        }
    }

    // A trial is due.
    pub fn trial(self) -> Option<Counts>
        ensures { result ≡ trial_counted self }
    {
        if self.trials < self.most_trials {
            Some(Counts {
                trials: self.trials + 1,
                ..self
            })
        } else {
            None
        }
    }

    // A check is due.
    pub fn check(self) -> Option<Counts>
        ensures { result ≡ check_counted self }
    {
        if self.checks < self.most_checks {
            Some(Counts {
                checks: self.checks + 1,
                ..self
            })
        } else {
            None
        }
    }

    // So many checks are due, one after the other.
    pub fn check_each(self, due: u64) -> Option<Counts>
        requires { self.checks ≤ self.most_checks }
        ensures { result ≡ checks_counted self due }
    {
        if due <= self.most_checks - self.checks {
            Some(Counts {
                checks: self.checks + due,
                ..self
            })
        } else {
            None
        }
    }

    // More checks were due than the allowance has left: those that it has left are made.
    pub fn all_checks(self) -> Counts
        ensures { result ≡ with_all_checks self }
    {
        Counts {
            checks: self.most_checks,
            ..self
        }
    }
}
