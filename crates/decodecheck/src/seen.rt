// How often each kind of answer was met.
use crate::compare::Expected;
use std::fmt;

#[derive(Default, Drop)]
pub struct Seen {
    accepted: usize,
    tied: usize,
    unfit: usize,
    bad: usize,
    short: usize,
}

impl Seen {
    // Counts a case, and four calls with short memory if its count is allowed. A tie is a best list that others equal
    // in metric.
    pub(crate) fn note(&mut self, expected: Option<&Expected>) {
        let Some(expected) = expected else {
            self.bad = self.bad.saturating_add(1);
            return;
        };
        self.short = self.short.saturating_add(4);
        let count = match &expected.best {
            None => &mut self.unfit,
            Some(best) => {
                if best.equals > 1 {
                    self.tied = self.tied.saturating_add(1);
                }
                &mut self.accepted
            }
        };
        *count = count.saturating_add(1);
    }
}

impl fmt::Display for Seen {
    fn fmt<W: fmt::Write>(&self, f: &mut fmt::Formatter<W>) -> fmt::Result {
        let Seen {
            accepted,
            tied,
            unfit,
            bad,
            short,
        } = self;
        write!(
            f,
            "accepted: {accepted}, {tied} of them by the rule for equal metrics; "
        )?;
        write!(
            f,
            "no fit: {unfit}; bad count: {bad}; short, by one cost or one estimate: {short}"
        )
    }
}
