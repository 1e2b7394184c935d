//! A line on a terminal that tells how far a session has come.

ghost use Rattle.std.specs.Prelude.{◌≤◌, IfSome};

use seq_session::Progress;
use session_circle::NO_END;
use std::fmt;

/// What the line says. It ends without a line feed, so that what comes next is written over it.
#[derive(Clone, Copy, Debug)]
struct SoFar {
    moment: u64,
    delivered: u64,
    percent: u64,
}

impl fmt::Display for SoFar {
    fn fmt<W: fmt::Write>(&self, f: &mut fmt::Formatter<W>) -> fmt::Result {
        let SoFar {
            moment,
            delivered,
            percent,
        } = *self;
        write!(f, "{moment} ns, {delivered} messages, {percent} %")?;
        f.write_str(ERASED)?;
        f.write_str("\r")
    }
}

/// Erases a terminal's line from the cursor on.
const ERASED: &str = "\u{1b}[K";

/// How many hundredths of a session are past at a moment.
fn percent_of(moment: u64, until: u64) -> u64
    ensures { result ≤ 100 }
{
    let part = u128::from(moment) * 100 / u128::from(until.max(1));
    part.min(100) as u64
}

/// The first moment at which so many hundredths of a session are past.
fn moment_of(percent: u64, until: u64) -> Option<u64>
    ensures { IfSome result (λ _. percent ≤ 100) }
{
    if percent > 100 {
        return None;
    }
    let hundredfold = u128::from(percent) * u128::from(until);
    Some(hundredfold.div_ceil(100) as u64)
}

/// A line on standard error that is written anew at most once for each hundredth of a session, and goes at its end.
#[derive(Drop)]
pub struct ProgressLine<'r, R: Eprint> {
    rt: &'r R,
    /// Whether anybody reads it.
    is_read: bool,
    /// The end of the session.
    until: u64,
    delivered: u64,
    /// The moment from which on there is something new to tell; none where nothing is told.
    next: Option<u64>,
}

impl<'r, R: Eprint> ProgressLine<'r, R> {
    /// A line that is shown only where somebody reads it, as at a terminal.
    pub fn new(rt: &'r R, is_read: bool) -> Self {
        ProgressLine {
            rt,
            is_read,
            until: 0,
            delivered: 0,
            next: None,
        }
    }

    /// Follows a session with this end. How far one has come that has none is not known, so nothing is told of it.
    pub fn begin(&mut self, until: u64) {
        self.until = until;
        self.delivered = 0;
        self.next = if self.is_read && until < NO_END {
            moment_of(1, until)
        } else {
            None
        };
    }

    /// Erases the line, where one may stand.
    pub fn end(&mut self) {
        if self.is_read {
            let _ = self.rt.eprint(ERASED);
        }
    }

    fn show(&mut self, moment: u64) {
        let percent = percent_of(moment, self.until);
        self.next = moment_of(percent + 1, self.until);
        let delivered = self.delivered;
        let _ = self.rt.eprint(SoFar {
            moment,
            delivered,
            percent,
        });
    }
}

impl<R: Eprint> Progress for ProgressLine<'_, R> {
    fn advance(&mut self, moment: u64, delivered: usize) {
        self.delivered = self.delivered.saturating_add(delivered as u64);
        if let Some(next) = self.next {
            if moment >= next {
                self.show(moment);
            }
        }
    }
}
