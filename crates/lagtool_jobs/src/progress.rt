//! How far long work is, shown on standard error, which `--progress` asks for. A watch is shown numbers and gives nothing
//! back: nothing else can change by it. `Progress` has standard error and a clock, and no more.
ghost use Rattle.std.specs.Prelude.{◌≡◌, None, Some, false};
ghost use Rattle.std.specs.Time.{instant_nanos};
ghost use Rattle.lagtool_jobs.specs.Signs.{is_due, sign_text};

use std::cell::Cell;
use std::fmt;
use std::time::{Clock, Instant};

/// How many milliseconds lie between two signs, at the least.
const APART: u128 = 100;

/// A display of how far long work has come.
pub trait Watch {
    /// Shows how many lines or entries are done.
    fn show(&self, done: u64);

    /// Takes away what is shown.
    fn clear(&self);
}

/// Nobody watches.
#[derive(Drop)]
pub struct Unwatched;

impl Watch for Unwatched {
    fn show(&self, _done: u64) {}

    fn clear(&self) {}
}

/// How far work is, over what stands in the line (profile).
#[derive(Clone, Copy)]
struct SignText {
    /// What is counted.
    noun: &'static str,
    done: u64,
}

impl fmt::Display for SignText {
    ghost output = { λ t. Some (sign_text t.noun.now t.done) };

    fn fmt<W: fmt::Write>(&self, f: &mut fmt::Formatter<W>) -> fmt::Result {
        write!(f, "\rlagtool: {} {}", self.noun, self.done)
    }
}

/// Whether the last sign is old enough for another.
fn is_due(last: Instant, now: Instant) -> bool
    ensures { result ≡ is_due (instant_nanos last) (instant_nanos now) }
{
    now.duration_since(last).as_millis() >= APART
}

/// Shows on standard error how much is done: at most ten times a second, and nothing in the first tenth of a second.
/// Where standard error takes nothing, or the clock cannot be read, nothing is shown.
#[derive(Drop)]
pub struct Progress<'a, R> {
    rt: &'a R,
    /// What is counted.
    noun: &'static str,
    /// When the work began; None where nothing is to be shown.
    began: Option<Instant>,
    /// When the last sign was shown; None before the first.
    last: Cell<Option<Instant>>,
    is_shown: Cell<bool>,
}

impl<'a, R: Eprint + Clock> Progress<'a, R> {
    /// Work that begins now. It is shown only where that is asked for, and this clock can be read.
    pub fn new(rt: &'a R, is_asked: bool, noun: &'static str) -> Progress<'a, R>
        ensures noun { result.noun.now ≡ noun.now }
        ensures unasked { is_asked ≡ false → result.began ≡ None }
    {
        let began = if is_asked {
            Instant::now(rt).ok()
        } else {
            None
        };
        Progress {
            rt,
            noun,
            began,
            last: Cell::new(None),
            is_shown: Cell::new(false),
        }
    }
}

impl<R: Eprint + Clock> Watch for Progress<'_, R> {
    fn show(&self, done: u64) {
        let Some(began) = self.began else {
            return;
        };
        let Ok(now) = Instant::now(self.rt) else {
            return;
        };
        let last = self.last.get().unwrap_or(began);
        if is_due(last, now) {
            self.last.set(Some(now));
            self.is_shown.set(true);
            let noun = self.noun;
            let _ = eprint!(self.rt; "{}", SignText { noun, done });
        }
    }

    fn clear(&self) {
        if self.is_shown.replace(false) {
            let _ = eprint!(self.rt; "\r\x1b[K");
        }
    }
}
