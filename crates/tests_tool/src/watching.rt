use crate::checks::whole;
use crate::comparing::{same, same_octets, same_text};
use crate::pieces::by_number;
use lagstreams::{Sink, Source};
use lagtool_jobs::{ONE_CABLE, Progress, UP, UP_TEXT, Watch, check_watched, replay_watched};
use std::alloc::Global;
use std::cell::{Cell, RefCell};
use std::fmt::Display;
use std::io;
use std::test::Fail;
use std::time::{Clock, Duration};

/// A clock that goes on by so many milliseconds each time that it is read, but for readings that fail, and a standard error that
/// keeps what it is told, or takes nothing.
#[derive(Drop)]
struct Fake {
    millis: Cell<u64>,
    step: u64,
    /// The clock cannot be read from this time on, until that one.
    unread: (u64, u64),
    fails: bool,
    said: RefCell<String>,
}

fn fake_with(alloc: Global, step: u64, fails: bool) -> Fake {
    Fake {
        millis: Cell::new(0),
        step,
        unread: (0, 0),
        fails,
        said: RefCell::new(String::new(alloc)),
    }
}

impl Clock for Fake {
    fn monotonic(&self) -> io::Result<Duration> {
        let now = self.millis.get();
        self.millis.set(now.saturating_add(self.step));
        let (first, behind) = self.unread;
        if first <= now && now < behind {
            return Err(io::Error::from(io::ErrorKind::Unsupported));
        }
        Ok(Duration::from_millis(now))
    }

    fn since_1970(&self) -> io::Result<Duration> {
        self.monotonic()
    }
}

impl Eprint for Fake {
    fn eprint<D: Display + Drop>(&self, value: D) -> io::Result<()> {
        if self.fails {
            return Err(io::Error::from(io::ErrorKind::BrokenPipe));
        }
        if let Ok(mut said) = self.said.try_borrow_mut() {
            let _ = write!(*said, "{value}");
        }
        Ok(())
    }

    fn eprintln<D: Display + Drop>(&self, value: D) -> io::Result<()> {
        self.eprint(value)
    }
}

/// What is shown of five entries, where the clock goes on by so much from one to the next, and cannot be read between these times.
fn shown(alloc: Global, step: u64, unread: (u64, u64), is_asked: bool) -> String {
    let mut fake = fake_with(alloc, step, false);
    fake.unread = unread;
    let progress = Progress::new(&fake, is_asked, "entry");
    for done in 1..6u64 {
        progress.show(done);
    }
    progress.clear();
    progress.clear();
    fake.said.into_inner()
}

/// How far the clock goes on, between which times it cannot be read, whether signs are asked for, and what is shown.
const SIGNS: [(u64, (u64, u64), bool, &str); 10] = [
    (60, (0, 0), false, ""),
    (19, (0, 0), true, ""),
    (
        60,
        (0, 0),
        true,
        "\rlagtool: entry 2\rlagtool: entry 4\r\x1b[K",
    ),
    (
        99,
        (0, 0),
        true,
        "\rlagtool: entry 2\rlagtool: entry 4\r\x1b[K",
    ),
    (20, (0, 0), true, "\rlagtool: entry 5\r\x1b[K"),
    (60, (0, u64::MAX), true, ""),
    // The time when the work began is not known.
    (60, (0, 1), true, ""),
    (60, (60, u64::MAX), true, ""),
    // The clock fails where the first sign was due, or the second.
    (
        60,
        (120, 121),
        true,
        "\rlagtool: entry 3\rlagtool: entry 5\r\x1b[K",
    ),
    (60, (240, u64::MAX), true, "\rlagtool: entry 2\r\x1b[K"),
];

#[test]
fn signs_are_apart_and_go(rt: HostRuntime) {
    for (step, unread, is_asked, text) in SIGNS {
        let said = shown(rt.alloc(), step, unread, is_asked);
        let came = (step, unread, said.as_str());
        same(&rt, "step, times and signs", &came, &(step, unread, text));
    }
}

#[test]
fn a_watched_replay_writes_the_same(rt: HostRuntime) -> Result<(), Fail> {
    let alloc = rt.alloc();
    let script = format!(in alloc; "{}{}", UP, ONE_CABLE)?;
    for (is_asked, fails) in [(false, false), (true, false), (true, true)] {
        let fake = fake_with(alloc, 100, fails);
        let progress = Progress::new(&fake, is_asked, "entry");
        let mut sink = Sink::new(Vec::new(alloc));
        replay_watched(
            alloc,
            script.as_str(),
            by_number,
            by_number,
            &mut sink,
            &progress,
        )?;
        let written = sink.into_inner();
        same_octets(&rt, "report", 0, written.as_slice(), UP_TEXT.as_bytes());
        // both signs are gone before the report is written
        let shown = "\rlagtool: entry 16\rlagtool: entry 20\r\x1b[K";
        let said = fake.said.into_inner();
        let wanted = if is_asked && !fails { shown } else { "" };
        same_text(&rt, "signs", said.as_str(), wanted);
    }
    Ok(())
}

#[test]
fn a_watched_check_writes_the_same(rt: HostRuntime) -> Result<(), Fail> {
    let alloc = rt.alloc();
    for (is_asked, fails, text) in [
        (false, false, ""),
        (true, false, "\rlagtool: line 2\r\x1b[K"),
        (true, true, ""),
    ] {
        let fake = fake_with(alloc, 100, fails);
        let progress = Progress::new(&fake, is_asked, "line");
        let mut sink = Sink::new(Vec::new(alloc));
        let mut source = Source::new(whole(b"zz\n00\n"));
        let summary = check_watched(alloc, &mut source, &mut sink, &progress)?;
        progress.clear();
        same(&rt, "checked", &summary.checked, &2);
        let written = sink.into_inner();
        let wanted = b"1 not hex\n2 runt\nchecked 2 faults 2\n";
        same_octets(&rt, "report", 0, written.as_slice(), wanted);
        same_text(&rt, "signs", fake.said.into_inner().as_str(), text);
    }
    Ok(())
}
