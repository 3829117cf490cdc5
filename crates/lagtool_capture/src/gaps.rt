ghost use Rattle.std.specs.Prelude.{◌≡◌, ◌<◌, ◌^◌, ℕ, List, length};
ghost use Rattle.lagtool_capture.specs.Gaps.{IsMedianOf, gaps_of, gaps_with, median, no_gaps, tenths_of, tenths_up_to};

/// How many times are told apart: 0 to 999 tenths of a second, and more.
const ENTRIES: usize = 1001;

/// The nanoseconds in a tenth of a second.
const TENTH: u64 = 100_000_000;

/// How often each time between two LACPDUs was seen, in tenths of a second. It takes 8 KB, so it is no `Copy` type: each
/// time is counted in place.
#[derive(Debug, Drop, PartialEq, Eq)]
pub struct Gaps {
    /// How many times there are.
    known: u64,
    /// How many of them have so many tenths of a second; the last entry counts those of 100 seconds and more.
    counts: [u64; 1001],
}

/// The whole tenths of a second in a time in nanoseconds; 1000 stands for 100 seconds and more.
#[tactic(auto, unfolding(crate::specs::Gaps::most_tenths))]
fn tenths_of(gap: u64) -> usize
    ensures exact { result ≡ tenths_of gap }
    ensures among { result < 1001 }
{
    let tenths = gap / TENTH;
    tenths.min(1000) as usize
}

/// The tenths of a second that so many of the times that are counted have at most.
fn tenths_up_to(counts: &[u64], wanted: u64) -> Option<usize>
    ensures { result ≡ tenths_up_to 0 wanted counts.now }
{
    let mut left = wanted;
    for (tenths, count) in counts.iter().enumerate() {
        if left <= *count {
            return Some(tenths);
        }
        left -= *count;
    }
    None
}

impl Gaps {
    /// No gap counted yet.
    #[tactic(auto, unfolding(crate::specs::Gaps::no_gaps))]
    pub fn none() -> Gaps
        ensures { result ≡ no_gaps }
    {
        Gaps {
            known: 0,
            counts: [0; ENTRIES],
        }
    }

    /// Counts one time more, in nanoseconds, if it is known.
    #[tactic(auto, unfolding(crate::specs::Gaps::gaps_with))]
    pub fn add(&mut self, gap: Option<u64>)
        ensures { self.new ≡ gaps_with gap self.old }
    {
        if let Some(gap) = gap {
            let tenths = tenths_of(gap);
            self.counts[tenths] = self.counts[tenths].saturating_add(1);
            self.known = self.known.saturating_add(1);
        }
    }

    /// The median by the counts.
    #[tactic(auto, unfolding(crate::specs::Gaps::median))]
    fn by_counts(&self) -> Option<usize>
        ensures { result ≡ median self.now }
    {
        if self.known == 0 {
            return None;
        }
        tenths_up_to(&self.counts, self.known - self.known / 2)
    }

    // promise: the median of the times between LACPDUs is the least number of tenths of a second that at least half of them have at most
    // contract: `Gaps::median` (`IsMedianOf`)
    /// The median of the times in tenths of a second, cut off: of an even number the lower of the two in the middle. 1000
    /// stands for 100 seconds and more; None without a time.
    pub fn median(&self) -> Option<usize>
        ensures by_counts { result ≡ median self.now }
        ensures of_times { (gaps : List ℕ) → length gaps < 2 ^ 64 → self.now ≡ gaps_of gaps → IsMedianOf gaps result }
    {
        self.by_counts()
    }
}
