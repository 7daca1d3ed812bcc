// The busiest hour: a window over the starts of the last hour, which goes with the log. Between its starts it keeps the gaps, in bytes.
ghost use Rattle.std.specs.Prelude.{◌≡◌, ◌+◌, ◌<◌};
ghost use Rattle.starts.specs.Gaps.{gap_at, size_at, size_of, gap_put};
ghost use Rattle.starts.specs.Counting.{waited};
ghost use Rattle.starts.specs.Windows.{Late, Followed, Joining, Joined, Counted};

// The ticks of an hour.
const HOUR: u32 = 36000;

// The bytes of gaps for every log (fixed memory, with where they begin and end in the window: there is no heap): a start and the next are two moves apart or more, three where time passes between them.
pub(crate) const GAP_BYTES: usize = 43692;

// The log's time and the latest start's; of the starts in the window the first one's time and how many there are; where their gaps begin
// and end; the most starts of an hour so far and where it begins.
#[derive(Clone, Copy, Default)]
pub(crate) struct Window {
    pub time: u32,
    pub latest: u32,
    pub since: u32,
    pub starts: u32,
    pub from: u32,
    pub to: u32,
    pub most: u32,
    pub at: u32,
}

// A gap, and where the next one stands.
#[derive(Clone, Copy)]
pub(crate) struct Gap {
    pub ticks: u32,
    pub end: u32,
}

// The gap at byte `at`: 0 for none, else its 256s plus 1 and its rest.
fn gap_at(gaps: &[u8], at: u32) -> Gap
    requires { at < 65536 }
    ensures { (result.ticks ≡ gap_at gaps.now at) × (result.end ≡ at + size_at gaps.now at) }
{
    let high = words::byte(gaps, at as usize) as u32;
    if high == 0 {
        return Gap {
            ticks: 0,
            end: at + 1,
        };
    }
    Gap {
        ticks: 256 * (high - 1) + words::byte(gaps, at as usize + 1) as u32,
        end: at + 2,
    }
}

// Puts a gap at byte `at`: where the next one goes.
fn put_gap(gaps: &mut [u8], at: u32, gap: u32) -> u32
    requires { (at < 65536) × (gap < 36000) }
    ensures value { result ≡ at + size_of gap }
    ensures gaps_after { gaps.new ≡ gap_put gaps.old at gap }
{
    if gap == 0 {
        words::put_byte(gaps, at as usize, 0);
        return at + 1;
    }
    words::put_byte(gaps, at as usize, (gap / 256 + 1) as u8);
    words::put_byte(gaps, at as usize + 1, (gap % 256) as u8);
    at + 2
}

impl Window {
    // Time passes.
    pub(crate) fn wait(&mut self, ticks: u16)
        requires { self.old.time + ticks < 4294967296 }
        ensures { self.new ≡ waited ticks self.old }
    {
        self.time += ticks as u32;
    }

    // The starts that are an hour old or older leave the window.
    fn follow(&mut self, gaps: &[u8])
        requires { Late gaps.now self.old }
        ensures { Followed gaps.now self.old self.new }
    {
        while HOUR <= self.time - self.since {
            let gap = gap_at(gaps, self.from);
            self.since += gap.ticks;
            self.starts -= 1;
            self.from = gap.end;
        }
    }

    // A start at the log's time joins the window.
    fn join(&mut self, gaps: &mut [u8])
        requires { Joining gaps.old self.old }
        ensures { Joined gaps.old gaps.new self.old self.new }
    {
        let gap = self.time - self.latest;
        self.latest = self.time;
        if self.starts == 0 || HOUR <= gap {
            self.since = self.time;
            self.starts = 1;
            self.from = self.to;
            return;
        }
        self.to = put_gap(gaps, self.to, gap);
        self.starts += 1;
        self.follow(gaps);
    }

    // A start at the log's time is counted: in the hour up to it there may be more than ever before.
    pub(crate) fn count_start(&mut self, gaps: &mut [u8])
        requires { Joining gaps.old self.old }
        ensures { Counted gaps.old gaps.new self.old self.new }
    {
        self.join(gaps);
        if self.most < self.starts {
            self.most = self.starts;
            self.at = self.since;
        }
    }
}
