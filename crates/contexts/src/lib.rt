// Contexts of the bin decoder: their ranges, a fresh one, and the update after a bin.
#![tactic(auto)]

ghost use Rattle.std.specs.Prelude.{◌≡◌, ◌&&◌};
ghost use Rattle.contexts.specs.Contexts.{good_context, fresh_context, next_cycno, updated_of};

use rates::Rate;

// Document 01's mps, the likelier bin, with lg and cycno.
#[repr(C)]
#[derive(Clone, Copy)]
pub struct Context {
    pub mps: u32,
    pub lg: u32,
    pub cycno: u32,
}

impl Context {
    // A fresh context.
    pub fn fresh() -> Context
        ensures { result ≡ fresh_context }
    {
        Context {
            mps: 0,
            lg: 1023,
            cycno: 0,
        }
    }

    // Whether a context is within its ranges.
    #[tactic(auto, unfolding(crate::specs::Contexts::good_context))]
    pub fn is_good(self) -> bool
        ensures { result ≡ good_context self }
    {
        self.mps <= 1 && 4 <= self.lg && self.lg <= 1023 && self.cycno <= 3
    }

    // A context after a bin; one out of its ranges stays as it is. The rate goes by the cycno before.
    pub fn updated(self, bin: u32) -> Context
        ensures { result ≡ updated_of self bin }
    {
        if !self.is_good() {
            return self;
        }
        let Context { mps, lg, cycno } = self;
        let hit = bin == mps;
        let next = next_cycno(hit, cycno);
        let rate = Rate::by(cycno);
        if hit {
            return Context {
                mps,
                lg: entries::next_lg(rate, lg),
                cycno: next,
            };
        }
        let more = lg + rate.gain();
        if more <= 1023 {
            return Context {
                mps,
                lg: more,
                cycno: next,
            };
        }
        Context {
            mps: 1 - mps,
            lg: 2047 - more,
            cycno: next,
        }
    }
}

// Whether two contexts are within their ranges.
pub fn good_pair(a: Context, b: Context) -> bool
    ensures { result ≡ (good_context a && good_context b) }
{
    a.is_good() && b.is_good()
}

// The next cycno; hit says that the bin was the context's mps.
#[tactic(auto, unfolding(crate::specs::Contexts::next_cycno))]
fn next_cycno(hit: bool, cycno: u32) -> u32
    ensures { result ≡ next_cycno hit cycno }
{
    if hit { cycno.max(1) } else { cycno.min(2) + 1 }
}
