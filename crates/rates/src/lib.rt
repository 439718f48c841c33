// What belongs to a context's rate: w by the cycno, the gain, the next lg by the formula, and the tables of it.
#![tactic(auto)]

ghost use Rattle.std.specs.Prelude.{◌≡◌};
ghost use Rattle.rates.specs.Rates.{w_of, rate_of, next_lg, gain_of};
ghost use Rattle.rates.specs.Tables.{tables};

mod next3;
mod next4;
mod next5;

// The rates, by their w.
#[derive(Clone, Copy, Debug, PartialEq, Eq)]
pub enum Rate {
    Three = 3,
    Four = 4,
    Five = 5,
}

impl Rate {
    // The rate by the cycno.
    #[tactic(auto, unfolding(crate::specs::Rates::rate_of))]
    pub fn by(cycno: u32) -> Rate
        ensures { w_of result ≡ rate_of cycno }
    {
        match cycno {
            0 | 1 => Rate::Three,
            2 => Rate::Four,
            _ => Rate::Five,
        }
    }

    // What lg gains where the bin was not the context's mps.
    #[tactic(auto, unfolding(crate::specs::Rates::gain_of))]
    pub fn gain(self) -> u32
        ensures { result ≡ gain_of (w_of self) }
    {
        match self {
            Rate::Three => 197,
            Rate::Four => 95,
            Rate::Five => 46,
        }
    }

    // w itself.
    pub fn width(self) -> u32
        ensures { result ≡ w_of self }
    {
        self as u32
    }

    // The next lg where the bin was the context's mps, worked out.
    pub fn next_lg(self, lg: u32) -> u32
        ensures { result ≡ next_lg (w_of self) lg }
    {
        let w = self.width();
        lg - (lg >> w) - (lg >> (w + 2))
    }
}

// The tables of it for rates 3, 4 and 5. They are copied: who reads many takes them once.
pub fn tables() -> [[u32; 1024]; 3]
    ensures { result ≡ tables }
{
    [next3::NEXT_LG, next4::NEXT_LG, next5::NEXT_LG]
}
