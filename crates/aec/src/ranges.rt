// What a bin goes by, within its ranges.

ghost use Rattle.std.specs.Prelude.{◌≤◌, ◌<◌};

// s, t and R of a bin.
#[derive(Clone, Copy)]
pub struct Split {
    pub s: u32,
    pub t: u32,
    pub range: u32,
    ghost t_fits: { t ≤ 255 },
    ghost range_some: { 1 ≤ range },
    ghost range_fits: { range < 512 },
}

// The predicted bin p, and lg.
#[derive(Clone, Copy)]
pub struct Prediction {
    pub p: u32,
    pub lg: u32,
    ghost p_fits: { p ≤ 1 },
    ghost lg_some: { 4 ≤ lg },
    ghost lg_fits: { lg ≤ 1023 },
}
