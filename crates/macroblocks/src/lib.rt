// What a sequence header record says of macroblocks and slices.
#![tactic(auto)]

ghost use Rattle.std.specs.Prelude.{◌≡◌};
ghost use Rattle.macroblocks.specs.Macroblocks.{macroblock_columns, macroblock_rows, slices_tested};

use bodies::SequenceHeader;

// Macroblock columns of a picture.
pub fn macroblock_columns(h: SequenceHeader) -> u32
    ensures { result ≡ macroblock_columns h }
{
    h.horizontal.div_ceil(16)
}

// Macroblock rows of a picture. Where progressive is 0 it may be two fields, each of whole rows.
#[tactic(auto, unfolding(crate::specs::Macroblocks::macroblock_rows))]
pub fn macroblock_rows(h: SequenceHeader) -> u32
    ensures { result ≡ macroblock_rows h }
{
    if h.progressive == 0 {
        2 * h.vertical.div_ceil(32)
    } else {
        h.vertical.div_ceil(16)
    }
}

// Whether the order and the rows of slices are tested.
pub fn slices_tested(h: SequenceHeader) -> bool
    ensures { result ≡ slices_tested h }
{
    h.vertical <= 2800
}
