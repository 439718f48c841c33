// The tables of rates, as they are read: from words of read-only memory, four entries each. Not from rates' arrays: these words are half as
// large, and the edits of single entries are of them.
#![tactic(auto)]

ghost use Rattle.std.specs.Prelude.{◌≡◌, ◌%◌};
ghost use Rattle.rates.specs.Rates.{next_lg, w_of};
ghost use Rattle.entries.specs.Entries.{entry_of};
ghost use Rattle.entries.specs.Inside.{words_of, pick_of, read_of};

use packed::WORDS;
use rates::Rate;

mod packed;

// Four entries of each table, for rates 3, 4 and 5.
#[derive(Clone, Copy)]
struct Words(u64, u64, u64);

// The words of four lgs, counted from 0.
fn words_at(m: u32) -> Words
    ensures { result ≡ words_of (m % 256) }
{
    WORDS[(m % 256) as usize]
}

fn picked(words: Words, rate: Rate) -> u64
    ensures { result ≡ pick_of words (w_of rate) }
{
    match rate {
        Rate::Three => words.0,
        Rate::Four => words.1,
        Rate::Five => words.2,
    }
}

// The entry of a rate's table at an lg.
fn read(rate: Rate, lg: u32) -> u32
    ensures { result ≡ read_of (w_of rate) lg }
{
    let word = picked(words_at(lg / 4), rate);
    ((word >> (16 * (lg % 4))) % 65536) as u32
}

// The next lg where the bin was the context's mps: the table's entry; past the table, where no context's lg is, it is worked out.
pub fn next_lg(rate: Rate, lg: u32) -> u32
    ensures { result ≡ next_lg (w_of rate) lg }
{
    if 1023 < lg {
        return rate.next_lg(lg);
    }
    read(rate, lg)
}

// The entry of a rate's table at an index, or none where the table has ended.
pub fn entry_at(rate: Rate, index: u32) -> Option<u32>
    ensures { result ≡ entry_of rate index }
{
    if 1023 < index {
        return None;
    }
    Some(read(rate, index))
}
