// What the benchmark measures of the line, and what the tests hold to known values. `linebench_c` exports it.
#![tactic(auto)]

ghost use Rattle.std.specs.Prelude.{◌≡◌, length};
ghost use Rattle.wire.specs.CheckWord.{check_word};
ghost use Rattle.wire.specs.Reader.{rest, takes};

use wire::Reader;

#[cfg(test)]
mod tests;

// How many whole packets a line brings to a reader at rest.
#[tactic(auto, using(std::proofs::lemmas::List::Sums::fold_more, wire::proofs::Noise::count_more))]
pub fn packets_taken(line: &[u8]) -> usize
    ensures { result ≡ length (takes rest line.now) }
{
    let mut reader = Reader::new();
    let mut count = 0;
    // no filter and count: its closure would change the reader, and of a closure that changes what it holds no count is proved
    for byte in line {
        if reader.feed(*byte).is_some() {
            count += 1;
        }
    }
    count
}

// The check word of a stretch of bytes.
pub fn word_of(bytes: &[u8]) -> u16
    ensures { result ≡ check_word bytes.now }
{
    wire::check_word(bytes)
}
