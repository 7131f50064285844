// The line for callers in C: what `linebench` promises, under the same names.
// The same two functions once more, since only a static library exports names to C, and no crate is both that and a library.
#![tactic(auto)]

ghost use Rattle.std.specs.Prelude.{◌≡◌, length};
ghost use Rattle.wire.specs.CheckWord.{check_word};
ghost use Rattle.wire.specs.Reader.{rest, takes};

// How many whole packets a line brings to a reader at rest.
#[unsafe(no_mangle)]
pub extern "C" fn packets_taken(line: &[u8]) -> usize
    ensures { result ≡ length (takes rest line.now) }
{
    linebench::packets_taken(line)
}

// The check word of a stretch of bytes.
#[unsafe(no_mangle)]
pub extern "C" fn word_of(bytes: &[u8]) -> u16
    ensures { result ≡ check_word bytes.now }
{
    linebench::word_of(bytes)
}
