// Reads a book from standard input and writes what it clears, or its refusal. Where the input cannot be read there is no book,
// and so no answer: that, and an answer that is not taken, is one line on standard error.
#![tactic(auto)]

use input::read_input;
use report::put_report;

// A book that does not fit the buffer is longer than any book, and what fits of it is refused as too long.
fn main(rt: HostRuntime) {
    let mut bytes = [0u8; 65536];
    let input = read_input(&mut rt.stdin(), &mut bytes);
    if input.failed.is_some() {
        let _ = rt.eprintln("clear: standard input cannot be read");
        return;
    }
    let mut out = [0u8; 32768];
    let end = put_report(&mut out, 0, &bytes[..input.length]);
    if rt.write_all(&out[..end]).is_err() {
        let _ = rt.eprintln("clear: standard output was not all taken");
    }
}
