// Reads a book from standard input and writes its page for a person: what an analyst would work by hand. Where the input cannot be
// read there is no book to explain: that, and a page that is not all taken, is one line on standard error.
#![tactic(auto)]

use input::read_input;
use page::put_page;

fn main(rt: HostRuntime) {
    let mut bytes = [0u8; 65536];
    let input = read_input(&mut rt.stdin(), &mut bytes);
    if input.failed.is_some() {
        let _ = rt.eprintln("explain: standard input cannot be read");
        return;
    }
    let mut text = [0u8; 98304];
    let end = put_page(&mut text, 0, &bytes[..input.length]);
    if rt.write_all(&text[..end.min(text.len())]).is_err() {
        let _ = rt.eprintln("explain: standard output was not all taken");
    }
}
