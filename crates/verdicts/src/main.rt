// Writes a line for each book that its arguments name: whether it is accepted, whether it is sound, and how many of its
// rows the reader hands back. A book that cannot be read is one line on standard error.
#![tactic(auto)]

ghost use Rattle.std.specs.Prelude.{◌≡◌};
ghost use Rattle.layout.specs.Form.{form_fault, offer_count};
ghost use Rattle.verdicts.specs.inner.Handed.{rows_handed};

use book::{soundness, verdict};
use input::read_input;
use layout::reader::own_bytes;
use std::fs::File;
use std::rt::Files;
use std::{env, io};
use values::Refusal;

// How many rows the reader hands back, from row 0 on until the first empty part: all that the book states, and none of one
// that is refused by 1 to 3.
fn rows_handed(book: &[u8]) -> usize
    ensures { result ≡ rows_handed (form_fault book.now) (offer_count book.now) }
{
    for row in 0..600 {
        if own_bytes(book, row).is_empty() {
            return row;
        }
    }
    600
}

// Writes one word where the book passed, and else another with the refusal's number and place.
fn write_verdict(
    rt: &impl Print,
    v: Result<(), Refusal>,
    passed: &str,
    refused: &str,
) -> io::Result<()> {
    match v {
        Ok(()) => print!(rt; "{passed}"),
        Err(refusal) => print!(rt; "{refused} {refusal}"),
    }
}

// Writes the line of a book.
fn write_line(rt: &impl Print, name: &str, book: &[u8]) -> io::Result<()> {
    print!(rt; "{name}: ")?;
    write_verdict(rt, verdict(book), "accepted", "refused")?;
    print!(rt; ", ")?;
    write_verdict(rt, soundness(book), "sound", "unsound")?;
    let rows = rows_handed(book);
    println!(rt; ", rows {rows}")
}

// What an error says, without its number.
fn words_of(said: &str) -> &str {
    match said.split_once(" (os error ") {
        Some((words, _)) => words,
        None => said,
    }
}

// Says why a book cannot be read, in the words of the system.
fn tell(rt: &(impl Eprint + Alloc), name: &str, why: io::Error) -> io::Result<()> {
    let said = format!(in rt.alloc(); "{why}")?;
    let words = words_of(said.as_str());
    eprintln!(rt; "{name}: {words}")
}

// Reads the file that has this name and writes its line. A file that does not fit the buffer is longer than any book.
fn judge(rt: &(impl Files + Print + Eprint + Alloc), name: &str) -> io::Result<()> {
    let mut file = match File::open(rt, name) {
        Ok(file) => file,
        Err(why) => return tell(rt, name, why),
    };
    let mut bytes = [0u8; 65536];
    let input = read_input(&mut file, &mut bytes);
    match input.failed {
        Some(why) => tell(rt, name, why),
        None => write_line(rt, name, &bytes[..input.length]),
    }
}

// Goes on with the next book where a line cannot be written.
fn main(rt: HostRuntime) -> io::Result<()> {
    for name in env::args(&rt)?.skip(1) {
        let _ = judge(&rt, name.as_str());
    }
    Ok(())
}
