// An input, read to its end: a read that fails is told from an input that has ended.
#![tactic(auto)]

ghost use Rattle.std.specs.Prelude.{◌≡◌, ◌<◌, None, length, take};
ghost use Rattle.std.specs.Io.KnownBytes.{Consumes, IsAtEnd};
ghost use Rattle.io.specs.Counts.{IsPrefixLen};

use std::io::{Error, Read};

// What was read: how many bytes, and why a read failed before the input ended, if one did.
#[derive(Clone, Copy)]
pub struct Input {
    pub length: usize,
    pub failed: Option<Error>,
}

// Reads until the bytes are full, the input ends or a read fails, and puts what it reads at their start.
pub fn read_input<R: Read>(reader: &mut R, bytes: &mut [u8]) -> Input
    ensures within { IsPrefixLen result.length bytes.new }
    ensures taken { Consumes (R.remaining reader.old) (R.remaining reader.new) (take result.length bytes.new) }
    ensures whole { result.failed ≡ None → result.length < length bytes.new → IsAtEnd (R.remaining reader.new) }
{
    let mut done = 0;
    // a while, and no for: a read says how far it came, so how many turns there are stands nowhere before
    while done < bytes.len() {
        match reader.read(&mut bytes[done..]) {
            Ok(0) => {
                return Input {
                    length: done,
                    failed: None,
                };
            }
            Ok(more) => done += more,
            Err(why) => {
                return Input {
                    length: done,
                    failed: Some(why),
                };
            }
        }
    }
    Input {
        length: done,
        failed: None,
    }
}
