// A refusal of what a book says: the number and the place in words, what is wrong there, and all that is missing.
ghost use Rattle.std.specs.Prelude.{◌≡◌};
ghost use Rattle.forms.specs.Shown.{Shows};
ghost use Rattle.causes.specs.Rules.{broken_number, step_cause};
ghost use Rattle.readout.specs.Facts.{row_in};
ghost use Rattle.refusing.specs.Refused.{steps_parts, against_parts, wrong_parts, refused_row, fault_parts, refused_parts};

use crate::missing::put_missing;
use causes::rules::step_cause;
use faultlines::parameter::put_parameter;
use faultlines::refused::put_refused_row;
use faultlines::wrong::{put_rules, put_values};
use readout::{Head, earlier_row, offer_of};
use rowlines::rows::put_offer;
use values::Refusal;
use values::place::Offer;

// The number of the rule of steps that a row breaks first, and 0 where it keeps them.
fn rule_number(before: Offer, o: Offer, row: usize) -> u32
    ensures { result ≡ broken_number (step_cause before o row) }
{
    step_cause(before, o, row).map_or(0, |rule| rule.number())
}

// 10: puts which rule of steps a row breaks, and the row before it, where there is one.
fn put_steps(room: &mut [u8], at: usize, book: &[u8], edition: u32, row: usize, o: Offer) -> usize
    ensures { Shows room.old at (steps_parts book.now edition row o) room.new result }
{
    if row == 0 {
        return put_rules(room, at, rule_number(o, o, 0));
    }
    let Some(before) = offer_of(book, row - 1) else {
        return at;
    };
    let rules = put_rules(room, at, rule_number(before, o, row));
    put_offer(room, rules, edition, row - 1, before)
}

// Puts what a row that is refused is held against: 8 the first row with its resource, 10 the rules of steps.
fn put_against(
    room: &mut [u8],
    at: usize,
    book: &[u8],
    edition: u32,
    refusal: Refusal,
    row: usize,
    o: Offer,
    first: usize,
) -> usize
    ensures { Shows room.old at (against_parts book.now edition refusal row o first) room.new result }
{
    match refusal {
        Refusal::RepeatedResource(_) => match offer_of(book, first) {
            Some(earlier) => put_offer(room, at, edition, first, earlier),
            None => at,
        },
        Refusal::BrokenSteps(_) => put_steps(room, at, book, edition, row, o),
        _ => at,
    }
}

// Puts what is wrong with a row: 7 its values beside their ranges, else its offer behind what it is held against.
fn put_wrong(
    room: &mut [u8],
    at: usize,
    book: &[u8],
    edition: u32,
    refusal: Refusal,
    row: usize,
    o: Offer,
    first: usize,
) -> usize
    ensures { Shows room.old at (wrong_parts book.now edition refusal row o first) room.new result }
{
    match refusal {
        Refusal::OfferOutOfRange(_) => put_values(room, at, edition, o),
        _ => {
            let against = put_against(room, at, book, edition, refusal, row, o, first);
            put_offer(room, against, edition, row, o)
        }
    }
}

// 6, 7, 8 and 10: puts a row that is refused, where it is there, and what is wrong with it.
fn put_row_refused(
    room: &mut [u8],
    at: usize,
    book: &[u8],
    edition: u32,
    refusal: Refusal,
    row: usize,
) -> usize
    ensures { Shows room.old at (refused_row book.now edition refusal row (row_in book.now row)) room.new result }
{
    let Some(o) = offer_of(book, row) else {
        return at;
    };
    let first = earlier_row(book, row);
    let behind = put_refused_row(room, at, refusal.number(), row, o.resource, first);
    put_wrong(room, behind, book, edition, refusal, row, o, first)
}

// Puts a refusal of what a book says: 1 to 5 at a parameter, of which a book that can be read has 4 and 5 alone, the others at a row.
fn put_fault(room: &mut [u8], at: usize, book: &[u8], head: Head, refusal: Refusal) -> usize
    ensures { Shows room.old at (fault_parts book.now head refusal) room.new result }
{
    match refusal {
        Refusal::WrongLength
        | Refusal::WrongCheck(_)
        | Refusal::WrongLayout(_)
        | Refusal::MissingParameter(_)
        | Refusal::ParameterOutOfRange(_) => {
            put_parameter(room, at, refusal.number(), refusal.place(), head.parameters)
        }
        _ => put_row_refused(
            room,
            at,
            book,
            head.edition,
            refusal,
            refusal.place() as usize,
        ),
    }
}

// Puts why a book that can be read is refused, and all that it lacks.
pub fn put_refused(room: &mut [u8], at: usize, book: &[u8], head: Head, refusal: Refusal) -> usize
    ensures { Shows room.old at (refused_parts book.now head refusal) room.new result }
{
    let fault = put_fault(room, at, book, head, refusal);
    put_missing(room, fault, book, head.edition, head.parameters)
}
