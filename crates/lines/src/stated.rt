// What a book states: its edition where that is 2, and its parameters, each given or missing.
ghost use Rattle.std.specs.Prelude.{◌≡◌};
ghost use Rattle.forms.specs.Shown.{Shown};
ghost use Rattle.lines.specs.Stated.{stated_numbers};

use forms::put_form;
use limits::parameters::by_margin;
use values::head::Parameters;
use wording::word::{margined, valued, yearly};

// What a book states, as the numbers that are shown: for each parameter the words for it and its number.
#[tactic(auto, unfolding(crate::specs::Stated::stated_numbers))]
fn stated_numbers(edition: u32, p: Parameters, offers: u32) -> [u64; 13]
    ensures { result ≡ stated_numbers edition p offers }
{
    let cost = yearly(p.cost);
    let offset = yearly(p.offset);
    let outage = valued(p.outage);
    let requirement = valued(p.requirement);
    let margin = margined(by_margin(p.year), p.margin);
    [
        u64::from(edition == 2),
        u64::from(p.year),
        cost.word,
        cost.number,
        offset.word,
        offset.number,
        outage.word,
        outage.number,
        requirement.word,
        requirement.number,
        margin.word,
        margin.number,
        u64::from(offers),
    ]
}

// Puts the edition, where offers have steps in it, the parameters and the number of offers.
#[tactic(auto, using(wording::proofs::Showing::showing), unfolding(crate::specs::Stated::stated_numbers))]
pub fn put_stated(room: &mut [u8], at: usize, edition: u32, p: Parameters, offers: u32) -> usize
    ensures { Shown room.old at (stated_numbers edition p offers) room.new result }
{
    put_form(
        room,
        at,
        b"The book states
[|  edition                2, in which an offer is a step of its resource
]  delivery year          #
  C, cost of new entry   [missing, which is not zero|0 dollars per MW-year, entered as zero\
    |1 dollar per MW-year|@ dollars per MW-year]
  E, revenue offset      [missing, which is not zero|0 dollars per MW-year, entered as zero\
    |1 dollar per MW-year|@ dollars per MW-year]
  F, outage rate EFORd   [missing, which is not zero|0.00 percent, entered as zero|$ percent]
  R, requirement         [missing, which is not zero|0.0 MW, entered as zero|~ MW]
  reserve margin         [none, and the year's curve goes without one\
    |missing, which is not zero|0.00 percent, entered as zero|$ percent]
  offers                 @
",
        &stated_numbers(edition, p, offers),
    )
}
