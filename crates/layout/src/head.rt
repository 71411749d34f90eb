// The layout of block 0.
ghost use Rattle.std.specs.Prelude.{◌≡◌, ◌≤◌, length};
ghost use Rattle.layout.specs.Layout.{edition_known, count_fits, head_marks_hold, head_holds};

use crate::{MOST_OFFERS, RPMB};
use block::bytes::{is_blank, opens_with};
use sections::marks::absent_holds;
use sections::section::blocks_for;
use values::head::{edition_in, offers_in};

// Whether a book can have this edition.
#[tactic(auto, unfolding(crate::specs::Layout::edition_known))]
pub fn edition_known(edition: u32) -> bool
    ensures { result ≡ edition_known edition }
{
    1 <= edition && edition <= 2
}

// Whether the number of offers is at most 600 and fits the number of blocks.
#[tactic(auto, unfolding(crate::specs::Layout::count_fits))]
pub fn count_fits(s: &[u8], blocks: usize) -> bool
    requires { 512 ≤ length s.now }
    ensures { result ≡ count_fits s.now blocks }
{
    let offers = offers_in(s);
    offers <= MOST_OFFERS && blocks == 1 + blocks_for(offers as usize)
}

// Whether the marks have no unused bit, and a value not given has zero bytes.
#[tactic(auto, unfolding(crate::specs::Layout::head_marks_hold, values::specs::Values::marked))]
fn head_marks_hold(s: &[u8]) -> bool
    requires { 512 ≤ length s.now }
    ensures { result ≡ head_marks_hold s.now }
{
    let marks = s[26];
    marks < 32
        && absent_holds(s, 8, marks, 1)
        && absent_holds(s, 12, marks, 2)
        && absent_holds(s, 16, marks, 4)
        && absent_holds(s, 20, marks, 8)
        && absent_holds(s, 28, marks, 16)
}

// Whether the part is laid out as block 0 of a book of so many blocks.
#[tactic(auto, unfolding(crate::specs::Layout::head_holds))]
pub(crate) fn head_holds(s: &[u8], blocks: usize) -> bool
    requires { 512 ≤ length s.now }
    ensures { result ≡ head_holds s.now blocks }
{
    opens_with(s, &RPMB)
        && edition_known(edition_in(s))
        && count_fits(s, blocks)
        && head_marks_hold(s)
        && is_blank(s, 27, 1)
        && is_blank(s, 32, 476)
}
