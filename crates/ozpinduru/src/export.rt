// What callers in other languages link: include/ozpinduru.h says each contract in words.
ghost use Rattle.std.specs.Prelude.{◌≡◌, length};
ghost use Rattle.calendar.specs.Year.{days_of};
ghost use Rattle.layout.specs.Read.{contents_of};
ghost use Rattle.call.specs.Answer.{answer_of};
ghost use Rattle.plain.specs.Given.{parameters_in};
ghost use Rattle.plain.specs.Plotted.{exported_curve, exported_price};
ghost use Rattle.answers.specs.Answers.{exported, exported_make_whole};
ghost use Rattle.ozpinduru.specs.Export.{Returned, version};

use calendar::days_of;
use call::{clear, quote};
use curve::exact::price_at;
use limits::given::parameters_verdict;
use plain::given::parameters_in;
use plain::plotted;
use plain::structs::{NO_AMOUNT, OzpAnswer, OzpCurve, OzpParameters, OzpPrice};
use region::region_curve;
use settle::make_whole;
use units::CentsPerMwDay;

// Clears a book.
#[unsafe(no_mangle)]
pub extern "C" fn ozp_clear(book: &[u8], cleared: &mut [u32], committed: &mut [u32]) -> OzpAnswer
    ensures { Returned book.now cleared.old committed.old result cleared.new committed.new }
{
    answers::answer(clear(book, cleared, committed), answers::rows_stated(book))
}

// What a book clears, with no result buffers.
#[unsafe(no_mangle)]
pub extern "C" fn ozp_quote(book: &[u8]) -> OzpAnswer
    ensures { result ≡ exported (answer_of book.now) (length (contents_of book.now).offers) }
{
    answers::answer(quote(book), answers::rows_stated(book))
}

// The three points of the curve that parameters make.
#[unsafe(no_mangle)]
pub extern "C" fn ozp_curve(parameters: OzpParameters) -> OzpCurve
    ensures { result ≡ exported_curve (parameters_in parameters) }
{
    let p = parameters_in(parameters);
    if let Err(refusal) = parameters_verdict(p) {
        return plotted::curve_refused(refusal.number(), refusal.place());
    }
    plotted::curve(region_curve(p))
}

// The price at a quantity of the curve that parameters make, between cents.
#[unsafe(no_mangle)]
pub extern "C" fn ozp_price_at(parameters: OzpParameters, k: u32) -> OzpPrice
    ensures { result ≡ exported_price (parameters_in parameters) k }
{
    let p = parameters_in(parameters);
    if let Err(refusal) = parameters_verdict(p) {
        return plotted::price_refused(refusal.number(), refusal.place());
    }
    plotted::price(price_at(region_curve(p), k))
}

// A row's make-whole in mills a day, from the kind and the price of an answer and the row's entries of the two buffers.
#[unsafe(no_mangle)]
pub extern "C" fn ozp_make_whole(kind: u32, price: u32, cleared: u32, committed: u32) -> u64
    ensures { result ≡ exported_make_whole kind price cleared committed }
{
    match kind {
        1 => make_whole(Some(CentsPerMwDay(price)), cleared, committed),
        2 => make_whole(None, cleared, committed),
        _ => NO_AMOUNT,
    }
}

// The days of the delivery year that starts on 1 June of a calendar year.
#[unsafe(no_mangle)]
pub extern "C" fn ozp_days(year: u32) -> u32
    ensures { result ≡ days_of year }
{
    days_of(year) as u32
}

// The version of this interface: a million for the first number, a thousand for the second, and the third.
#[unsafe(no_mangle)]
pub extern "C" fn ozp_version() -> u32
    ensures { result ≡ version }
{
    9000
}
