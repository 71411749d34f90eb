// What goes in and out of the exported functions: plain structs of numbers.
//
// No kind is 0, so that a struct of zeros is no answer: 1 says that what was asked for is there, 2 that there is none, 3 that
// it is refused, 4 that a value is missing, 5 that two books differ. A field that has no value holds all ones.

// All ones, in 32 bits and in 64.
pub const NO_VALUE: u32 = 4294967295;

pub const NO_AMOUNT: u64 = 18446744073709551615;

// A value that can be left out: kind 1 with its number, or kind 4.
#[repr(C)]
#[derive(Clone, Copy)]
pub struct OzpValue {
    pub kind: u32,
    pub number: u32,
}

// The parameters of a region.
#[repr(C)]
#[derive(Clone, Copy)]
pub struct OzpParameters {
    pub year: u32,
    pub cost: OzpValue,
    pub offset: OzpValue,
    pub outage: OzpValue,
    pub requirement: OzpValue,
    pub margin: OzpValue,
}

// What a call answers. Quantities are tenths of a megawatt, the price is in cents per MW-day, amounts are mills; `rows` is the
// number of offers.
#[repr(C)]
#[derive(Clone, Copy)]
pub struct OzpAnswer {
    pub make_whole: u64,
    pub daily: u64,
    pub year: u64,
    pub kind: u32,
    pub total: u32,
    pub price: u32,
    pub rows: u32,
    pub number: u32,
    pub place: u32,
}

// The three points of a curve.
#[repr(C)]
#[derive(Clone, Copy)]
pub struct OzpCurve {
    pub kind: u32,
    pub p1: u32,
    pub p2: u32,
    pub p3: u32,
    pub q1: u32,
    pub q2: u32,
    pub q3: u32,
    pub number: u32,
    pub place: u32,
}

// The price of a curve at a quantity: whole cents, and remainder / divisor of a cent.
#[repr(C)]
#[derive(Clone, Copy)]
pub struct OzpPrice {
    pub kind: u32,
    pub cents: u32,
    pub remainder: u32,
    pub divisor: u32,
    pub number: u32,
    pub place: u32,
}

// A row of a book; its step is 1 in a book of edition 1.
#[repr(C)]
#[derive(Clone, Copy)]
pub struct OzpRow {
    pub stamp: u64,
    pub resource: u32,
    pub seller: u32,
    pub quantity: u32,
    pub price: OzpValue,
    pub block: OzpValue,
    pub step: u32,
}

// What a book says besides its rows.
#[repr(C)]
#[derive(Clone, Copy)]
pub struct OzpContents {
    pub kind: u32,
    pub rows: u32,
    pub edition: u32,
    pub number: u32,
    pub place: u32,
    pub parameters: OzpParameters,
}

// A text in room that the caller lends: how many bytes it has.
#[repr(C)]
#[derive(Clone, Copy)]
pub struct OzpText {
    pub bytes: u64,
    pub kind: u32,
    pub number: u32,
    pub place: u32,
}

// The comparison of two books.
#[repr(C)]
#[derive(Clone, Copy)]
pub struct OzpComparison {
    pub kind: u32,
    pub price: u32,
    pub shared: u32,
    pub field: u32,
    pub row: u32,
    pub other: u32,
    pub book: u32,
    pub number: u32,
    pub place: u32,
}
