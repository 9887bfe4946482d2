// What the calls on texts are told.
#![tactic(auto)]

// The rules of numbers: those of today, or the old ones of document 01, which only an old text that is rewritten is read by. They say how a number may be
// written, how many numbers a text may have, and how great a price may be.
#[derive(Clone, Copy, Debug, PartialEq, Eq)]
pub enum Rules {
    New,
    Old,
}

// The field of a text of coordinates: `integer`, with a weight for each edge, or `pattern`, without.
#[derive(Clone, Copy, Debug, PartialEq, Eq)]
pub enum Field {
    Integer,
    Pattern,
}

// What a number text holds: bounds (limits) or prices.
#[derive(Clone, Copy, Debug, PartialEq, Eq)]
pub enum Numbers {
    Bounds,
    Prices,
}
