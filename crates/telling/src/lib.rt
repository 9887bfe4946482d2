// What the exported calls are passed as bools, and what they tell of an answer.
#![tactic(auto)]

ghost use Rattle.std.specs.Prelude.{◌≡◌, length};
ghost use Rattle.telling.specs.Telling.{kind_of, kind_number, numbers_of, number_in, place_in, shape_told, length_told};

use graph::{Kind, Refusal, Shape};
use layout::Numbers;

// The kind that is passed as a bool.
fn kind_of(general: bool) -> Kind
    ensures { result ≡ kind_of general }
{
    if general {
        Kind::General
    } else {
        Kind::Bipartite
    }
}

// The shape that is passed as a bool and three numbers.
pub fn shape_given(general: bool, rows: u32, columns: u32, edges: u32) -> Shape
    ensures { (result.kind ≡ kind_of general) × (result.rows ≡ rows) × (result.columns ≡ columns) × (result.edges ≡ edges) }
{
    Shape {
        kind: kind_of(general),
        rows,
        columns,
        edges,
    }
}

// The sort of numbers that is passed as a bool.
pub fn numbers_of(prices: bool) -> Numbers
    ensures { result ≡ numbers_of prices }
{
    if prices {
        Numbers::Prices
    } else {
        Numbers::Bounds
    }
}

// A kind as a number.
fn kind_number(kind: Kind) -> u64
    ensures { result ≡ kind_number kind }
{
    match kind {
        Kind::Bipartite => 0,
        Kind::General => 1,
    }
}

// Tells the place of a refusal, and answers its number; each is 0 where there is none.
pub fn tell(told: Result<(), Refusal>, place: &mut u64) -> u32
    ensures { (result ≡ number_in told) × (place.new ≡ place_in told) }
{
    match told {
        Ok(()) => {
            *place = 0;
            0
        }
        Err(refusal) => {
            *place = refusal.place;
            u32::from(refusal.fault)
        }
    }
}

// Tells the place of a refusal and the length of a text, as a call that writes one answers them, and answers the refusal's number.
pub fn tell_text(told: Result<usize, Refusal>, answer: &mut [u64; 2]) -> u32
    ensures { (result ≡ number_in told) × (answer.new ≡ length_told told) }
{
    match told {
        Ok(length) => {
            *answer = [0, length as u64];
            0
        }
        Err(refusal) => {
            *answer = [refusal.place, 0];
            u32::from(refusal.fault)
        }
    }
}

// Tells the place of a refusal and the shape of a graph, as a reader of one answers them, and answers the refusal's number.
pub fn tell_shape(told: Result<Shape, Refusal>, answer: &mut [u64; 5]) -> u32
    ensures { (result ≡ number_in told) × (answer.new ≡ shape_told told) }
{
    match told {
        Ok(s) => {
            *answer = [
                0,
                kind_number(s.kind),
                u64::from(s.rows),
                u64::from(s.columns),
                u64::from(s.edges),
            ];
            0
        }
        Err(refusal) => {
            *answer = [refusal.place, 0, 0, 0, 0];
            u32::from(refusal.fault)
        }
    }
}
