// How every refusal of the product is told: by a number and, where it has one, a place.
#![tactic(auto)]

/// The number by which a refusal is known.
#[derive(Clone, Copy, PartialEq, Eq, Debug)]
pub struct RefusalNumber(pub usize);

/// A word's place in a listing, counted from 0.
#[derive(Clone, Copy, PartialEq, Eq, Debug)]
pub struct Place(pub usize);

/// A refusal: its number, and its place if it has one.
#[derive(Clone, Copy, PartialEq, Eq, Debug)]
pub struct Refusal {
    pub number: RefusalNumber,
    pub place: Option<Place>,
}
