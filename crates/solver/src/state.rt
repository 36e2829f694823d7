// What the loops carry.
use crate::answers::Branch;
use crate::normalised_market::NormalisedMarket;

// A loop's state: document 01's five floats.
#[derive(Clone, Copy)]
pub struct State {
    pub s: f64,
    pub ds: f64,
    pub previous: f64,
    pub left: f64,
    pub right: f64,
}

// The ends between which s is looked for.
#[derive(Clone, Copy)]
pub struct Bracket {
    pub left: f64,
    pub right: f64,
}

// A map's value with its first two derivatives: the Rust's triple.
#[derive(Clone, Copy)]
pub struct MapAndDerivatives {
    pub f: f64,
    pub fp: f64,
    pub fpp: f64,
}

// What the trail keeps of a completed step: s, the computed price b, vega, the bracket's ends after
// the move, and s after the step.
#[derive(Clone, Copy)]
pub struct Record {
    pub s: f64,
    pub b: f64,
    pub vega: f64,
    pub left: f64,
    pub right: f64,
    pub after: f64,
}

// A completed step: the state after it, and what the trail keeps of it.
#[derive(Clone, Copy)]
pub struct Step {
    pub state: State,
    pub kept: Record,
}

// Where a run begins: answered before a guess, or with a loop's branch, its market and the state before
// its first step.
#[derive(Clone, Copy)]
pub enum Start {
    Answered(f64),
    Looping(Branch, NormalisedMarket, State),
}
