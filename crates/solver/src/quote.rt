// What solve is asked for: the market price of an option on a future.

use prices::inputs::OptionType;

#[derive(Clone, Copy)]
pub struct Quote {
    pub price: f64,
    pub forward: f64,
    pub strike: f64,
    pub expiry: f64,
    pub option_type: OptionType,
}

// An option at a low and at a high price. Both structs name their fields as the documents' arguments.
#[derive(Clone, Copy)]
pub struct QuoteRange {
    pub low: f64,
    pub high: f64,
    pub forward: f64,
    pub strike: f64,
    pub expiry: f64,
    pub option_type: OptionType,
}
