// Packed prices; their 8 bytes are a word of the list, the first one uppermost.
use crate::list::Line;
use crate::records::{Answer, refused_with};
use elementary::methods::bits_of;
use prices::refusal::Numbered;

// The 8 bytes.
pub(crate) fn read(line: Line) -> Answer {
    let packed = line.arguments[0].to_be_bytes();
    match market::packed::read(&packed) {
        Ok(price) => Ok(bits_of(price)),
        Err(refusal) => refused_with(refusal.number(), 0),
    }
}

// The price, and the 8 bytes before it is written. The 8 bytes after it.
pub(crate) fn write(line: Line) -> Answer {
    let [price, ..] = line.floats();
    let mut packed = line.arguments[1].to_be_bytes();
    let written = market::packed::write(price, &mut packed);
    let word = u64::from_be_bytes(packed);
    match written {
        Ok(()) => Ok(word),
        Err(refusal) => refused_with(refusal.number(), word),
    }
}
