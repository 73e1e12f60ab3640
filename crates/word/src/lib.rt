// Words of an extended BCH code in a packed buffer: 18 to 256 bits, all but 17 of them data.
#![tactic(auto)]

pub mod at;
pub mod bits;
pub mod checks;
pub mod decode;
pub mod encode;
pub mod locate;
pub mod mend;
pub mod refusal;
pub mod sizes;
