// AES-128 of FIPS 197: the key schedule, and the encryption of one block or of two under it.
#![tactic(auto)]

mod word; // word.rt: four bytes in a u32
mod table; // table.rt: the S-box
mod products; // products.rt: the table of its values' products, made for a message and lent
mod column; // column.rt: SubBytes and MixColumns of one column
mod schedule; // schedule.rt: section 5.2
mod rounds; // rounds.rt: section 5.1

pub use products::fill_products;
pub use rounds::{State, Two, encrypt, encrypt_two, load, store};
pub use schedule::expand;
