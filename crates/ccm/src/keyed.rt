// What a message is sealed or opened under.
ghost use Rattle.std.specs.Prelude.{◌≡◌, ◌≤◌, length};
ghost use Rattle.aes.specs.KeyExpansion.{aes128};
ghost use Rattle.aes.specs.Word.{bytes_of};
ghost use Rattle.ccm.specs.Limits.{most_data};

use aes::{State, Two};
use std::marker::Model;

// AES-128 under one key, which is all that a contract sees of it: the table of products and the schedule. Both are lent, since a struct
// that held them would be built in one place of the stack and copied into another.
#[derive(Drop)]
pub(crate) struct Cipher<'a> {
    products: &'a [u64; 256],
    schedule: &'a [u8; 176],
}

impl<'a> Model for Cipher<'a> {
    ghost use Rattle.std.specs.Prelude.{◌≡◌, List, ℕ, take};
    ghost use Rattle.aes.specs.KeyExpansion.{key_expansion};
    ghost use Rattle.aes.specs.Word.{Products};

    ghost Value = { List ℕ };

    // A schedule begins with its key.
    ghost view = { λ c. take 16 c.schedule.now };

    ghost invariant = { λ c. Products c.products.now × (c.schedule.now ≡ key_expansion 4 10 (take 16 c.schedule.now)) };
}

impl<'a> Cipher<'a> {
    // Makes both in what is lent. Apart, so that what this puts on the stack is given back.
    #[inline(never)]
    pub(crate) fn new(
        products: &'a mut [u64; 256],
        schedule: &'a mut [u8; 176],
        key: [u8; 16],
    ) -> Self
        ensures { result ≡ key }
    {
        aes::fill_products(products);
        *schedule = aes::expand(products, key);
        Cipher { products, schedule }
    }

    pub(crate) fn encrypt(&self, block: State) -> State
        ensures { bytes_of result ≡ aes128 self.now (bytes_of block) }
    {
        aes::encrypt(self.products, self.schedule, block)
    }

    // Two blocks, side by side.
    pub(crate) fn encrypt_two(&self, first: State, second: State) -> Two
        ensures first_value { bytes_of result.first ≡ aes128 self.now (bytes_of first) }
        ensures second_value { bytes_of result.second ≡ aes128 self.now (bytes_of second) }
    {
        aes::encrypt_two(self.products, self.schedule, first, second)
    }
}

// The cipher, the nonce and the authenticated data of one message.
#[derive(Drop)]
pub(crate) struct Context<'a, 'b> {
    pub(crate) cipher: Cipher<'a>,
    pub(crate) nonce: [u8; 13],
    pub(crate) aad: &'b [u8],
    ghost short: { length aad.now ≤ most_data },
}
