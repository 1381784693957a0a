//! How ids are spread over a hash map's table: four that follow one another share a place.
ghost use Rattle.std.specs.Prelude.{◌≡◌};
ghost use Rattle.std.specs.List.{fold};
ghost use Rattle.wm_ids.specs.Spread.{byte_behind, spread};

use std::hash::{BuildHasher, Hasher};

/// Makes the hashers of ids. Of a table of 4,000 ids in a row, what is done for 200 of them one after another reads some
/// 50 groups of lanes, and some 190 where each id is spread by itself.
#[derive(Clone, Copy)]
pub struct ByFours;

/// The hash of one id: the number of the bytes that were written, the lowest first.
#[derive(Clone, Copy)]
pub struct IdHasher {
    number: u32,
}

impl BuildHasher for ByFours {
    type Hasher = IdHasher;

    ghost build_hasher = { λ _. record { number = 0 } };

    #[inline(always)]
    fn build_hasher(&self) -> IdHasher {
        IdHasher { number: 0 }
    }
}

impl Hasher for IdHasher {
    ghost write = { λ hasher bytes. record { number = fold byte_behind hasher.number bytes } };

    ghost finish = { λ hasher. spread hasher.number };

    #[inline(always)]
    fn finish(&self) -> u64 {
        spread(self.number)
    }

    #[inline(always)]
    fn write(&mut self, bytes: &[u8]) {
        for byte in bytes {
            self.number = byte_behind(self.number, *byte);
        }
    }
}

/// The number with one more byte above it, and without its lowest byte.
#[inline(always)]
fn byte_behind(number: u32, byte: u8) -> u32
    ensures { result ≡ byte_behind number byte }
{
    number >> 8 | u32::from(byte) << 24
}

/// The place of an id in the low 24 bits, by which a table picks the group, and which is the same for the four ids that
/// differ in the lowest two bits alone; and in the 8 bits above, the tag of a lane, what tells ids of one place apart.
#[inline(always)]
fn spread(id: u32) -> u64
    ensures { result ≡ spread id }
{
    let mixed = u64::from(id >> 2).wrapping_mul(0x9e37_79b9_7f4a_7c15);
    let sign = (mixed >> 32 ^ u64::from(id)) & 0xff;
    mixed >> 40 | sign << 24
}
