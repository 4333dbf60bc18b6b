// The two fields, by number: for each the prime p, and the value of X⁴ in its extension of degree 4.
ghost use Rattle.std.specs.Prelude.{◌≡◌};
ghost use Rattle.field.specs.Known.{known_field, prime_of, w_of};

// Field 1: 2^31 - 2^27 + 1.
pub const BABYBEAR: u32 = 2013265921;

pub const BABYBEAR_W: u32 = 11;

// Field 2: 2^31 - 2^24 + 1.
pub const KOALABEAR: u32 = 2130706433;

pub const KOALABEAR_W: u32 = 3;

// The same for a division of 64 bits by a constant.
pub const BABYBEAR_U64: u64 = BABYBEAR as u64;

pub const KOALABEAR_U64: u64 = KOALABEAR as u64;

// A field goes by its number and not by an enum: it is a word of the C interface, which may name no field.
pub const BABYBEAR_NUMBER: u32 = 1;

pub const KOALABEAR_NUMBER: u32 = 2;

#[tactic(auto, unfolding(crate::specs::Known::known_field))]
pub fn known_field(field: u32) -> bool
    ensures { result ≡ known_field field }
{
    (field == BABYBEAR_NUMBER) | (field == KOALABEAR_NUMBER)
}

#[tactic(auto, unfolding(crate::specs::Known::prime_of))]
pub fn prime_of(field: u32) -> u32
    ensures { result ≡ prime_of field }
{
    if field == KOALABEAR_NUMBER {
        KOALABEAR
    } else {
        BABYBEAR
    }
}

#[tactic(auto, unfolding(crate::specs::Known::w_of))]
pub fn w_of(field: u32) -> u32
    ensures { result ≡ w_of field }
{
    if field == KOALABEAR_NUMBER {
        KOALABEAR_W
    } else {
        BABYBEAR_W
    }
}
