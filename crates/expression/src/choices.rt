// The choices of a call, by number. Every entry point that can refuse takes them first, and tests them before anything else.
ghost use Rattle.std.specs.Prelude.{◌≡◌};
ghost use Rattle.expression.specs.Choices.{known, known_profile, known_rule, limits_of};

use crate::sizes::{Limits, cabinet, gateway};
use field::modulus::known_field;

// The field, by the number that the field crate gives it, and the profile, whose limits the call keeps. Numbers and no enums: they are words of
// the C interface, known or not.
#[derive(Clone, Copy)]
pub struct Choices {
    pub field: u32,
    pub profile: u32,
}

pub const CABINET_NUMBER: u32 = 1;

pub const GATEWAY_NUMBER: u32 = 2;

pub const RULE_1: u32 = 1;

pub const RULE_2: u32 = 2;

fn known_profile(profile: u32) -> bool
    ensures { result ≡ known_profile profile }
{
    (profile == CABINET_NUMBER) | (profile == GATEWAY_NUMBER)
}

#[tactic(auto, unfolding(crate::specs::Choices::known))]
pub fn known(choices: Choices) -> bool
    ensures { result ≡ known choices }
{
    known_field(choices.field) & known_profile(choices.profile)
}

// The tuple rule, which generation and constraints take beside the other choices.
#[tactic(auto, unfolding(crate::specs::Choices::known_rule))]
pub fn known_rule(rule: u32) -> bool
    ensures { result ≡ known_rule rule }
{
    (rule == RULE_1) | (rule == RULE_2)
}

// The limits of a known profile: a call that names another is refused before they are read.
#[tactic(auto, unfolding(crate::specs::Choices::limits_of))]
pub fn limits_of(profile: u32) -> Limits
    ensures { result ≡ limits_of profile }
{
    if profile == GATEWAY_NUMBER {
        gateway()
    } else {
        cabinet()
    }
}
