// The refusals of SPECIFICATION, section 10.1, one for each of its numbers 1 to 20, with the details that its table names.
ghost use Rattle.std.specs.Prelude.{◌≡◌, [], ◌∷◌};
ghost use Rattle.expression.specs.Refusal.{number, details, the_details};

#[derive(Clone, Copy, PartialEq, Eq, Debug)]
pub enum Refusal {
    // 1: a size is over a limit or at odds with a slice, or main has no columns.
    SizeAtOdds,
    // 2: a word is not below p.
    WordTooLarge,
    // 3: a kind is unknown, an operand is not lower, a column or a public value is absent.
    NodeInvalid,
    // 4: a node's degree is over the limit.
    DegreeTooHigh,
    // 5: a lookup's lists differ in length, a node is absent, or a column is not its position.
    LookupInvalid,
    // 6: widths differ; lookup, expected, actual.
    WidthsDiffer(u64, u64, u64),
    // 7: a kept merge is over 2^32 - 1.
    WeightTooLarge,
    // 8: the challenges are not two per lookup.
    ChallengesMissing,
    // 9: there are too few rows.
    RowsMissing,
    // 10: the trace buffer is too short, or the trace too narrow.
    TraceTooSmall,
    // 11: a terminal is present without lookups, or absent with them.
    TerminalMisplaced,
    // 12: W is 0.
    WidthZero,
    // 13: a flag is neither 0 nor 1; row, lookup.
    FlagNotBinary(u64, u64),
    // 14: two flags are 1; row, lookup.
    TwoFlags(u64, u64),
    // 15: a denominator that is used is 0; row, lookup.
    DenominatorZero(u64, u64),
    // 16: a group has more different tuples than the workspace has slots.
    WorkspaceFull,
    // 17: a constraint is not zero; row, place.
    ConstraintNotZero(u64, u64),
    // 18: a net is not zero; group, slot, net.
    NetNotZero(u64, u64, u64),
    // 19: the height sum is not below p; sum.
    HeightSumTooLarge(u64),
    // 20: the terminals' sum is not zero.
    TerminalsNotZero,
}

// The three details of an answer.
#[derive(Clone, Copy, PartialEq, Eq, Debug)]
pub struct ThreeDetails {
    pub first: u64,
    pub second: u64,
    pub third: u64,
}

fn three(first: u64, second: u64, third: u64) -> ThreeDetails
    ensures { the_details result ≡ first ∷ second ∷ third ∷ [] }
{
    ThreeDetails {
        first,
        second,
        third,
    }
}

impl Refusal {
    // Its number.
    pub fn number(self) -> u32
        ensures { result ≡ number self }
    {
        match self {
            Refusal::SizeAtOdds => 1,
            Refusal::WordTooLarge => 2,
            Refusal::NodeInvalid => 3,
            Refusal::DegreeTooHigh => 4,
            Refusal::LookupInvalid => 5,
            Refusal::WidthsDiffer(_, _, _) => 6,
            Refusal::WeightTooLarge => 7,
            Refusal::ChallengesMissing => 8,
            Refusal::RowsMissing => 9,
            Refusal::TraceTooSmall => 10,
            Refusal::TerminalMisplaced => 11,
            Refusal::WidthZero => 12,
            Refusal::FlagNotBinary(_, _) => 13,
            Refusal::TwoFlags(_, _) => 14,
            Refusal::DenominatorZero(_, _) => 15,
            Refusal::WorkspaceFull => 16,
            Refusal::ConstraintNotZero(_, _) => 17,
            Refusal::NetNotZero(_, _, _) => 18,
            Refusal::HeightSumTooLarge(_) => 19,
            Refusal::TerminalsNotZero => 20,
        }
    }

    // Its details, zero unless SPECIFICATION, section 10.1, names them.
    pub fn details(self) -> ThreeDetails
        ensures { the_details result ≡ details self }
    {
        match self {
            Refusal::WidthsDiffer(lookup, expected, actual) => three(lookup, expected, actual),
            Refusal::FlagNotBinary(row, lookup)
            | Refusal::TwoFlags(row, lookup)
            | Refusal::DenominatorZero(row, lookup) => three(row, lookup, 0),
            Refusal::ConstraintNotZero(row, place) => three(row, place, 0),
            Refusal::NetNotZero(group, slot, net) => three(group, slot, net),
            Refusal::HeightSumTooLarge(sum) => three(sum, 0, 0),
            _ => three(0, 0, 0),
        }
    }
}
