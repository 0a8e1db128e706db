//! Worked samples of what the contracts of the other crates speak of, proved
//! to hold by the same definitions.

#![tactic(auto)]

ghost use Rattle.std.specs.Prelude.{◌≡◌, length};
ghost use Rattle.std.specs.List.{AllByRecursion};
ghost use Rattle.samples.specs.Samples.{Holds, table};

// How many samples the table has. Each of them holds.
pub fn samples_hold() -> usize
    ensures count { result ≡ length table }
    ensures hold { AllByRecursion Holds table }
{
    13
}
