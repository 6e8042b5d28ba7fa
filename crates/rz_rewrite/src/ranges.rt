//! Pairs in the order of their first numbers: those of one number are found by halving.

ghost use Rattle.std.specs.Prelude.{◌≡◌, ◌==◌, filter};
ghost use Rattle.std.specs.List.Sorted.{IsNonDecreasingBy};
ghost use Rattle.rz_rewrite.specs.Calls.Places.{beside_or_zero};

/// The pairs that begin with a number, in their order.
pub fn pairs_from(pairs: &[(u64, u64)], at: u64) -> &[(u64, u64)]
    requires { IsNonDecreasingBy (λ p. p.0) pairs.now }
    ensures { result.now ≡ filter (λ p. p.0 == at) pairs.now }
{
    let first = pairs.partition_point(|pair| pair.0 < at);
    let from_first = &pairs[first..];
    let count = from_first.partition_point(|pair| pair.0 <= at);
    &from_first[..count]
}

/// What stands beside a number, in its first pair; 0 where it has none.
pub fn place_beside(pairs: &[(u64, u64)], at: u64) -> u64
    requires { IsNonDecreasingBy (λ p. p.0) pairs.now }
    ensures { result ≡ beside_or_zero pairs.now at }
{
    match pairs_from(pairs, at) {
        [] => 0,
        [pair, ..] => pair.1,
    }
}
