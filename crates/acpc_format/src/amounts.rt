//! Compares the amounts of a row with others.
ghost use Rattle.std.specs.Prelude.{◌≡◌, nat_lt, bytes_eq};
ghost use Rattle.std.specs.List.{list_any};

/// Whether the amounts are the same.
#[tactic(auto, using(card_set::proofs::Bytes::equal_by_test))]
pub fn are_same(amounts: &[u64], others: &[u64]) -> bool
    ensures { result ≡ bytes_eq amounts.now others.now }
{
    amounts == others
}

/// Whether one of the amounts is above 0.
pub fn has_some(amounts: &[u64]) -> bool
    ensures { result ≡ list_any (nat_lt 0) amounts.now }
{
    for amount in amounts {
        if 0 < *amount {
            return true;
        }
    }
    false
}
