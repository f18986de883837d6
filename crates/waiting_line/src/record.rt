ghost use Rattle.std.specs.Prelude.{◌≡◌, ℕ, ◌<◌, length, IfSome, nat_eq};
ghost use Rattle.waiting_line.specs.Searches.{first_where};

/// A record that tells its transaction and its destination.
pub trait Record {
    ghost transaction_of: { Self → ℕ };

    ghost destination_of: { Self → ℕ };

    /// The number of its transaction.
    fn transaction(&self) -> u32
        ensures { result ≡ transaction_of self.now };

    /// The destination that it is for.
    fn destination(&self) -> u8
        ensures { result ≡ destination_of self.now };
}

/// The place of the first record of the transaction `tn`.
pub fn find<T: Record>(records: &[T], tn: u32) -> Option<usize>
    ensures place { result ≡ first_where (λ x. nat_eq (T.Record.transaction_of x) tn) records.now }
    ensures within { IfSome result (λ i. i < length records.now) }
{
    records.iter().position(|record| record.transaction() == tn)
}
