// The one search for the youngest record that names a key: a register, in buffer entries and history records alike.
ghost use Rattle.std.specs.Prelude.{◌≡◌, Bool};
ghost use Rattle.recovery.specs.Search.{last_index};

// A record that may name a key.
pub trait Naming<K> {
    ghost names: { Self → K → Bool };

    fn is_for(&self, key: K) -> bool
        ensures { result ≡ names self.now key };
}

// The index of the youngest record that names the key, where the oldest comes first.
pub fn youngest<K: Copy, R: Naming<K>>(records: &[R], key: K) -> Option<usize>
    ensures { result ≡ last_index (λ x. R.names x key) records.now }
{
    records.iter().rposition(|record| record.is_for(key))
}
