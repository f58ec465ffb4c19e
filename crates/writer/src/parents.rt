// Rows named as parents, by their numbers in the reading.
ghost use Rattle.std.specs.Prelude.{◌≡◌};
ghost use Rattle.writer.specs.Parents.{parents_refused};

// 13: each row is in the reading, none is named twice, and there are at most 16.
pub fn parents_wrong(n: usize, parents: &[usize]) -> bool
    ensures { result ≡ parents_refused n parents.now }
{
    if 16 < parents.len() {
        return true;
    }
    for (i, k) in parents.iter().enumerate() {
        if n <= *k || parents[i + 1..].contains(k) {
            return true;
        }
    }
    false
}
