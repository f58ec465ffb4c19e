// Counts: lengths and numbers of things, read at their places.
ghost use Rattle.std.specs.Prelude.{◌≡◌, ◌+◌, ◌≤◌, length};
ghost use Rattle.metafile.specs.Bytes.{part};
ghost use Rattle.metafile.specs.Fields.{count_value};

// The count in the n bytes from the place `at` on. The first eight bytes of a length mostly count nothing: then what is behind
// them is the count.
pub fn count_at(s: &[u8], at: usize, n: usize) -> usize
    requires { (n ≤ 12) × (at + n ≤ length s.now) }
    ensures { result ≡ count_value (part at n s.now) }
{
    if 8 < n {
        if fields::counts_nothing(&s[at..at + 8]) {
            return fields::count_value(&s[at + 8..at + n]) as usize;
        }
    }
    fields::count_value(&s[at..at + n]) as usize
}
