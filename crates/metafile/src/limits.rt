// "11 a lent byte buffer over 2^30"
ghost use Rattle.std.specs.Prelude.{◌≡◌};
ghost use Rattle.metafile.specs.Answers.{over_limit};

// limit of specs/Answers
pub const LIMIT: usize = 1073741824;

// Whether one of these lengths is over it.
pub fn over_limit(lengths: &[usize]) -> bool
    ensures { result ≡ over_limit lengths.now }
{
    lengths.iter().any(|n| LIMIT < *n)
}
