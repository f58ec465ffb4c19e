// The fault of what reading a date gives, for whoever asks only whether it is one.
ghost use Rattle.std.specs.Prelude.{◌≡◌};
ghost use Rattle.metafile.specs.Refusals.{fault_in};
ghost use Rattle.metafile.specs.Days.{day_fault};

use crate::{Day, Refusal};

impl Day {
    // A field is refused where no date was read.
    pub fn fault(read: Option<Day>) -> Result<(), Refusal>
        ensures { fault_in result ≡ day_fault read }
    {
        match read {
            Some(_) => Ok(()),
            None => Err(Refusal::Form),
        }
    }
}
