//! Exit statuses.
ghost use Rattle.std.specs.Prelude.{◌≡◌};
ghost use Rattle.rsvpd_check.specs.Codes.{code_of};

use command_run::Status;

// The exit status where there was something to say and that is an error.
const SAID: u8 = 10;

/// The exit status of a check: that of `demand`, but 10 where it came to its end and saying something is an error.
pub(crate) fn code_of(status: &Status, failed: bool) -> u8
    ensures { result ≡ code_of failed status.now }
{
    match status {
        Status::Done => { if failed { SAID } else { 0 } }
        _ => status.code(),
    }
}
