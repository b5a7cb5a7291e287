// Laws that show what the marks in the replies say.
ghost use Rattle.std.specs.Prelude.{◌≡◌, codes};
ghost use Rattle.kernel_core.specs.Examples.{UsesRun};
ghost use Rattle.kernel_cli.specs.Examples.{accepted_of, clean_log, clean_replies, stale_log, stale_replies};
ghost use Rattle.kernel_cli.specs.Output.{output_of};

use crate::words::DEFAULT_STEPS;

/// A log whose last run uses what run 1 wrote, and is answered `clean`.
pub fn clean_log_law()
    ensures uses { UsesRun (accepted_of clean_log 3) (codes "b") DEFAULT_STEPS 1 }
    ensures replies { output_of DEFAULT_STEPS clean_log ≡ clean_replies }
{}

/// A log whose last run uses what run 2 wrote, which rests on a value that run 3 has overwritten, and is answered `stale`.
pub fn stale_log_law()
    ensures uses { UsesRun (accepted_of stale_log 6) (codes "c") DEFAULT_STEPS 2 }
    ensures replies { output_of DEFAULT_STEPS stale_log ≡ stale_replies }
{}
