//! A law that relates the check to a run.

ghost use Rattle.star_check.specs.Check.{GoodIsSound};

/// A file that is good is sound, so one that is not sound never becomes ok in a run.
pub fn good_is_sound()
    ensures { GoodIsSound }
{}
