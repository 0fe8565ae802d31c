//! Runs that were worked out by hand, as theorems of the definitions. The functions do nothing:
//! their contracts say what the definitions give, to the last byte, whatever the code does.
#![tactic(auto)]

ghost use Rattle.check_worked_runs.specs.Runs.{ThreeTicks, NoTicks, TwoModules, TimeOverflow};
ghost use Rattle.check_worked_runs.specs.Texts.{FirstExample};

#[cfg(test)]
mod tests;

/// Three ticks, a second apart.
pub fn three_ticks()
    ensures { ThreeTicks }
{}

/// No ticks.
pub fn no_ticks()
    ensures { NoTicks }
{}

/// Two modules that tick at equal times.
pub fn two_modules()
    ensures { TwoModules }
{}

/// A tick that would come after the greatest time.
pub fn time_overflow()
    ensures { TimeOverflow }
{}

/// Three ticks from the bytes of the two files on, to those of the vector file.
pub fn first_example()
    ensures { FirstExample }
{}
