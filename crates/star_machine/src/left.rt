//! The trail that a fault leaves in the machine on its way out, for `--explain`. No contract knows of it. Parts that
//! find no memory are left out.

ghost use Rattle.std.specs.Prelude.{◌≡◌};

use crate::machine::Machine;
use star_meaning::story::Step;

/// No more steps are kept than these: each of the 400 levels leaves three at most.
const MOST_STEPS: usize = 1_200;

impl Machine {
    /// A fault leaves a statement of a file: of this line, which begins at a token.
    #[inline(never)]
    pub fn leave_statement(&mut self, file: u32, line: usize, token: usize)
        ensures { self.new ≡ self.old }
    {
        self.leave_step(Step::Statement { file, line, token });
    }

    /// A fault leaves the body of the definition of a file with this number.
    #[inline(never)]
    pub fn leave_body(&mut self, file: u32, number: usize)
        ensures { self.new ≡ self.old }
    {
        self.leave_step(Step::Call { file, number });
    }

    /// A fault leaves a call whose name is at a token of a file. Nothing is kept of a call whose body did not run.
    #[inline(never)]
    pub fn leave_call(&mut self, file: u32, token: usize)
        ensures { self.new ≡ self.old }
    {
        if let Some(Step::Call { .. }) = self.left.trail.last() {
            self.leave_step(Step::From { file, token });
        }
    }

    /// One more step of the trail.
    fn leave_step(&mut self, step: Step)
        ensures { self.new ≡ self.old }
    {
        if self.left.trail.len() < MOST_STEPS {
            let _kept = self.left.trail.push(step).is_ok();
        }
    }
}
