//! `Module`: how a file ended.

ghost use Rattle.std.specs.Prelude.{◌≡◌};
ghost use Rattle.star_outcome.specs.Views.{ended_well};

use crate::shown::Shown;
use crate::store_row::StoreRow;
use star_found::about::Found;
use star_meaning::fault::FaultCode;
use star_meaning::said::Said;
use star_meaning::story::Step;
use star_reading::code::StaticFault;
use std::sync::Arc;

/// The result of a good run.
pub struct Body {
    /// The stores of the file and of all files that its loads lead to.
    pub stores: StoreRow,
    /// The globals with their texts, which the body has in common with the one over other stores.
    pub shown: Arc<Shown>,
    pub lines: Vec<Said>,
    /// The steps that its run has paid.
    pub paid: u32,
}

impl Drop for Body {
    fn drop(self) {
        let Body {
            stores: _,
            shown: _,
            lines: _,
            paid: _,
        } = self;
    }
}

/// The details of a fault that are for a person and not in the report.
pub struct Left {
    /// The statements and calls that the fault passed on its way out, the innermost first.
    pub trail: Vec<Step>,
    /// The part of the program that the fault is about, if it was found.
    pub found: Option<Found>,
}

impl Drop for Left {
    fn drop(self) {
        let Left { trail: _, found: _ } = self;
    }
}

/// How a file has ended.
pub enum Ended {
    /// It has a static fault.
    Static(StaticFault),
    /// The load with this index is the first that is not good. Its statement has this line.
    Load {
        index: usize,
        line: usize,
    },
    /// Its run stopped at this line, for this reason, after it had said this.
    Stopped {
        code: FaultCode,
        line: usize,
        lines: Vec<Said>,
        left: Left,
    },
    /// Its run went well.
    Good(Arc<Body>),
}

impl Drop for Ended {
    fn drop(self) {
        match self {
            Ended::Static(_) => {}
            Ended::Load { index: _, line: _ } => {}
            Ended::Stopped {
                code: _,
                line: _,
                lines: _,
                left: _,
            } => {}
            Ended::Good(_) => {}
        }
    }
}

/// The result of a file: its number, the files that it loads, and how it ended.
pub struct Module {
    pub number: usize,
    pub loads: Vec<usize>,
    pub ended: Ended,
}

impl Drop for Module {
    fn drop(self) {
        let Module {
            number: _,
            loads: _,
            ended: _,
        } = self;
    }
}

impl Module {
    /// Whether files that load it may use it: its run went well.
    pub fn is_good(&self) -> bool
        ensures { result ≡ ended_well self.now.ended }
    {
        matches!(&self.ended, Ended::Good(_))
    }

    /// The number of its stores that other rows may share without a copy.
    pub(crate) fn shared(&self) -> usize {
        match &self.ended {
            Ended::Good(body) => body.stores.shared(),
            _ => 0,
        }
    }
}
