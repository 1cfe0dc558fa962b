//! The options of a report: the further members of each module, which modules are shown, and in
//! which form.

ghost use Rattle.std.specs.Prelude.{◌≡◌, true};
ghost use Rattle.star_report.specs.Wanted.{IsPlain};

/// The further members of each module, and which modules are shown.
#[derive(Clone, Copy, Debug, PartialEq, Eq)]
pub struct Wanted {
    /// The values of its globals as JSON, and the names of the opaque ones.
    pub values: bool,
    /// The files that its load statements load, each with its label and the line of the statement.
    pub loads: bool,
    /// The steps that it has paid, if it is ok.
    pub steps: bool,
    /// The calls that it recorded.
    pub calls: bool,
    /// Of the modules that are ok, only the roots are shown.
    pub only_roots: bool,
}

impl Wanted {
    /// No further members, and all modules.
    pub const NOTHING: Wanted = Wanted {
        values: false,
        loads: false,
        steps: false,
        calls: false,
        only_roots: false,
    };

    /// Whether no further members of a module are wanted, but for the calls that it recorded.
    pub(crate) fn is_plain(self) -> bool
        ensures { result ≡ true → IsPlain self }
    {
        !self.values && !self.loads && !self.steps
    }
}

/// The output of a run.
#[derive(Debug, Drop)]
pub enum Output {
    /// The report, with the further members that are wanted.
    Report(Wanted),
    /// A line for each root, with its global of this name as JSON.
    Global(String),
    /// A line for each call of this name that a root recorded, as JSON.
    Calls(String),
    /// The graph of loads.
    Graph,
    /// The check of the files before any runs (`star_check`). `only_roots` says whether only the roots are shown of the
    /// files with nothing against them, and `calls` whether each has an empty row of calls.
    Check { only_roots: bool, calls: bool },
}
