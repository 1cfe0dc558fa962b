//! Laws: a report of a session is what a process writes that is given all files at once.

ghost use Rattle.star_alike.specs.Bundles.{BundlesAreFiles};
ghost use Rattle.star_alike.specs.Laws.{BundlesReply, FilesInOrder, ChangesFollow, SessionsAnswer, SessionsAreProcesses, SessionsReply, SessionsServe, SessionsServeAmong};

/// A report of a session is the reply of `serve` for each bundle of the files, with a line end.
pub fn sessions_reply()
    ensures { SessionsReply }
{}

/// It is the answer of a process that has the files from a folder.
pub fn sessions_answer()
    ensures { SessionsAnswer }
{}

/// So all lines of a session are answered.
pub fn sessions_are_processes()
    ensures { SessionsAreProcesses }
{}

/// The files after changes and then others are those after all of them.
pub fn changes_follow()
    ensures { ChangesFollow }
{}

/// A process that was served a bundle of the files, with the options of the request, wrote the session's report.
pub fn sessions_serve<W, E>()
    ensures { SessionsServe W E }
{}

/// So did one that was served the files from a folder.
pub fn sessions_serve_among<W, E>()
    ensures { SessionsServeAmong W E }
{}

/// Files in order have a bundle, if their labels are in normal form and they pass no limit.
pub fn bundles_are_files()
    ensures { BundlesAreFiles }
{}

/// The files of a session stay in order.
pub fn files_in_order()
    ensures { FilesInOrder }
{}

/// The report of a session is the reply of `serve` for the bundle of its files.
pub fn bundles_reply()
    ensures { BundlesReply }
{}
