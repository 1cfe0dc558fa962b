//! Reports of bundles by the caller's own thread.

use star_alone::answer::answer_alone;
use star_bundle::error::ServeError;
use star_checks::holds;
use star_dialect::Mode;
use star_report::wanted::Wanted;
use std::alloc::{AllocError, Global};
use std::test::Fail;

const BUNDLE: &str =
    "{\"//:a.star\":\"load(':p.star', 'one')\\nx = one\",\"//:b.star\":\"load(':a.star', 'x')\\nprint(name)\\ny = [x, two]\",\"//:c.star\":\"load(':d.star', 'z')\",\"//:d.star\":\"load(':c.star', 'z')\",\"//:e.star\":\"unread = 1\",\"//:p.star\":\"one = 1\\ntwo = one + 1\\nname = 'p'\"}";

const REPORT: &str =
    "{\"begun\":5,\"modules\":[{\"globals\":{\"x\":\"1\"},\"label\":\"//:a.star\",\"lines\":[],\"loads\":[{\"label\":\"//:p.star\",\"line\":1}],\"status\":\"ok\",\"steps\":6},{\"globals\":{\"y\":\"[1, 2]\"},\"label\":\"//:b.star\",\"lines\":[\"p\"],\"loads\":[{\"label\":\"//:a.star\",\"line\":1}],\"status\":\"ok\",\"steps\":25},{\"cycle\":[\"//:c.star\",\"//:d.star\"],\"label\":\"//:c.star\",\"line\":1,\"lines\":[],\"loads\":[{\"label\":\"//:d.star\",\"line\":1}],\"status\":\"load\"},{\"cycle\":[\"//:d.star\",\"//:c.star\"],\"label\":\"//:d.star\",\"line\":1,\"lines\":[],\"loads\":[{\"label\":\"//:c.star\",\"line\":1}],\"status\":\"load\"},{\"globals\":{\"name\":\"\\\"p\\\"\",\"one\":\"1\",\"two\":\"2\"},\"label\":\"//:p.star\",\"lines\":[],\"loads\":[],\"status\":\"ok\",\"steps\":21}]}\n";

/// The loads and the steps of each module.
const WANTED: Wanted = Wanted {
    values: false,
    loads: true,
    steps: true,
    calls: false,
    only_roots: false,
};

/// The answer for these roots: the text and whether all modules are ok, or the refusal. `Memory` also if there is no
/// memory for the words.
fn answer_of(
    alloc: Global,
    roots: &[&str],
    prelude: &str,
) -> Result<(Vec<u8>, Result<bool, ServeError>), AllocError> {
    let mut words = Vec::new(alloc);
    for root in roots {
        words.push(String::from_str(alloc, *root)?)?;
    }
    let prelude = String::from_str(alloc, prelude)?;
    let bytes = BUNDLE.as_bytes();
    match answer_alone(
        alloc,
        bytes,
        words.as_slice(),
        Some(&prelude),
        &Mode::core(alloc, 1_000_000),
        WANTED,
    ) {
        Ok(answered) => Ok((answered.text, Ok(answered.all_ok))),
        Err(error) => Ok((Vec::new(alloc), Err(error))),
    }
}

#[test]
fn a_report_by_one_thread(rt: HostRuntime) -> Result<(), Fail> {
    let (text, answer) = answer_of(rt.alloc(), &["//:b.star", "//:c.star"], "//:p.star")?;
    holds!(&rt; text.as_slice() == REPORT.as_bytes());
    holds!(&rt; answer == Ok(false));
    Ok(())
}

#[test]
fn a_refusal_by_one_thread(rt: HostRuntime) -> Result<(), Fail> {
    let (text, answer) = answer_of(rt.alloc(), &["//:b.star"], "//:q.star")?;
    holds!(&rt; text.is_empty());
    holds!(&rt; answer == Err(ServeError::NoPrelude));
    Ok(())
}
