//! A session with an editor: frames in, frames out.

use crate::desk::Settings;
use crate::message::{Refusal, refused};
use crate::service::{Next, Service};
use serde_json::Value;
use star_frames::frame::{FrameError, read_frame, write_frame};
use star_repo::repo::Repo;
use star_words::pattern::Listing;
use std::alloc::{AllocError, Global};
use std::io::{Read, Write};
use std::sync::Wait;
use std::thread::Threads;

/// How a session has ended.
#[derive(Debug, Drop)]
pub enum Ending {
    /// The client asked for it, after it had shut the service down.
    Exit,
    /// The client asked for it without that, or has gone.
    Left,
    /// What the client sent is no frame.
    BadFrame(FrameError),
    /// An answer cannot be written.
    NotWritten,
    /// An allocation failed.
    Memory,
}

/// Writes messages, each as a frame.
fn send<W: Write>(alloc: Global, writer: &mut W, messages: &[Value]) -> Result<(), Ending> {
    for message in messages {
        let Ok(content) = message.to_vec(alloc) else {
            return Err(Ending::Memory);
        };
        if write_frame(alloc, writer, content.as_slice()).is_err() {
            return Err(Ending::NotWritten);
        }
    }
    Ok(())
}

/// Why a session ends with a frame that cannot be read: the client is told so.
fn ended_by<W: Write>(alloc: Global, writer: &mut W, error: FrameError) -> Ending {
    if let Ok(message) = refused(alloc, &Value::Null, Refusal::NotJson) {
        let mut messages = Vec::new(alloc);
        if messages.push(message).is_ok() {
            let _ = send(alloc, writer, messages.as_slice());
        }
    }
    Ending::BadFrame(error)
}

/// How a session ends at the client's wish.
fn left(is_shut_down: bool) -> Ending {
    if is_shut_down {
        Ending::Exit
    } else {
        Ending::Left
    }
}

/// Takes a message and sends what is to be sent: why the session ends, if it does.
fn take<H: Threads + Wait + Sync, F: Repo + Listing, R: Read, W: Write>(
    rt: &H,
    alloc: Global,
    service: &mut Service<F>,
    reader: &mut R,
    writer: &mut W,
) -> Result<(), Ending> {
    let content = match read_frame(alloc, reader) {
        Ok(Some(content)) => content,
        Ok(None) => return Err(Ending::Left),
        Err(error) => return Err(ended_by(alloc, writer, error)),
    };
    let mut sent = Vec::new(alloc);
    match service.take(rt, content.as_slice(), &mut sent) {
        Ok(Next::GoesOn) => send(alloc, writer, sent.as_slice()),
        Ok(Next::Exit) => Err(left(service.is_shut_down())),
        Err(AllocError) => Err(Ending::Memory),
    }
}

/// Answers the messages of an editor about the files of a folder, until it ends the session.
pub fn serve_editor<H: Threads + Wait + Sync, F: Repo + Listing + Drop, R: Read, W: Write>(
    rt: &H,
    alloc: Global,
    folder: F,
    settings: Settings,
    reader: &mut R,
    writer: &mut W,
) -> Ending {
    let mut service = Service::new(alloc, folder, settings);
    for _ in rt.forever() {
        if let Err(ending) = take(rt, alloc, &mut service, reader, writer) {
            return ending;
        }
    }
    unreachable!()
}
