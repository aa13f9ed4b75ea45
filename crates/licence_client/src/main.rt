//! A client of the licence daemon: asks one request, shows the desks of features, or holds a seat.
#![tactic(auto)]

mod asking;
mod ending;
mod errands;
mod host;
mod input;

use crate::asking::{Defaults, Said, client_command, refused, said_in};
use crate::ending::{End, end_line};
use crate::errands::errand_of;
use crate::host::system_host;
use crate::input::bell_at_end;
use clap::{ArgMatches, Error};
use client_talk::{Cause, Errand, judge, run};
use outside::{RealSink, Sink};
use session_outside::{Clock, StillBell};
use std::alloc::{AllocError, Global};
use std::env::{self, VarError};
use std::io::Read;
use std::net::Net;
use std::os::unix::net::UnixStream;
use std::process::ExitCode;
use std::rt::{Env, Files};
use std::thread::Threads;
use unix_site::{SystemClock, UnixLink};

/// How an errand ends whose link is there.
fn end_of(done: Result<(), Cause>) -> End {
    match done {
        Ok(()) => End::Done,
        Err(cause) => End::Stopped(cause),
    }
}

/// Connects and does what is asked for. `hold` keeps its seat until the input ends.
fn perform<R: Net + Threads, K: Clock, I: Read + Send + Drop + 'static, O: Sink>(
    rt: &R,
    alloc: Global,
    said: &Said<'_>,
    errand: &Errand<'_>,
    clock: &mut K,
    input: I,
    out: &mut O,
) -> End {
    let stream = match UnixStream::connect(rt, said.socket) {
        Ok(stream) => stream,
        Err(error) => return End::unconnected(error.kind()),
    };
    let Ok(mut link) = UnixLink::over(stream) else {
        return End::NoDaemon;
    };
    let link = &mut link;
    let client = &said.client;
    if matches!(errand, Errand::Hold(_)) {
        match bell_at_end(rt, alloc, input) {
            Some(mut bell) => end_of(run(alloc, errand, client, link, clock, &mut bell, out)),
            None => End::Stopped(Cause::NoMemory),
        }
    } else {
        let mut bell = StillBell::make();
        end_of(run(alloc, errand, client, link, clock, &mut bell, out))
    }
}

/// Shows a text that was asked for.
fn show<O: Sink>(text: &str, out: &mut O) -> End {
    match out.write(text.as_bytes()) {
        Ok(()) => End::Done,
        Err(_) => End::Stopped(Cause::WriteFault),
    }
}

/// The words of the command line behind the program's name.
fn words_of<R: Env + AllocGlobal>(rt: &R) -> Result<Vec<String>, End> {
    let mut words = Vec::new(rt.alloc());
    let mut args = match env::args(rt) {
        Ok(args) => args,
        Err(fault) => return Err(End::unread(fault.kind())),
    };
    let _ = args.next();
    for word in args {
        if words.push(word).is_err() {
            return Err(End::Stopped(Cause::NoMemory));
        }
    }
    Ok(words)
}

/// What a variable of the environment has. `None` comes where it isn't there, or is no UTF-8.
fn variable<R: Env + AllocGlobal>(rt: &R, name: &str) -> Result<Option<String>, AllocError> {
    match env::var(rt, name) {
        Ok(value) => Ok(Some(value)),
        Err(VarError::OutOfMemory) => Err(AllocError),
        Err(_) => Ok(None),
    }
}

/// The name of this host, by HOSTNAME or else by the system.
fn host_name<R: Env + Files + AllocGlobal>(rt: &R) -> Result<Option<String>, AllocError> {
    match variable(rt, "HOSTNAME")? {
        Some(host) => Ok(Some(host)),
        None => system_host(rt, rt.alloc()),
    }
}

/// What the environment says of who asks.
fn defaults<R: Env + Files + AllocGlobal>(rt: &R) -> Result<Defaults, AllocError> {
    Ok(Defaults {
        user: variable(rt, "USER")?,
        host: host_name(rt)?,
        display: variable(rt, "DISPLAY")?,
        project: variable(rt, "LM_PROJECT")?,
    })
}

/// Does what words ask for that clap takes. Words that won't do are told before anybody is connected to.
fn follow<R: Net + Threads, K: Clock, I: Read + Send + Drop + 'static, O: Sink>(
    rt: &R,
    alloc: Global,
    said: &Said<'_>,
    clock: &mut K,
    input: I,
    out: &mut O,
) -> End {
    let Some(errand) = errand_of(said.command, said.words.as_slice(), said.pace) else {
        return End::Usage;
    };
    match judge(alloc, &errand, &said.client) {
        Ok(()) => perform(rt, alloc, said, &errand, clock, input, out),
        Err(cause) => End::Stopped(cause),
    }
}

/// Tells what comes of words that clap doesn't take.
fn tell<O: Sink>(alloc: Global, error: &Error, out: &mut O) -> End {
    match refused(alloc, error) {
        Ok(text) => show(text.as_str(), out),
        Err(end) => end,
    }
}

/// Does what words ask for.
fn obey<'a, R: Net + Threads, K: Clock, I: Read + Send + Drop + 'static, O: Sink>(
    rt: &R,
    alloc: Global,
    words: &'a [String],
    defaults: &'a Defaults,
    clock: &mut K,
    input: I,
    out: &mut O,
) -> End {
    match client_command(alloc) {
        Ok(command) => match command.try_get_matches_from(words) {
            Ok(matches) => match said_in(alloc, &matches, defaults) {
                Ok(said) => follow(rt, alloc, &said, clock, input, out),
                Err(end) => end,
            },
            Err(error) => tell(alloc, &error, out),
        },
        Err(_) => End::Stopped(Cause::NoMemory),
    }
}

/// Does what the words of the command line ask for.
fn client<
    R: Env + Files + Net + Threads + AllocGlobal,
    K: Clock,
    I: Read + Send + Drop + 'static,
    O: Sink,
>(rt: &R, clock: &mut K, input: I, out: &mut O) -> End {
    let words = match words_of(rt) {
        Ok(words) => words,
        Err(end) => return end,
    };
    let Ok(defaults) = defaults(rt) else {
        return End::Stopped(Cause::NoMemory);
    };
    obey(
        rt,
        rt.alloc(),
        words.as_slice(),
        &defaults,
        clock,
        input,
        out,
    )
}

fn main(rt: HostRuntime) -> ExitCode {
    let alloc = rt.alloc();
    let mut out = RealSink::of(rt.stdout());
    let mut err = RealSink::of(rt.stderr());
    let mut clock = SystemClock::of(rt);
    let end = client(&rt, &mut clock, rt.stdin(), &mut out);
    let code = end.code();
    match end_line(alloc, &end) {
        Ok(line) => {
            let _ = err.write(line.as_slice());
        }
        Err(_) => {
            let _ = err.write(b"no memory\n");
        }
    }
    ExitCode::from(code)
}
