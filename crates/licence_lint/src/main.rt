//! Advice on a licence and an options file: the slips that `licence_main check` passes without a word.
#![tactic(auto)]

mod days;
mod files;
mod lint;
mod names;
mod status;
mod words;

use crate::lint::lint;
use licence_tool::words_of;
use outside::{RealFiles, RealSink};
use std::env;
use std::process::ExitCode;

fn main(rt: HostRuntime) -> ExitCode {
    let words = words_of(rt.alloc(), env::args(&rt));
    let mut files = RealFiles::of(rt.alloc(), &rt);
    let mut out = RealSink::of(rt.stdout());
    let mut err = RealSink::of(rt.stderr());
    let status = lint(rt.alloc(), &words, &mut files, &mut out, &mut err);
    ExitCode::from(status.code())
}
