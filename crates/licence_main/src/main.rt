//! The floating licence daemon and its offline tools.
#![tactic(auto)]

use licence_daemon::licenced;
use licence_tool::{Status, words_of, write_line};
use outside::{RealFiles, RealSink};
use std::env;
use std::process::ExitCode;
use unix_site::UnixSite;

fn main(rt: HostRuntime) -> ExitCode {
    let words = words_of(rt.alloc(), env::args(&rt));
    let mut files = RealFiles::of(rt.alloc(), &rt);
    let mut out = RealSink::of(rt.stdout());
    let mut err = RealSink::of(rt.stderr());
    let Ok(mut site) = UnixSite::make(rt, rt.alloc()) else {
        write_line(&mut err, b"no memory\n");
        return ExitCode::from(Status::NoMemory.code());
    };
    let status = licenced(
        &rt,
        rt.alloc(),
        &words,
        &mut files,
        &mut out,
        &mut err,
        &mut site,
    );
    site.close();
    ExitCode::from(status.code())
}
