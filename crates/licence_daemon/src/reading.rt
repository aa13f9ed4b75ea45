ghost use Rattle.std.specs.Prelude.{◌<◌, ◌≤◌, IfOk, length, map, string_bytes};
ghost use Rattle.licence_tool.specs.Asked.{HasFailed};
ghost use Rattle.licence_tool.specs.Tool.{status_of};
ghost use Rattle.licence_daemon.specs.Asked.{AsksServe};
ghost use Rattle.licence_daemon.specs.Serve.{serve_named};
ghost use Rattle.licence_daemon.specs.Terms.{AreTerms, serve_told};

use crate::serve_words::ServeNames;
use crate::terms::Terms;
use licence_tool::{Status, read_licence_file, read_options_file, read_sets};
use outside::Files;
use std::alloc::Global;

/// Reads the files of a `serve`: the licence, the options file, and the further options files, each of which is
/// accepted before the next is read. The status of an error is that of the first file at fault, or `NoMemory`.
pub fn read_terms<F: Files>(
    alloc: Global,
    files: &mut F,
    names: &ServeNames<'_>,
) -> Result<Terms, Status>
    requires { length names.now.more.now ≤ 3 }
    ensures says { AreTerms (HasFailed (F.failed files.old) (F.failed files.new)) (serve_told (F.contents files.old) (serve_named names.now).files) result }
    ensures some { IfOk result (λ terms. 0 < length terms.sets.items) }
    ensures few { IfOk result (λ terms. length terms.sets.items ≤ 4) }
    ensures asked { AsksServe (serve_named names.now).files (F.asked files.old) (F.asked files.new) (F.failed files.old) (F.failed files.new) (status_of result) }
{
    let licence = read_licence_file(alloc, files, names.licence)?;
    let options = read_options_file(alloc, files, names.options, 0)?;
    let sets = read_sets(alloc, files, names.more, options)?;
    Ok(Terms { licence, sets })
}
