ghost use Rattle.std.specs.Prelude.{◌≡◌, ◌≤◌, ◌<◌, ◌∷◌, [], ℕ, List, IfOk, Result, length, map, string_bytes, true, vec_len};
ghost use Rattle.std.specs.List.{list_all};
ghost use Rattle.lic_text.specs.Reads.{IsFaultOf};
ghost use Rattle.feature_lines.specs.Licence.{Contents, fault_told as licence_fault};
ghost use Rattle.options_text.specs.Answers.{fault_told as options_fault};
ghost use Rattle.options_text.specs.Options.{OptionsFile};
ghost use Rattle.log_audit.specs.Log.{is_fit as is_fit_at};
ghost use Rattle.script_text.specs.Fits.{is_fit};
ghost use Rattle.licence_tool.specs.Asked.{Asks, HasFailed, IsOf};
ghost use Rattle.licence_tool.specs.Outcome.{bytes_or_status, licence_heard, log_heard, options_heard, options_status, position_of_set, script_heard, sets_heard, value_or_status};
ghost use Rattle.licence_tool.specs.Tool.{AreHeard, IsHeard, RefusalSays, status_of};

use crate::status::Status;
use feature_lines::{Licence, LicenceFault, read_licence};
use log_audit::{AuditFault, Numbered, read_log};
use options_text::{Options, OptionsFault, read_options};
use outside::{FileFault, Files};
use script_text::{ScriptLine, ScriptRefusal, read_script};
use std::alloc::Global;

/// The most bytes that a file may have.
const FILE_LIMIT: usize = 1_048_576;

/// The bytes of the file of a name, which stands at a position.
fn read_file<F: Files>(
    alloc: Global,
    files: &mut F,
    name: &str,
    position: u8,
) -> Result<Vec<u8>, Status>
    ensures says { IsHeard (λ v. v.items) (bytes_or_status position) (HasFailed (F.failed files.old) (F.failed files.new)) (F.contents files.old name.now) result }
    ensures short { IfOk result (λ v. vec_len v ≤ FILE_LIMIT) }
    ensures asked { Asks position (name.now ∷ []) (F.asked files.old) (F.asked files.new) (F.failed files.old) (F.failed files.new) (status_of result) }
    ensures later { length (F.failed files.old) ≤ length (F.failed files.new) }
    ensures same { (other : List ℕ) → F.contents files.new other ≡ F.contents files.old other }
{
    match files.read(alloc, name, FILE_LIMIT) {
        Ok(bytes) => Ok(bytes),
        Err(FileFault::Failed) => Err(Status::ReadFault(position)),
        Err(FileFault::TooLong) => Err(Status::FileTooLong(position)),
        Err(FileFault::NoMemory) => Err(Status::NoMemory),
    }
}

/// The status for the fault of a licence.
fn licence_status(fault: LicenceFault) -> Status
    ensures file { IsOf 1 result }
    ensures says { (licence : Result Contents LicenceFault) → IsFaultOf licence_fault licence fault → RefusalSays ⊥ (value_or_status Status.Licence licence) result }
{
    match fault {
        LicenceFault::NoMemory => Status::NoMemory,
        _ => Status::Licence(fault),
    }
}

/// The status for the fault of the options file of a rule set.
fn options_status(set: u8, fault: OptionsFault) -> Status
    ensures file { IsOf (position_of_set set) result }
    ensures says { (options : Result OptionsFile OptionsFault) → IsFaultOf options_fault options fault → RefusalSays ⊥ (value_or_status (options_status set) options) result }
{
    match fault {
        OptionsFault::NoMemory => Status::NoMemory,
        _ => {
            if set == 0 {
                Status::Options(fault)
            } else {
                Status::MoreOptions(set, fault)
            }
        }
    }
}

/// The licence of the file of a name, which is the first. The status of an error tells why there is none: `ReadFault`
/// and `FileTooLong` of the file, which may have 1,048,576 bytes, `Licence` where its grammar refuses it, or
/// `NoMemory`.
pub fn read_licence_file<F: Files>(
    alloc: Global,
    files: &mut F,
    name: &str,
) -> Result<Licence, Status>
    ensures says { IsHeard (λ licence. licence) licence_heard (HasFailed (F.failed files.old) (F.failed files.new)) (F.contents files.old name.now) result }
    ensures asked { Asks 1 (name.now ∷ []) (F.asked files.old) (F.asked files.new) (F.failed files.old) (F.failed files.new) (status_of result) }
    ensures later { length (F.failed files.old) ≤ length (F.failed files.new) }
    ensures same { (other : List ℕ) → F.contents files.new other ≡ F.contents files.old other }
{
    let file = read_file(alloc, files, name, 1)?;
    match read_licence(alloc, file.as_slice()) {
        Ok(licence) => Ok(licence),
        Err(fault) => Err(licence_status(fault)),
    }
}

/// The position of the options file of a rule set: the one of number 0 stands second, the others stand behind the third
/// file.
fn position_of_set(set: u8) -> u8
    requires { set ≤ 3 }
    ensures { result ≡ position_of_set set }
{
    if set == 0 { 2 } else { 3 + set }
}

/// The options of the file of a name, which is that of the rule set of this number, from 0. The status of an error
/// tells why there are none: `ReadFault` and `FileTooLong` of the file, which may have 1,048,576 bytes, `Options` or
/// `MoreOptions` where its grammar refuses it, or `NoMemory`.
pub fn read_options_file<F: Files>(
    alloc: Global,
    files: &mut F,
    name: &str,
    set: u8,
) -> Result<Options, Status>
    requires { set ≤ 3 }
    ensures says { IsHeard (λ options. options) (options_heard set) (HasFailed (F.failed files.old) (F.failed files.new)) (F.contents files.old name.now) result }
    ensures asked { Asks (position_of_set set) (name.now ∷ []) (F.asked files.old) (F.asked files.new) (F.failed files.old) (F.failed files.new) (status_of result) }
    ensures later { length (F.failed files.old) ≤ length (F.failed files.new) }
    ensures same { (other : List ℕ) → F.contents files.new other ≡ F.contents files.old other }
{
    let file = read_file(alloc, files, name, position_of_set(set))?;
    match read_options(alloc, file.as_slice()) {
        Ok(options) => Ok(options),
        Err(fault) => Err(options_status(set, fault)),
    }
}

/// The lines of the script of a name, which is the third file. Its bytes are put into `text`, where the names of the
/// lines stand.
pub fn read_script_file<'a, F: Files>(
    alloc: Global,
    files: &mut F,
    name: &str,
    text: &'a mut Vec<u8>,
) -> Result<Vec<ScriptLine<'a>>, Status>
    ensures says { IsHeard (λ v. v.items) script_heard (HasFailed (F.failed files.old) (F.failed files.new)) (F.contents files.old name.now) result }
    ensures fit { IfOk result (λ lines. list_all is_fit lines.items ≡ true) }
    ensures asked { Asks 3 (name.now ∷ []) (F.asked files.old) (F.asked files.new) (F.failed files.old) (F.failed files.new) (status_of result) }
    ensures later { length (F.failed files.old) ≤ length (F.failed files.new) }
    ensures same { (other : List ℕ) → F.contents files.new other ≡ F.contents files.old other }
{
    let file = read_file(alloc, files, name, 3)?;
    *text = file;
    match read_script(alloc, text.as_slice()) {
        Ok(lines) => Ok(lines),
        Err(ScriptRefusal::Fault(fault)) => Err(Status::Script(fault)),
        Err(ScriptRefusal::NoMemory) => Err(Status::NoMemory),
    }
}

/// The entries of the log of a name, which is the third file, for so many pools.
pub fn read_log_file<F: Files>(
    alloc: Global,
    files: &mut F,
    name: &str,
    pools: usize,
) -> Result<Vec<Numbered>, Status>
    ensures says { IsHeard (λ v. v.items) (log_heard pools) (HasFailed (F.failed files.old) (F.failed files.new)) (F.contents files.old name.now) result }
    ensures fit { IfOk result (λ log. list_all (is_fit_at pools) log.items ≡ true) }
    ensures asked { Asks 3 (name.now ∷ []) (F.asked files.old) (F.asked files.new) (F.failed files.old) (F.failed files.new) (status_of result) }
    ensures later { length (F.failed files.old) ≤ length (F.failed files.new) }
    ensures same { (other : List ℕ) → F.contents files.new other ≡ F.contents files.old other }
{
    let file = read_file(alloc, files, name, 3)?;
    match read_log(alloc, pools, file.as_slice()) {
        Ok(log) => Ok(log),
        Err(AuditFault::Log(fault)) => Err(Status::Script(fault)),
        Err(AuditFault::NoMemory) => Err(Status::NoMemory),
    }
}

/// The options of all rule sets: these, and those of the further options files of these names, each of which is read
/// and accepted before the next is read. The status of an error is that of the first file at fault, or `NoMemory`.
pub fn read_sets<F: Files>(
    alloc: Global,
    files: &mut F,
    names: &[String],
    options: Options,
) -> Result<Vec<Options>, Status>
    requires { length names.now ≤ 3 }
    ensures says { AreHeard (λ v. v.items) (sets_heard (options ∷ [])) (HasFailed (F.failed files.old) (F.failed files.new)) (map (λ name. F.contents files.old (string_bytes name)) names.now) result }
    ensures some { IfOk result (λ sets. 0 < length sets.items) }
    ensures few { IfOk result (λ sets. length sets.items ≤ 4) }
    ensures asked { Asks 4 (map string_bytes names.now) (F.asked files.old) (F.asked files.new) (F.failed files.old) (F.failed files.new) (status_of result) }
    ensures later { length (F.failed files.old) ≤ length (F.failed files.new) }
    ensures same { (other : List ℕ) → F.contents files.new other ≡ F.contents files.old other }
{
    let mut sets = Vec::new(alloc);
    sets.push(options)?;
    for name in names {
        let further = read_options_file(alloc, files, name.as_str(), sets.len() as u8)?;
        sets.push(further)?;
    }
    Ok(sets)
}
