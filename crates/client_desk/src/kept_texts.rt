//! The texts that the client keeps in its own folder.
ghost use Rattle.std.specs.Prelude.{◌≡◌, ◌∷◌, [], false, IfErr, IfOk, IsTrue, IsUtf8, None, Ok, OnOk, Some};
ghost use Rattle.std.specs.Str.{bytes_eq};
ghost use Rattle.ids.specs.FaultCount.{FailsBy};
ghost use Rattle.folder_side.specs.Folder.{Changes, Contents, with_file};
ghost use Rattle.folder_texts.specs.FolderTexts.{text_at, without_text};
ghost use Rattle.local_index.specs.IndexSpelling.{IsProper, text_of as index_text_of};
ghost use Rattle.local_index.specs.IndexText.{index_of};
ghost use Rattle.tree_model.specs.Name.{name_fault};
ghost use Rattle.client_words.specs.JobReading.{jobs_of};
ghost use Rattle.client_words.specs.JobWriting.{AreJobs, text_of};
ghost use Rattle.client_desk.specs.KeptTexts.{Answers, IsIndexFault, IsListFault, fault_of_folder, fault_of_index, index_found, index_name, index_read, is_free, is_of_folder, jobs_found, jobs_name, jobs_read};

use client_words::{Fault, Job, read_jobs, write_jobs};
use folder_side::{Folder, FolderFault};
use folder_texts::{put_text, take_text, text_in};
use ids::{Bytes, Items, LibId, Text};
use json_words::ReadFault;
use local_index::{Index, IndexKey};
use std::alloc::{AllocError, Global};
use std::str::from_utf8;
use tree_model::{Name, NameFault};

/// The jobs of the list in the client's folder: `NotInitialised` where it has none, and then `BadIndex` where its text is none.
/// Nothing is changed.
pub fn jobs_in<F: Folder>(alloc: Global, conf: &mut F) -> Result<Items<Job>, Fault>
    ensures value { (c : Contents) → F.told conf.old ≡ Some c → Answers (jobs_found (text_at c jobs_name)) result }
    ensures may { IfErr result IsListFault }
    ensures proper { IfOk result AreJobs }
    ensures stays { F.told conf.new ≡ F.told conf.old }
    ensures faults { FailsBy is_of_folder (F.faults conf.old) (F.faults conf.new) result }
{
    let found = match jobs_text(alloc, conf) {
        Ok(found) => found,
        Err(fault) => return Err(fault),
    };
    match found {
        Some(text) => read_list(alloc, text.slice()),
        None => Err(Fault::NotInitialised),
    }
}

/// The text of the list, if it is there.
pub(crate) fn jobs_text<F: Folder>(alloc: Global, conf: &mut F) -> Result<Option<Bytes>, Fault>
    ensures value { (c : Contents) → F.told conf.old ≡ Some c → IfOk result (λ text. text ≡ text_at c jobs_name) }
    ensures free { IfErr result (λ e. IsTrue (is_free e)) }
    ensures stays { F.told conf.new ≡ F.told conf.old }
    ensures faults { FailsBy is_of_folder (F.faults conf.old) (F.faults conf.new) result }
{
    let name = match jobs_name(alloc) {
        Ok(name) => name,
        Err(AllocError) => return Err(Fault::NoMemory),
    };
    match text_in(alloc, conf, &name) {
        Ok(text) => Ok(text),
        Err(fault) => Err(fault_of_folder(fault)),
    }
}

/// The jobs of a text.
fn read_list(alloc: Global, text: &[u8]) -> Result<Items<Job>, Fault>
    ensures value { Answers (jobs_read (jobs_of text.now)) result }
    ensures may { IfErr result IsIndexFault }
    ensures proper { IfOk result AreJobs }
    ensures faults { IfErr result (λ e. is_of_folder e ≡ false) }
{
    let found = match read_jobs(alloc, text) {
        Ok(found) => found,
        Err(AllocError) => return Err(Fault::NoMemory),
    };
    match found {
        Some(jobs) => Ok(jobs),
        None => Err(Fault::BadIndex),
    }
}

/// The index of a library in the client's folder: `BadIndex` where no text is there, and where it is no index of this library.
/// Nothing is changed.
pub fn index_in<F: Folder>(alloc: Global, conf: &mut F, lib: &LibId) -> Result<Index, Fault>
    ensures value { (c : Contents) → F.told conf.old ≡ Some c → Answers (index_found lib.now (text_at c (index_name lib.now))) result }
    ensures may { IfErr result IsIndexFault }
    ensures library { IfOk result (λ index. index.lib ≡ lib.now) }
    ensures proper { IfOk result IsProper }
    ensures stays { F.told conf.new ≡ F.told conf.old }
    ensures faults { FailsBy is_of_folder (F.faults conf.old) (F.faults conf.new) result }
{
    let found = match index_text(alloc, conf, lib) {
        Ok(found) => found,
        Err(fault) => return Err(fault),
    };
    match found {
        Some(text) => read_index(alloc, lib, text.slice()),
        None => Err(Fault::BadIndex),
    }
}

/// The text of the index of a library, if it is there.
fn index_text<F: Folder>(alloc: Global, conf: &mut F, lib: &LibId) -> Result<Option<Bytes>, Fault>
    ensures value { (c : Contents) → F.told conf.old ≡ Some c → IfOk result (λ text. text ≡ text_at c (index_name lib.now)) }
    ensures free { IfErr result (λ e. IsTrue (is_free e)) }
    ensures stays { F.told conf.new ≡ F.told conf.old }
    ensures faults { FailsBy is_of_folder (F.faults conf.old) (F.faults conf.new) result }
{
    let name = match index_name(alloc, lib) {
        Ok(name) => name,
        Err(AllocError) => return Err(Fault::NoMemory),
    };
    match text_in(alloc, conf, &name) {
        Ok(text) => Ok(text),
        Err(fault) => Err(fault_of_folder(fault)),
    }
}

/// The index of a library that a text is.
fn read_index(alloc: Global, lib: &LibId, text: &[u8]) -> Result<Index, Fault>
    ensures value { Answers (index_read lib.now (index_of text.now)) result }
    ensures may { IfErr result IsIndexFault }
    ensures library { IfOk result (λ index. index.lib ≡ lib.now) }
    ensures proper { IfOk result IsProper }
    ensures faults { IfErr result (λ e. is_of_folder e ≡ false) }
{
    let index = match Index::read(alloc, text) {
        Ok(index) => index,
        Err(fault) => return Err(fault_of_index(fault)),
    };
    if is_of(&index, lib) {
        return Ok(index);
    }
    Err(Fault::BadIndex)
}

/// The fault of a command whose index is none.
fn fault_of_index(fault: ReadFault<IndexKey>) -> Fault
    ensures value { result ≡ fault_of_index fault }
{
    match fault {
        ReadFault::Bad(_) => Fault::BadIndex,
        ReadFault::NoMemory => Fault::NoMemory,
    }
}

/// Whether an index is of a library.
fn is_of(index: &Index, lib: &LibId) -> bool
    ensures value { result ≡ bytes_eq index.now.lib lib.now }
{
    index.lib.as_bytes() == lib.as_bytes()
}

/// Puts the list of these jobs into the client's folder, in place of one that is there. After a fault the old or the new is
/// there, and all else is as it was.
pub fn put_jobs<F: Folder>(alloc: Global, conf: &mut F, jobs: &[Job]) -> Result<(), Fault>
    ensures value { (c : Contents) → F.told conf.old ≡ Some c →
        Changes (with_file (jobs_name ∷ []) (text_of jobs.now)) (F.told conf.old) (F.told conf.new) result }
    ensures free { IfErr result (λ e. IsTrue (is_free e)) }
    ensures faults { FailsBy is_of_folder (F.faults conf.old) (F.faults conf.new) result }
{
    let name = match jobs_name(alloc) {
        Ok(name) => name,
        Err(AllocError) => return Err(Fault::NoMemory),
    };
    let text = match write_jobs(alloc, jobs) {
        Ok(text) => text,
        Err(AllocError) => return Err(Fault::NoMemory),
    };
    match put_text(alloc, conf, &name, text.slice()) {
        Ok(()) => Ok(()),
        Err(fault) => Err(fault_of_folder(fault)),
    }
}

/// Puts an index into the client's folder, in place of one of its library that is there. A proper index is read back. After a fault
/// the old or the new is there, and all else is as it was.
pub fn put_index<F: Folder>(alloc: Global, conf: &mut F, index: &Index) -> Result<(), Fault>
    ensures value { (c : Contents) → F.told conf.old ≡ Some c →
        Changes (with_file (index_name index.now.lib ∷ []) (index_text_of index.now)) (F.told conf.old) (F.told conf.new) result }
    ensures reads_back { OnOk result (IsProper index.now → index_of (index_text_of index.now) ≡ Ok index.now) }
    ensures free { IfErr result (λ e. IsTrue (is_free e)) }
    ensures faults { FailsBy is_of_folder (F.faults conf.old) (F.faults conf.new) result }
{
    let name = match index_name(alloc, &index.lib) {
        Ok(name) => name,
        Err(AllocError) => return Err(Fault::NoMemory),
    };
    let text = match index.write(alloc) {
        Ok(text) => text,
        Err(AllocError) => return Err(Fault::NoMemory),
    };
    match put_text(alloc, conf, &name, text.slice()) {
        Ok(()) => Ok(()),
        Err(fault) => Err(fault_of_folder(fault)),
    }
}

/// Takes the index of a library away from the client's folder, if it is there. After a fault it may be gone, and all else is as
/// it was.
pub(crate) fn take_index<F: Folder>(alloc: Global, conf: &mut F, lib: &LibId) -> Result<(), Fault>
    ensures value { (c : Contents) → F.told conf.old ≡ Some c →
        Changes (without_text (index_name lib.now)) (F.told conf.old) (F.told conf.new) result }
    ensures free { IfErr result (λ e. IsTrue (is_free e)) }
    ensures faults { FailsBy is_of_folder (F.faults conf.old) (F.faults conf.new) result }
{
    let name = match index_name(alloc, lib) {
        Ok(name) => name,
        Err(AllocError) => return Err(Fault::NoMemory),
    };
    match take_text(alloc, conf, &name) {
        Ok(()) => Ok(()),
        Err(fault) => Err(fault_of_folder(fault)),
    }
}

/// The fault of a command whose folder failed.
pub fn fault_of_folder(fault: FolderFault) -> Fault
    ensures value { result ≡ fault_of_folder fault }
{
    match fault {
        FolderFault::Folder => Fault::Folder,
        FolderFault::NoMemory => Fault::NoMemory,
    }
}

/// The name of the list of jobs.
fn jobs_name(alloc: Global) -> Result<Name, AllocError>
    ensures value { IfOk result (λ name. name ≡ jobs_name) }
{
    name_of(alloc, "seaf.json")
}

/// The name of the index of a library.
fn index_name(alloc: Global, lib: &LibId) -> Result<Name, AllocError>
    ensures value { IfOk result (λ name. name ≡ index_name lib.now) }
{
    let digits = lib.digits();
    let mut text = Text::new(alloc);
    text.push_str("index-")?;
    text.push_str(text_of_digits(&digits))?;
    text.push_str(".json")?;
    name_of(alloc, text.slice())
}

/// Digits as a text.
fn text_of_digits(digits: &[u8]) -> &str
    requires utf8 { IsUtf8 digits.now }
    ensures value { result.now ≡ digits.now }
{
    match from_utf8(digits) {
        Ok(text) => text,
        Err(_) => unreachable!(),
    }
}

/// A text that is a name.
fn name_of(alloc: Global, text: &str) -> Result<Name, AllocError>
    requires good { name_fault text.now ≡ None }
    ensures value { IfOk result (λ name. name ≡ text.now) }
{
    match Name::read(alloc, text) {
        Ok(name) => Ok(name),
        Err(NameFault::NoMemory) => Err(AllocError),
        Err(NameFault::Bad(_)) => unreachable!(),
    }
}
