//! A directory that is opened for a request, and looked through.
ghost use Rattle.std.specs.Prelude.{◌≡◌, ◌≤◌, false, IfErr, IfOk};
ghost use Rattle.f11_files.specs.Answers.{is_fatal, is_refused, FailsToRead};
ghost use Rattle.f11_files.specs.Open.{counts_in, disk_in, has_failed, home_in, store_in, CallSparesLost};
ghost use Rattle.f11_entries.specs.Costs.{look_cost};
ghost use Rattle.f11_fcp.specs.Directories.{lacks_for_purpose, is_barred_to, opening_causes, OpensDirectory, Searches};
ghost use Rattle.f11_fcp.specs.Places.{access_table_of};
ghost use Rattle.f11_store.specs.Store.{file_named};

use crate::answer::of_known;
use crate::look::look_through;
use crate::purpose::Purpose;
use crate::rights::is_marked;
use crate::search::Search;
use crate::table::Accesses;
use f11_bytes::zeros;
use f11_dev::Device;
use f11_entries::{entry_count, is_directory};
use f11_files::Files;
use f11_rad50::Name;
use f11_store::{Attr, FileId, Mode, Refusal, Right, Uic, may};

/// Whether a caller lacks the right to use a directory so.
fn lacks_for(purpose: Purpose, caller: Uic, attr: &Attr) -> bool
    ensures { result ≡ lacks_for_purpose purpose caller attr.now.owner attr.now.protection }
{
    match purpose {
        Purpose::Look => !may(caller, attr.owner, attr.protection, Right::Read),
        Purpose::Change => !may(caller, attr.owner, attr.protection, Right::Write),
    }
}

impl Accesses {
    /// Whether some access to a directory stands against using it so.
    fn bars(&self, purpose: Purpose, directory: FileId) -> bool
        ensures { result ≡ is_barred_to purpose (access_table_of self.now) directory }
    {
        match purpose {
            Purpose::Look => false,
            Purpose::Change => self.is_barred(Mode::Write, directory),
        }
    }

    /// What a directory's header says of it, where it may be used so. Its header is read once.
    ///
    /// # Errors
    ///
    /// `SystemFile`, `NoSuchFile`, `Marked`, `NoPrivilege`, `Conflict`, `NotDirectory`.
    fn open_directory<D: Device>(
        &self,
        files: &mut Files<D>,
        caller: Uic,
        directory: FileId,
        purpose: Purpose,
    ) -> Result<Attr, Refusal>
        requires alive { has_failed files.old ≡ false }
        requires here { directory.volume ≡ 0 }
        ensures opened { IfOk result (λ attr. OpensDirectory purpose (access_table_of self.now) caller directory attr
            (home_in files.old) (disk_in files.old) (disk_in files.new)) }
        ensures refused { IfErr result (λ refusal. FailsToRead false
            (opening_causes purpose (access_table_of self.now) (store_in files.old) caller directory)
            1 refusal (disk_in files.old) (disk_in files.new)) }
        ensures alive { is_refused is_fatal result ≡ false → has_failed files.new ≡ false }
        ensures told { counts_in files.new ≡ counts_in files.old }
        ensures home { home_in files.new ≡ home_in files.old }
        ensures lost { CallSparesLost files.old files.new }
    {
        if directory.number < 4 {
            return Err(Refusal::SystemFile);
        }
        let attr = files.read_attr(directory)?;
        if is_marked(&attr) {
            return Err(Refusal::Marked);
        }
        if lacks_for(purpose, caller, &attr) {
            return Err(Refusal::NoPrivilege);
        }
        if self.bars(purpose, directory) {
            return Err(Refusal::Conflict);
        }
        if !is_directory(&attr.ident, &attr.attr) {
            return Err(Refusal::NotDirectory);
        }
        Ok(attr)
    }

    /// Looks for a name in a directory that may be used so. The header is read once for what it says; then the directory's headers are for its
    /// length, and its blocks, in order, up to the one with the record.
    ///
    /// # Errors
    ///
    /// `SystemFile`, `NoSuchFile`, `Marked`, `NoPrivilege`, `Conflict`, `NotDirectory`.
    pub(crate) fn search<D: Device>(
        &self,
        files: &mut Files<D>,
        caller: Uic,
        directory: FileId,
        name: &Name,
        purpose: Purpose,
    ) -> Result<Search, Refusal>
        requires alive { has_failed files.old ≡ false }
        requires here { directory.volume ≡ 0 }
        ensures searched { IfOk result (λ found. Searches purpose (access_table_of self.now) caller directory
            name.now found (home_in files.old) (disk_in files.old) (disk_in files.new)) }
        ensures refused { IfErr result (λ refusal. FailsToRead false
            (opening_causes purpose (access_table_of self.now) (store_in files.old) caller directory)
            (look_cost (file_named (store_in files.old) directory)) refusal
            (disk_in files.old) (disk_in files.new)) }
        ensures alive { is_refused is_fatal result ≡ false → has_failed files.new ≡ false }
        ensures told { counts_in files.new ≡ counts_in files.old }
        ensures home { home_in files.new ≡ home_in files.old }
        ensures lost { CallSparesLost files.old files.new }
    {
        let attr = self.open_directory(files, caller, directory, purpose)?;
        let length = match files.length(directory) {
            Ok(length) => length,
            Err(refusal) => return Err(of_known(refusal)),
        };
        let count = entry_count(&attr.attr, length);
        let mut last = zeros();
        let looked = look_through(files, directory, count, name, &mut last)?;
        Ok(Search {
            attr,
            length,
            count,
            looked,
            last,
        })
    }
}
