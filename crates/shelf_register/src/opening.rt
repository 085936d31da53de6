//! Opens, makes and closes registers.
ghost use Rattle.std.specs.Prelude.{◌≡◌, IfOk};
ghost use Rattle.register.specs.Registers.{IsOpenRegister};
ghost use Rattle.register_record.specs.Records.{after, nothing};
ghost use Rattle.register_record.specs.declared.event.Event.TheVariants as event;
ghost use Rattle.shelf_register.specs.Runs.{IsKnown};

use crate::reading::{End, told};
use crate::told::{file_text, shown_file, uncreated, unopened};
use asn1_core::OctetString;
use command_run::Status;
use register::Register;
use register_files::{FileError, Keeper};
use std::alloc::Global;

fn status_of(error: FileError) -> Status {
    match error {
        FileError::NotFound | FileError::InUse | FileError::Io => Status::ReadFault,
        FileError::Damaged | FileError::Foreign => Status::BadProfile,
        FileError::Full => Status::WriteFault,
        FileError::OutOfMemory => Status::OutOfMemory,
    }
}

fn no_file(alloc: Global, name: &str, error: FileError) -> End {
    let name = shown_file(name);
    let text = file_text(error);
    told(status_of(error), format!(in alloc; "{name}: {text}\n"))
}

/// Opens the register of this name.
#[tactic(auto, using(crate::proofs::Runs::known))]
pub(crate) fn opened<R: Keeper>(
    alloc: Global,
    keeper: &mut R,
    name: &str,
) -> Result<Register<R::Kept>, End>
    ensures register { IfOk result (λ r. IsOpenRegister r.is_closed (R.Kept.Store.view r.store) r.record) }
    ensures known { IfOk result (λ r. IsKnown r.record) }
{
    let store = match keeper.open(alloc, name) {
        Ok(store) => store,
        Err(error) => return Err(no_file(alloc, name, error)),
    };
    match Register::open(alloc, store) {
        Ok(register) => Ok(register),
        Err((error, store)) => {
            let _closed = keeper.close(alloc, name, store);
            Err(unopened(alloc, name, error).into())
        }
    }
}

/// Makes the register of an issuer.
pub(crate) fn created<R: Keeper>(
    alloc: Global,
    keeper: &mut R,
    name: &str,
    certificate: OctetString,
) -> Result<Register<R::Kept>, End>
    ensures register { IfOk result (λ r. IsOpenRegister r.is_closed (R.Kept.Store.view r.store) r.record) }
    ensures issuer { IfOk result (λ r. r.record ≡ after nothing (event.Issuer certificate)) }
{
    let store = match keeper.create(alloc, name) {
        Ok(store) => store,
        Err(error) => return Err(no_file(alloc, name, error)),
    };
    match Register::create(alloc, store, certificate) {
        Ok(register) => Ok(register),
        Err((error, store)) => {
            let _closed = keeper.close(alloc, name, store);
            Err(uncreated(alloc, name, error).into())
        }
    }
}

/// Closes the register. What it has is there, also where that fails.
pub(crate) fn close<R: Keeper>(
    alloc: Global,
    keeper: &mut R,
    name: &str,
    register: Register<R::Kept>,
) {
    let _closed = keeper.close(alloc, name, register.into_store());
}
