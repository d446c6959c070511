// The command `migrate`: a bundle of version 1 is brought over to version 2.
ghost use Rattle.std.specs.Prelude.{◌≡◌, ◌⊎◌, Some, IfOk, IfErr, IfSome, OnOk};
ghost use Rattle.pgo_front.specs.Answers.{IsAtEnd, ReadsAll};
ghost use Rattle.pgo_front.specs.Makes.{HasBundleLine, IsLineToMigrate, StopsMigrating, StopsMigration, bytes_of};
ghost use Rattle.pgo_front.specs.Migrations.{Migrated};
ghost use Rattle.pgo_migrate.specs.Migrates.{Migrates};

use crate::ended::Ended;
use crate::input::{MOST_BUNDLE_BYTES, read_input};
use crate::output::{Output, Written};
use crate::status::Status;
use pgo_io::source::Source;
use pgo_log_text::errors::LogStop;
use pgo_migrate::migrate::migrate;
use pgo_verdicts::migrations_are_judged_alike;
use std::alloc::Global;

/// Makes the bundle of version 2 of the bundle of version 1 that the input is.
pub fn make_migration<S: Source>(alloc: Global, input: &mut S) -> Result<Output, Ended>
    ensures ok { IfOk result (λ m. IfSome (S.left input.old) (λ text. Migrated text (bytes_of m.written))) }
    ensures fine { IfOk result (λ m. m.status ≡ Status.Fine) }
    ensures err { IfErr result (λ e. StopsMigration (S.left input.old) (S.faults input.old) (S.faults input.new) e.status) }
    ensures line { IfErr result (λ e. HasBundleLine IsLineToMigrate (S.left input.old) e.status e.line) }
    ensures ended { OnOk result (IsAtEnd (S.left input.old) (S.left input.new)) }
    ensures steady { OnOk result (S.faults input.new ≡ S.faults input.old) }
    ensures failed { IfErr result (λ e. (e.status ≡ Status.ReadFault) ⊎ (S.faults input.new ≡ S.faults input.old)) }
    ensures ended_refused { IfErr result (λ e. ReadsAll e.status → IsAtEnd (S.left input.old) (S.left input.new)) }
{
    migrations_are_judged_alike();
    match read_input(alloc, input, MOST_BUNDLE_BYTES) {
        Ok(text) => migrate_text(alloc, text.as_slice()),
        Err(status) => Err(Ended::as_status(status)),
    }
}

/// Makes the bundle of version 2 of the bundle of version 1 that the text is.
fn migrate_text(alloc: Global, text: &[u8]) -> Result<Output, Ended>
    ensures ok { IfOk result (λ m. Migrates text.now (bytes_of m.written)) }
    ensures fine { IfOk result (λ m. m.status ≡ Status.Fine) }
    ensures err { IfErr result (λ e. StopsMigrating text.now e.status) }
    ensures line { IfErr result (λ e. HasBundleLine IsLineToMigrate (Some text.now) e.status e.line) }
{
    match migrate(alloc, text) {
        Ok(written) => Ok(Output {
            written: Written::Text(written),
            status: Status::Fine,
        }),
        Err(LogStop::BadLog { line }) => Err(Ended::as_no_bundle(alloc, line)),
        Err(LogStop::NoMemory) => Err(Ended::as_status(Status::NoMemory)),
    }
}
