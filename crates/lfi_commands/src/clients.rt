//! What is told of reads that failed and of the clients of connections, and how a run ends by these.

ghost use Rattle.std.specs.Prelude.{◌≡◌, true};
ghost use Rattle.std.specs.List.{count_by};
ghost use Rattle.lfi_file_commands.specs.Errors.{is_lost_of, writer_of};
ghost use Rattle.lfi_file_commands.specs.Failures.{Told};
ghost use Rattle.lfi_sync.specs.Fates.{is_absent, is_cut_off};
ghost use Rattle.lfi_commands.specs.Clients.{absent_line, are_all_in_time, are_all_taken, cause_told, cut_off_line, fate_line, fate_lines, not_come_line, not_well, read_line, read_lines, unread_line, EndsServing};

use crate::ending::is_of_a_read;
use lfi_file_commands::{DeviceCause, Ending, Errors};
use lfi_frame::FrameFault;
use lfi_loader::{Absence, ClientFate};
use lfi_module::CONNECTIONS;
use std::io::{ErrorKind, Write};

/// Tells by a line that a connection can't be read.
fn tell_unread<E: Write>(number: usize, cause: DeviceCause, errors: &mut Errors<E>)
    ensures told { Told (is_lost_of errors.new) (E.contents (writer_of errors.old)) (E.contents (writer_of errors.new)) (unread_line number cause) }
    ensures lost { is_lost_of errors.old ≡ true → is_lost_of errors.new ≡ true }
{
    errors.write_line(format_args!("lfiload: connection {number}: cannot read{cause}"))
}

/// Tells by a line that a connection had not come when the time was over.
fn tell_not_come<E: Write>(number: usize, errors: &mut Errors<E>)
    ensures told { Told (is_lost_of errors.new) (E.contents (writer_of errors.old)) (E.contents (writer_of errors.new)) (not_come_line number) }
    ensures lost { is_lost_of errors.old ≡ true → is_lost_of errors.new ≡ true }
{
    errors.write_text(format_args!("lfiload: time is over: connection {number} had not come\n"))
}

/// Tells by a line that a connection had not ended when the time was over.
fn tell_cut_off<E: Write>(number: usize, errors: &mut Errors<E>)
    ensures told { Told (is_lost_of errors.new) (E.contents (writer_of errors.old)) (E.contents (writer_of errors.new)) (cut_off_line number) }
    ensures lost { is_lost_of errors.old ≡ true → is_lost_of errors.new ≡ true }
{
    errors.write_text(format_args!("lfiload: time is over: connection {number} had not ended\n"))
}

/// The cause by the kind of an error, where it was told.
pub(crate) fn cause_told(kind: Option<ErrorKind>) -> DeviceCause
    ensures { result ≡ cause_told kind }
{
    match kind {
        Some(kind) => DeviceCause::of_kind(kind),
        None => DeviceCause::Other,
    }
}

/// Tells by a line of a connection of which a read failed, with an error of this kind.
fn tell_read<E: Write>(
    number: usize,
    fault: Option<FrameFault>,
    kind: Option<ErrorKind>,
    errors: &mut Errors<E>,
)
    ensures told { Told (is_lost_of errors.new) (E.contents (writer_of errors.old)) (E.contents (writer_of errors.new)) (read_line number fault kind) }
    ensures lost { is_lost_of errors.old ≡ true → is_lost_of errors.new ≡ true }
{
    if is_of_a_read(fault) {
        tell_unread(number, cause_told(kind), errors);
        return;
    }
}

/// Tells so of each connection with such a fault, by their numbers.
pub(crate) fn tell_reads<E: Write>(
    faults: &[Option<FrameFault>; CONNECTIONS],
    kinds: &[Option<ErrorKind>; CONNECTIONS],
    errors: &mut Errors<E>,
)
    ensures told { Told (is_lost_of errors.new) (E.contents (writer_of errors.old)) (E.contents (writer_of errors.new)) (read_lines faults.now kinds.now) }
    ensures lost { is_lost_of errors.old ≡ true → is_lost_of errors.new ≡ true }
{
    for (number, fault) in faults.iter().enumerate() {
        tell_read(number, *fault, kinds[number], errors);
    }
}

/// Tells by a line why a connection has no client.
fn tell_absent<E: Write>(number: usize, why: Absence, errors: &mut Errors<E>)
    ensures told { Told (is_lost_of errors.new) (E.contents (writer_of errors.old)) (E.contents (writer_of errors.new)) (absent_line number why) }
    ensures lost { is_lost_of errors.old ≡ true → is_lost_of errors.new ≡ true }
{
    match why {
        Absence::NotCome => tell_not_come(number, errors),
        Absence::NotTaken(kind) => tell_unread(number, DeviceCause::of_kind(kind), errors),
    }
}

/// Tells by a line what became of the client of a connection, unless it was heard.
fn tell_fate<E: Write>(number: usize, fate: ClientFate, errors: &mut Errors<E>)
    ensures told { Told (is_lost_of errors.new) (E.contents (writer_of errors.old)) (E.contents (writer_of errors.new)) (fate_line number fate) }
    ensures lost { is_lost_of errors.old ≡ true → is_lost_of errors.new ≡ true }
{
    match fate {
        ClientFate::Heard => {}
        ClientFate::CutOff => tell_cut_off(number, errors),
        ClientFate::Absent(why) => tell_absent(number, why, errors),
    }
}

/// Tells so of the clients of connections, by their numbers.
pub(crate) fn tell_fates<E: Write>(fates: &[ClientFate], errors: &mut Errors<E>)
    ensures told { Told (is_lost_of errors.new) (E.contents (writer_of errors.old)) (E.contents (writer_of errors.new)) (fate_lines fates.now) }
    ensures lost { is_lost_of errors.old ≡ true → is_lost_of errors.new ≡ true }
{
    for (number, fate) in fates.iter().enumerate() {
        tell_fate(number, *fate, errors);
    }
}

/// Whether each of these connections has a client.
pub(crate) fn are_all_taken(fates: &[ClientFate]) -> bool
    ensures { result ≡ are_all_taken fates.now }
{
    let mut absent = 0usize;
    for fate in fates {
        if fate.is_absent() {
            absent += 1;
        }
    }
    absent == 0
}

/// Whether none of these clients was cut off.
fn are_all_in_time(fates: &[ClientFate]) -> bool
    ensures { result ≡ are_all_in_time fates.now }
{
    let mut cut_off = 0usize;
    for fate in fates {
        if fate.is_cut_off() {
            cut_off += 1;
        }
    }
    cut_off == 0
}

/// This ending, where it isn't well; else the one that says so.
fn not_well(ending: Ending) -> Ending
    ensures { result ≡ not_well ending }
{
    match ending {
        Ending::Well => Ending::NotWell,
        other => other,
    }
}

/// How a run ends, by its load and by its clients, of which was told here.
pub(crate) fn ending_of_serve<E>(
    fates: &[ClientFate],
    by_load: Ending,
    errors: &Errors<E>,
) -> Ending
    ensures { EndsServing (are_all_in_time fates.now) (is_lost_of errors.now) by_load result }
{
    if are_all_in_time(fates) {
        by_load
    } else {
        errors.unless_lost(not_well(by_load))
    }
}
