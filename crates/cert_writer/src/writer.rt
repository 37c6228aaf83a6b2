//! A certificate, written to a sink line by line.

ghost use Rattle.std.specs.Prelude.{◌≡◌, ◌<◌, ◌≤◌, [], codes, false, length, IfOk, OnOk};
ghost use Rattle.std.specs.List.{flat_map, range_with_len};
ghost use Rattle.cert_text.specs.Printed.{known_line, order_line};
ghost use Rattle.plan_model.specs.Plan.{lane};
ghost use Rattle.plan_verifier.specs.Accepted.{known_rows};
ghost use Rattle.cert_writer.specs.Carried.{IsReadyForRow, CarriesKnown};
ghost use Rattle.cert_writer.specs.Lines.{all_lines, lane_text, place_row_text};
ghost use Rattle.cert_writer.specs.NewRows.{new_row};
ghost use Rattle.cert_writer.specs.Sending.{IsSentOn};
ghost use Rattle.cert_writer.specs.Written.{IsCertificateWritten};

use crate::carried::Carried;
use crate::pending::Pending;
use crate::spelling::{push_known, push_order};
use crate::stop::CertStop;
use plan_verifier::Accepted;
use report_sink::{Sink, whether_written};
use std::alloc::{AllocError, Global};

/// Sends the line of the row at the place that is carried on.
fn write_known<S: Sink>(
    pending: &mut Pending,
    accepted: &Accepted,
    number: usize,
    carried: &mut Carried,
    out: &mut S,
) -> Result<(), CertStop>
    requires going { (S.state out.old).failed ≡ false }
    requires lane { number < length accepted.now.plan }
    requires carried { CarriesKnown accepted.now number carried.old }
    ensures sent { IsSentOn (S.state out.old) (S.state out.new) pending.old pending.new
        (known_line accepted.now.universe (lane accepted.now.plan number).name (
          carried.old.place,
          new_row accepted.now.universe (known_rows accepted.now) number carried.old.place,
        )) result }
    ensures carried { OnOk result (CarriesKnown accepted.now number carried.new) }
{
    let place = carried.place;
    let words = carried.words.as_slice();
    match push_known(
        &mut pending.text,
        accepted,
        number,
        place,
        words,
        &mut carried.spelled,
    ) {
        Ok(()) => pending.send_pieces(out),
        Err(_) => Err(pending.no_memory()),
    }
}

/// Sends the line of the row behind the instruction at a place on, where there is one.
fn write_place<S: Sink>(
    pending: &mut Pending,
    accepted: &Accepted,
    number: usize,
    place: usize,
    carried: &mut Carried,
    out: &mut S,
) -> Result<(), CertStop>
    requires going { (S.state out.old).failed ≡ false }
    requires lane { number < length accepted.now.plan }
    requires place { place < length (lane accepted.now.plan number).instructions }
    requires carried { CarriesKnown accepted.now number carried.old }
    ensures sent { IsSentOn (S.state out.old) (S.state out.new) pending.old pending.new
        (place_row_text accepted.now.universe accepted.now.plan (known_rows accepted.now) number
        place)
        result }
    ensures carried { OnOk result (CarriesKnown accepted.now number carried.new) }
{
    let instructions = accepted.plan().lane(number).instructions();
    if !instructions[place].teaches() {
        return Ok(());
    }
    carried.go_on(accepted, number, place + 1);
    write_known(pending, accepted, number, carried, out)
}

/// Sends the lines of a lane on.
fn write_lane<S: Sink>(
    pending: &mut Pending,
    accepted: &Accepted,
    number: usize,
    carried: &mut Carried,
    out: &mut S,
) -> Result<(), CertStop>
    requires going { (S.state out.old).failed ≡ false }
    requires lane { number < length accepted.now.plan }
    requires ready { IsReadyForRow accepted.now.universe carried.old }
    ensures sent { IsSentOn (S.state out.old) (S.state out.new) pending.old pending.new
        (lane_text accepted.now.universe accepted.now.plan (known_rows accepted.now) number)
        result }
    ensures ready { OnOk result (IsReadyForRow accepted.now.universe carried.new) }
{
    carried.begin(accepted, number);
    for place in 0..accepted.plan().lane(number).instructions().len() {
        write_place(pending, accepted, number, place, carried, out)?;
    }
    Ok(())
}

/// Sends the lines of the lanes on.
fn write_lanes<S: Sink>(
    pending: &mut Pending,
    accepted: &Accepted,
    carried: &mut Carried,
    out: &mut S,
) -> Result<(), CertStop>
    requires going { (S.state out.old).failed ≡ false }
    requires ready { IsReadyForRow accepted.now.universe carried.old }
    ensures { IsSentOn (S.state out.old) (S.state out.new) pending.old pending.new
        (flat_map (lane_text accepted.now.universe accepted.now.plan (known_rows accepted.now))
        (range_with_len 0 (length accepted.now.plan))) result }
{
    for number in 0..accepted.plan().lanes() {
        write_lane(pending, accepted, number, carried, out)?;
    }
    Ok(())
}

/// Sends the line of an item of the order on.
fn write_item<S: Sink>(
    pending: &mut Pending,
    accepted: &Accepted,
    number: usize,
    out: &mut S,
) -> Result<(), CertStop>
    requires going { (S.state out.old).failed ≡ false }
    requires lane { number < length accepted.now.plan }
    ensures { IsSentOn (S.state out.old) (S.state out.new) pending.old pending.new
        (order_line accepted.now.plan number) result }
{
    match push_order(&mut pending.text, accepted, number) {
        Ok(()) => pending.send_pieces(out),
        Err(_) => Err(pending.no_memory()),
    }
}

/// Sends the lines of the order on.
fn write_order<S: Sink>(
    pending: &mut Pending,
    accepted: &Accepted,
    out: &mut S,
) -> Result<(), CertStop>
    requires { (S.state out.old).failed ≡ false }
    ensures { IsSentOn (S.state out.old) (S.state out.new) pending.old pending.new
        (flat_map (order_line accepted.now.plan) accepted.now.order) result }
{
    accepted.keeps();
    let order = accepted.order();
    for i in 0..order.len() {
        write_item(pending, accepted, order[i] as usize, out)?;
    }
    Ok(())
}

/// The head of a certificate, of which nothing is written.
fn begun(alloc: Global) -> Result<Pending, AllocError>
    ensures text { IfOk result (λ pending. pending.text.items ≡ codes "cert 1\n") }
    ensures sent { IfOk result (λ pending. pending.sent ≡ 0) }
{
    let mut pending = Pending::new(alloc);
    pending.text.extend_from_slice(b"cert 1\n")?;
    Ok(pending)
}

/// Sends all lines on, and writes what is not written yet.
fn write_lines<S: Sink>(
    pending: &mut Pending,
    accepted: &Accepted,
    carried: &mut Carried,
    out: &mut S,
) -> Result<(), CertStop>
    requires going { (S.state out.old).failed ≡ false }
    requires ready { IsReadyForRow accepted.now.universe carried.old }
    ensures sent { IsSentOn (S.state out.old) (S.state out.new) pending.old pending.new
        (all_lines accepted.now.universe accepted.now.plan (known_rows accepted.now)
        accepted.now.order) result }
    ensures all { OnOk result (pending.new.text.items ≡ []) }
{
    write_lanes(pending, accepted, carried, out)?;
    write_order(pending, accepted, out)?;
    pending.send(out)
}

/// Writes the certificate of an accepted plan, as [`cert_text::print`] prints it, and gives the
/// number of its bytes, or the greatest number where they are more. Neither the rows nor the text
/// are held: each line is made as it is written.
///
/// # Errors
///
/// [`CertStop::OutOfMemory`] where memory is refused, and nothing is written then;
/// [`CertStop::CutShort`] where it is refused later, and [`CertStop::WriteFailed`] where the sink
/// fails, each with a first part of the text.
pub fn write_certificate<S: Sink>(
    alloc: Global,
    accepted: &Accepted,
    out: &mut S,
) -> Result<u64, CertStop>
    ensures { IsCertificateWritten accepted.now (S.state out.old) (S.state out.new) result }
{
    accepted.keeps();
    whether_written(out)?;
    let Ok(mut pending) = begun(alloc) else {
        return Err(CertStop::OutOfMemory);
    };
    let Ok(mut carried) = Carried::new(alloc, accepted.universe()) else {
        return Err(CertStop::OutOfMemory);
    };
    write_lines(&mut pending, accepted, &mut carried, out)?;
    let count = pending.bytes_sent();
    Ok(count)
}
