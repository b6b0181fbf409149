//! One whole operation at a copy of an account's record, for a store that replaces the copy by the
//! new record if the copy is still there.
ghost use Rattle.std.specs.Prelude.{◌≡◌, ◌↔◌, IfErr, IfOk, None, OnOk, Option, Some, drop};
ghost use Rattle.cred_book.specs.{Updates.outcome_at, declared.request.Request.Request};
ghost use Rattle.cred_c.specs.Answers.{IsWritten, output};
ghost use Rattle.cred_c.specs.Steps.{AsksFor, IsCopy, IsOperation, IsStep, fault_number, operation_number, reply_number, step_fault, text_after};
ghost use Rattle.cred_c.specs.{declared.operation.RecordOperation.RecordOperation, declared.operation.StepFault.StepFault};
ghost use Rattle.cred_phc.specs.Values.{RecordValue};

use crate::numbers::{DONE, NO_OPERATION};
use crate::operation::{RecordOperation, StepFault, StepInputs, copy_of, operation_of, request_of};
use crate::texts::put_record;
use cred_book::{Reply, Ticket, Worked};
use cred_phc::{PhcError, Record, Scratch};
use cred_pool::NoGate;
use std::alloc::Global;

/// Computes a conditional update, as in `cred_book::updates_are_one_history`: one whole operation
/// at a copy of an account's record. Writes the reply's number, 1 to 10, into `reply`. If the reply
/// makes a change, writes the text of the new record over the front of `out` and its length into
/// `len`. The length is 0 if the change removes the record.
///
/// Answers 0, or the first of these faults: 23 if there is no such operation, 24 if the copy isn't
/// a record, 25 if a password has over 256 bytes, 1 to 9 for the setting, and last 8 if memory is
/// short or 11 if `out` has too little room.
#[unsafe(no_mangle)]
pub extern "C" fn cred_step(
    alloc: Global,
    inputs: &StepInputs<'_>,
    reply: &mut u32,
    out: &mut [u8],
    len: &mut usize,
) -> u8
    ensures operation { (result ≡ 23) ↔ (IsOperation inputs.now.operation → ⊥) }
    ensures fault { (o : RecordOperation) (e : StepFault)
        → inputs.now.operation ≡ operation_number o
        → step_fault o inputs.now ≡ Some e → result ≡ fault_number e }
    ensures step { (o : RecordOperation) → inputs.now.operation ≡ operation_number o
        → step_fault o inputs.now ≡ None
        → (request : Request) × (stored : Option RecordValue)
        × AsksFor o inputs.now request × IsCopy inputs.now.copy.now stored
        × IsStep (outcome_at request (Some stored)) reply.new
        (output result out.old out.new len.new) }
    ensures kept { (result ≡ 0 → ⊥)
        → (len.new ≡ 0) × (out.new ≡ out.old) × (reply.new ≡ reply.old) }
    ensures rest { drop len.new out.new ≡ drop len.new out.old }
{
    *len = 0;
    let Some(operation) = operation_of(inputs.operation) else {
        return NO_OPERATION;
    };
    match begun(operation, inputs) {
        Ok(ticket) => match ticket.work_in(&mut Scratch::new(alloc, 0), alloc, &NoGate) {
            Ok(worked) => put_step(alloc, &worked, reply, out, len),
            Err(_) => PhcError::Memory.number(),
        },
        Err(fault) => fault.number(),
    }
}

/// Returns the request of a step, with the copy.
fn begun(operation: RecordOperation, inputs: &StepInputs<'_>) -> Result<Ticket, StepFault>
    ensures asked { IfOk result (λ task. AsksFor operation inputs.now task.0) }
    ensures copy { IfOk result (λ task. IsCopy inputs.now.copy.now task.1) }
    ensures fault { IfErr result (λ fault. step_fault operation inputs.now ≡ Some fault) }
    ensures none { OnOk result (step_fault operation inputs.now ≡ None) }
{
    let copy = copy_of(inputs.copy)?;
    let request = request_of(operation, inputs)?;
    Ok(Ticket::new(request, copy))
}

/// Writes the reply and the change of an operation.
fn put_step(alloc: Global, worked: &Worked, reply: &mut u32, out: &mut [u8], len: &mut usize) -> u8
    requires { len.old ≡ 0 }
    ensures step { IsStep (outcome_at worked.now.0 (Some worked.now.1)) reply.new
        (output result out.old out.new len.new) }
    ensures kept { (result ≡ 0 → ⊥)
        → (len.new ≡ 0) × (out.new ≡ out.old) × (reply.new ≡ reply.old) }
    ensures rest { drop len.new out.new ≡ drop len.new out.old }
{
    let answer = put_after(alloc, worked.reply(), &worked.after(), out, len);
    if answer == DONE {
        *reply = reply_number(worked.reply());
    }
    answer
}

/// Writes the text that will replace the copy.
fn put_after(
    alloc: Global,
    found: Reply,
    after: &Option<Record>,
    out: &mut [u8],
    len: &mut usize,
) -> u8
    requires { len.old ≡ 0 }
    ensures written { IsWritten (text_after (found, Some after.now))
        (output result out.old out.new len.new) }
    ensures kept { (result ≡ 0 → ⊥) → (len.new ≡ 0) × (out.new ≡ out.old) }
    ensures rest { drop len.new out.new ≡ drop len.new out.old }
{
    match after {
        Some(stored) if found.makes_change() => put_record(alloc, stored, out, len),
        _ => DONE,
    }
}

/// Returns the number of a reply: 1 to 12, in their order.
fn reply_number(reply: Reply) -> u32
    ensures { result ≡ reply_number reply }
{
    match reply {
        Reply::Enrolled => 1,
        Reply::Exists => 2,
        Reply::Yes => 3,
        Reply::No => 4,
        Reply::Absent => 5,
        Reply::Replaced => 6,
        Reply::Wrong => 7,
        Reply::Upgraded => 8,
        Reply::Kept => 9,
        Reply::Removed => 10,
        Reply::Changed { .. } => 11,
        Reply::NoAccount => 12,
    }
}
