//! Answers written by `AnswerWriter`.
ghost use Rattle.std.specs.Prelude.{◌≡◌};
ghost use Rattle.solver_text.specs.AnswerWriter.{phase_of};
ghost use Rattle.solver_text.specs.declared.answer_writer.Phase.TheVariants.{Started};

use crate::answers::{Said, in_pieces};
use byte_ports::{CallPlan, MemoryTarget, PortFault, Target};
use opb_text::Sink;
use solver_text::{AnswerWriter, Status};
use std::alloc::{AllocError, Global};
use std::test::Fail;

const TRUTHS: [bool; 20] = [
    true, false, false, false, false, false, false, true, true, false, false, false, false, false,
    false, true, true, true, true, true,
];

// Writes a literal for each of the values.
fn put_literals<W: Target>(writer: &mut AnswerWriter<W>, truths: &[bool]) -> Result<(), PortFault>
    requires { phase_of writer.old ≡ Started }
    ensures { phase_of writer.new ≡ Started }
{
    for truth in truths {
        writer.literal(*truth)?;
    }
    Ok(())
}

// Writes the answer of these values.
fn write_answer<W: Target>(out: &mut W, objective: u64, truths: &[bool]) -> Result<(), PortFault> {
    let mut writer = AnswerWriter::new(Sink::new(out));
    writer.start(objective)?;
    put_literals(&mut writer, truths)?;
    writer.finish()
}

// A target, and whether the whole answer was written to it.
#[derive(Drop)]
struct Written {
    is_whole: bool,
    target: MemoryTarget,
}

// Writes the answer of these values to a target with this plan.
fn write_to(
    alloc: Global,
    plan: CallPlan,
    objective: u64,
    truths: &[bool],
) -> Result<Written, AllocError> {
    let mut target = MemoryTarget::new(alloc, 200, plan)?;
    let is_whole = write_answer(&mut target, objective, truths).is_ok();
    Ok(Written { is_whole, target })
}

// Whether the answer with the objective 15 and this number of literals is the text, and is flushed.
fn is_written(alloc: Global, count: usize, text: &[u8]) -> bool {
    match write_to(alloc, CallPlan::new(7, None), 15, &TRUTHS[..count.min(20)]) {
        Ok(Written { is_whole, target }) => {
            is_whole && target.bytes() == text && target.flushed() == text.len()
        }
        Err(_) => false,
    }
}

// The number of literals, and the answer.
const ANSWERS: [(usize, &[u8]); 6] = [
    (0, b"o 15\ns SATISFIABLE\n"),
    (1, b"o 15\ns SATISFIABLE\nv x1\n"),
    (
        9,
        b"o 15\ns SATISFIABLE\nv x1 -x2 -x3 -x4 -x5 -x6 -x7 x8 x9\n",
    ),
    (
        10,
        b"o 15\ns SATISFIABLE\nv x1 -x2 -x3 -x4 -x5 -x6 -x7 x8 x9 -x10\n",
    ),
    (
        11,
        b"o 15\ns SATISFIABLE\nv x1 -x2 -x3 -x4 -x5 -x6 -x7 x8 x9 -x10\nv -x11\n",
    ),
    (
        20,
        b"o 15\ns SATISFIABLE\nv x1 -x2 -x3 -x4 -x5 -x6 -x7 x8 x9 -x10\nv -x11 -x12 -x13 -x14 -x15 x16 x17 x18 x19 x20\n",
    ),
];

// Lines of ten literals, and no empty one.
#[test]
fn writes_rows_of_ten(rt: HostRuntime) {
    for (count, text) in ANSWERS {
        assert!(rt; is_written(rt.alloc(), count, text), "{count} literals");
    }
}

// The meaning of the written answer of the first eight values.
fn read_again(alloc: Global, objective: u64) -> Option<Said> {
    let Ok(answer) = write_to(alloc, CallPlan::new(200, None), objective, &TRUTHS[..8]) else {
        return None;
    };
    match in_pieces(alloc, answer.target.bytes(), 5) {
        Some(Ok(said)) => Some(said),
        _ => None,
    }
}

// The written answer is read.
#[test]
fn written_answer_says_its_values(rt: HostRuntime) {
    for objective in [0, 7, 999_999_999_999_999_999] {
        let said = Said {
            status: Status::Satisfiable,
            last_o: Some(objective as i64),
            values: [true, false, false, false, false, false, false, true],
        };
        assert!(rt;
            read_again(rt.alloc(), objective) == Some(said),
            "{objective}"
        );
    }
}

// Whether a target that fails after this number of bytes was sent exactly these bytes of the answer, and
// flushed none.
fn is_cut(alloc: Global, text: &[u8], good_calls: usize) -> bool {
    match write_to(
        alloc,
        CallPlan::new(1, Some(good_calls as u64)),
        15,
        &TRUTHS[..3],
    ) {
        Ok(Written { is_whole, target }) => {
            !is_whole
                && target.bytes().len() == good_calls
                && text.starts_with(target.bytes())
                && target.flushed() == 0
        }
        Err(_) => false,
    }
}

// The bytes that were sent before the target failed are a prefix of the text. The last call is the flush.
#[test]
fn target_fails_at_each_call(rt: HostRuntime) {
    let text = b"o 15\ns SATISFIABLE\nv x1 -x2 -x3\n";
    for good_calls in 0..=text.len() {
        assert!(rt; is_cut(rt.alloc(), text, good_calls), "{good_calls} calls");
    }
}

// Starts an answer, puts a literal, and ends the text by hand.
fn write_by_sink<W: Target>(out: &mut W) -> Result<(), PortFault> {
    let mut writer = AnswerWriter::new(Sink::new(out));
    writer.start(3)?;
    writer.literal(false)?;
    writer.into_sink().finish()
}

// The sink is returned with the text that was written into it.
#[test]
fn sink_is_handed_back(rt: HostRuntime) -> Result<(), Fail> {
    let mut target = MemoryTarget::new(rt.alloc(), 200, CallPlan::new(7, None))?;
    assert!(rt; write_by_sink(&mut target).is_ok());
    assert!(rt; target.bytes() == b"o 3\ns SATISFIABLE\nv -x1".as_slice());
    Ok(())
}
