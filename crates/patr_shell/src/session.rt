//! A session: the lines of an input are answered, each before more is read.
ghost use Rattle.std.specs.Prelude.{◌==◌, position, ◌≡◌, ◌≤◌, [], ◌∷◌, ◌++◌, length, take, IfOk, IfErr, IfSome, IfNone, OnOk, OnErr, IsErrOf, is_err};
ghost use Rattle.std.specs.Bool.{OnTrue};
ghost use Rattle.std.specs.Io.KnownBytes.{Appends, Keeps};
ghost use Rattle.patr_io.specs.Causes.{HasCause};
ghost use Rattle.patr_model.specs.Session.{whole_lines_of, without_cr};
ghost use Rattle.patr_shell.specs.declared.session.AnswerFault.TheVariants.{Write, Memory as OutOfMemory};
ghost use Rattle.patr_shell.specs.Spoken.{HasLimit};
ghost use Rattle.patr_shell.specs.Answering.{HasNoFeed, last_piece, last_line, too_long_line, HasTold, HasBegun, is_write_fault, HasWrittenSession, HasBegunSession};
ghost use Rattle.patr_shell.specs.Sent.{AppendsFront, PassesOn};
ghost use Rattle.patr_shell.specs.Outcome.{is_definite, ending_of, ended_by_read, ended_by_write, IsSessionStatus, answer_status, HasRunSession};

use crate::answer::line_answer;
use crate::sending::send;
use crate::state::State;
use crate::{Gate, Language, Memory, Status};
use patr_io::{Failed, Sink, Source};
use patr_scratch::Scratch;
use std::alloc::{AllocError, Global};

const LINE_FEED: u8 = b'\n';

/// So many bytes of a line are kept. A line of as many is refused, with a CR at its end too, whatever follows.
const KEPT: usize = 4098;

/// How many bytes are read at once.
const PIECE: usize = 1 << 16;

/// The most bytes that an input may have.
const MAX_INPUT: usize = 1 << 24;

const INPUT_TOO_LONG: &[u8] = b"error: input longer than 16777216 bytes\n";

/// What stands behind a line that was answered: the next one, or the end of the session.
#[derive(Clone, Copy, Debug, PartialEq, Eq)]
pub enum Next {
    GoesOn,
    Ends,
}

/// Why a line was not answered.
#[derive(Clone, Copy, Debug, PartialEq, Eq)]
pub enum AnswerFault {
    Write,
    Memory,
}

impl From<AnswerFault> for Status {
    ghost from_gives = { λ fault status. status ≡ answer_status fault };

    fn from(fault: AnswerFault) -> Self {
        match fault {
            AnswerFault::Write => Status::WriteFault,
            AnswerFault::Memory => Status::Memory,
        }
    }
}

impl From<Failed> for AnswerFault {
    ghost from_gives = { λ _ fault. fault ≡ Write };

    fn from(_: Failed) -> Self {
        AnswerFault::Write
    }
}

impl From<AllocError> for AnswerFault {
    ghost from_gives = { λ _ fault. fault ≡ OutOfMemory };

    fn from(_: AllocError) -> Self {
        AnswerFault::Memory
    }
}

/// A line without the CR at its end.
fn trim(line: &[u8]) -> &[u8]
    ensures { result.now ≡ without_cr line.now }
{
    match line {
        [front @ .., b'\r'] => front,
        _ => line,
    }
}

/// The place of the first LF.
fn line_end(bytes: &[u8]) -> Option<usize>
    ensures { result ≡ position (λ byte. byte == 10) bytes.now }
{
    bytes.iter().position(|byte| *byte == LINE_FEED)
}

/// The bytes before the first LF, and those behind it.
fn cut_line(bytes: &[u8]) -> Option<(&[u8], &[u8])>
    ensures none { IfNone result (HasNoFeed bytes.now) }
    ensures free { IfSome result (λ cut. HasNoFeed cut.0.now) }
    ensures cut { IfSome result (λ cut. bytes.now ≡ cut.0.now ++ 10 ∷ cut.1.now) }
{
    match line_end(bytes) {
        None => None,
        Some(end) => Some((&bytes[..end], &bytes[end + 1..])),
    }
}

/// Keeps more bytes of a line, as far as they matter.
fn keep(held: &mut Vec<u8>, part: &[u8]) -> Result<(), Memory>
    requires { length held.old.items ≤ 4098 }
    ensures { OnOk result (held.new.items ≡ take 4098 (held.old.items ++ part.now)) }
{
    let room = (KEPT - held.len()).min(part.len());
    held.extend_from_slice(&part[..room])?;
    Ok(())
}

/// Answers a line, of which a CR may be the end, and keeps the state behind it.
fn answer_line<K: Sink, G: Gate>(
    alloc: Global,
    language: &Language,
    state: &mut State,
    sink: &mut K,
    line: &[u8],
    gate: &G,
    scratch: &mut Scratch,
) -> Result<Next, AnswerFault>
    requires { HasLimit state.old }
    ensures told { IfOk result (λ next. HasTold language.now state.old
        (without_cr line.now ∷ []) next state.new (K.written sink.old) (K.written sink.new)) }
    ensures front { IfErr result (λ fault. HasBegun language.now state.old
        (without_cr line.now ∷ []) fault (K.written sink.old) (K.written sink.new)) }
    ensures memory { IsErrOf result AnswerFault.Memory
        → Keeps (K.written sink.old) (K.written sink.new) }
    ensures limit { HasLimit state.new }
    ensures cause { HasCause (K.faults sink.old) (K.faults sink.new) (is_write_fault result) }
    ensures flushed { PassesOn (is_write_fault result) (K.written sink.old) (K.written sink.new)
        (K.flushed sink.old) (K.flushed sink.new) }
{
    let Some(reply) = line_answer(alloc, language, *state, trim(line), gate, scratch)? else {
        return Ok(Next::Ends);
    };
    send(sink, reply.text.as_bytes())?;
    *state = reply.state;
    Ok(Next::GoesOn)
}

/// Answers each line that ends in a piece of the input, the first with the held bytes before it, and holds what
/// stands behind the last. What stands behind a line that ends the session is left.
fn take_piece<K: Sink, G: Gate>(
    alloc: Global,
    language: &Language,
    state: &mut State,
    sink: &mut K,
    held: &mut Vec<u8>,
    piece: &[u8],
    gate: &G,
    scratch: &mut Scratch,
) -> Result<Next, AnswerFault>
    requires limit { HasLimit state.old }
    requires free { HasNoFeed held.old.items }
    requires short { length held.old.items ≤ 4098 }
    ensures told { IfOk result (λ next. HasTold language.now state.old
        (whole_lines_of (held.old.items ++ piece.now)) next
        state.new (K.written sink.old) (K.written sink.new)) }
    ensures held { IfOk result (λ next. next ≡ Next.GoesOn
        → held.new.items ≡ take 4098 (last_piece (held.old.items ++ piece.now))) }
    ensures front { IfErr result (λ fault. HasBegun language.now state.old
        (whole_lines_of (held.old.items ++ piece.now)) fault
        (K.written sink.old) (K.written sink.new)) }
    ensures limit { HasLimit state.new }
    ensures cause { HasCause (K.faults sink.old) (K.faults sink.new) (is_write_fault result) }
    ensures flushed { PassesOn (is_write_fault result) (K.written sink.old) (K.written sink.new)
        (K.flushed sink.old) (K.flushed sink.new) }
{
    let mut rest = piece;
    'lines: while let Some((front, behind)) = cut_line(rest) {
        keep(held, front)?;
        match answer_line(alloc, language, state, sink, held, gate, scratch)? {
            Next::GoesOn => {}
            Next::Ends => return Ok(Next::Ends),
        }
        held.clear();
        rest = behind;
    }
    keep(held, rest)?;
    Ok(Next::GoesOn)
}

/// Answers what stands behind the last LF, where it is a line.
fn answer_last<K: Sink, G: Gate>(
    alloc: Global,
    language: &Language,
    state: &mut State,
    sink: &mut K,
    held: &[u8],
    gate: &G,
    scratch: &mut Scratch,
) -> Result<Next, AnswerFault>
    requires { HasLimit state.old }
    ensures told { IfOk result (λ next. HasTold language.now state.old (last_line held.now) next
        state.new (K.written sink.old) (K.written sink.new)) }
    ensures front { IfErr result (λ fault. HasBegun language.now state.old (last_line held.now)
        fault (K.written sink.old) (K.written sink.new)) }
    ensures memory { IsErrOf result AnswerFault.Memory
        → Keeps (K.written sink.old) (K.written sink.new) }
    ensures cause { HasCause (K.faults sink.old) (K.faults sink.new) (is_write_fault result) }
    ensures flushed { PassesOn (is_write_fault result) (K.written sink.old) (K.written sink.new)
        (K.flushed sink.old) (K.flushed sink.new) }
{
    if trim(held).is_empty() {
        return Ok(Next::GoesOn);
    }
    answer_line(alloc, language, state, sink, held, gate, scratch)
}

/// Writes the line that refuses a longer input.
fn refuse_rest<K: Sink>(sink: &mut K) -> Result<(), Failed>
    ensures text { OnOk result (Appends (K.written sink.old) (K.written sink.new) too_long_line) }
    ensures front { OnErr result
        (AppendsFront (K.written sink.old) (K.written sink.new) too_long_line) }
    ensures cause { HasCause (K.faults sink.old) (K.faults sink.new) (is_err result) }
    ensures flushed { PassesOn (is_err result) (K.written sink.old) (K.written sink.new)
        (K.flushed sink.old) (K.flushed sink.new) }
{
    send(sink, INPUT_TOO_LONG)
}

/// Answers the lines of an input on a sink, each before more is read, up to the end or to a `:quit`, and holds no more
/// than a part of a line and what a read gave.
pub fn run_session<S: Source, K: Sink, G: Gate>(
    alloc: Global,
    language: &Language,
    first: State,
    source: &mut S,
    sink: &mut K,
    gate: &G,
) -> Status
    requires { HasLimit first }
    ensures whole { OnTrue (is_definite result) (IfSome (S.left source.old) (λ input.
        HasWrittenSession language.now first input (ending_of result)
        (K.written sink.old) (K.written sink.new))) }
    ensures front { IfSome (S.left source.old) (λ input.
        HasBegunSession language.now first input (K.written sink.old) (K.written sink.new)) }
    ensures end { HasRunSession language.now first result (S.left source.old) (S.left source.new)
        (K.written sink.old) (K.written sink.new) }
    ensures flushed { PassesOn (ended_by_write result) (K.written sink.old) (K.written sink.new)
        (K.flushed sink.old) (K.flushed sink.new) }
    ensures status { IsSessionStatus result }
    ensures source_cause { HasCause (S.faults source.old) (S.faults source.new)
        (ended_by_read result) }
    ensures sink_cause { HasCause (K.faults sink.old) (K.faults sink.new) (ended_by_write result) }
{
    let mut state = first;
    let mut scratch = Scratch::new(alloc);
    let mut held = Vec::new(alloc);
    let mut piece = [0u8; PIECE];
    let mut taken = 0usize;
    'reads: loop {
        let Ok(count) = source.read(&mut piece) else {
            return Status::ReadFault;
        };
        if count == 0 {
            match answer_last(alloc, language, &mut state, sink, &held, gate, &mut scratch) {
                Ok(_) => return Status::Done,
                Err(fault) => return Status::from(fault),
            }
        }
        let within = count.min(MAX_INPUT - taken);
        let part = &piece[..within];
        match take_piece(
            alloc,
            language,
            &mut state,
            sink,
            &mut held,
            part,
            gate,
            &mut scratch,
        ) {
            Ok(Next::GoesOn) => {}
            Ok(Next::Ends) => return Status::Done,
            Err(fault) => return Status::from(fault),
        }
        if within < count {
            match refuse_rest(sink) {
                Ok(()) => return Status::InputTooLong,
                Err(_) => return Status::WriteFault,
            }
        }
        taken += count;
    }
}
