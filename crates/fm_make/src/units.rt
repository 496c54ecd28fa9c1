//! The units of the program, each put last.

ghost use Rattle.std.specs.Prelude.{◌≡◌, ◌+◌, ◌<◌, ◌^◌, ◌++◌, OnOk};
ghost use Rattle.std.specs.String.{string_bytes};
ghost use Rattle.fm_make.specs.Made.{for_stages, call_text, program_text, feed_text, stage_text, take_text};

use fm_base::NoMemory;

// A stage reads its own channel and writes the next one.
fn push_call(out: &mut String, stage: u64) -> Result<(), NoMemory>
    requires { stage + 1 < 2 ^ 64 }
    ensures { OnOk result (string_bytes out.new ≡ string_bytes out.old ++ call_text stage) }
{
    let next = stage + 1;
    writeln!(out, "      PROCESSCALL S{stage}(P({stage}),Q({next}))")?;
    Ok(())
}

fn push_calls(out: &mut String, stages: u64) -> Result<(), NoMemory>
    requires { stages + 1 < 2 ^ 64 }
    ensures { OnOk result (string_bytes out.new ≡ string_bytes out.old ++ for_stages call_text stages) }
{
    for stage in 1..=stages {
        push_call(out, stage)?;
    }
    Ok(())
}

/// The PROGRAM: the channels, and a block of the feeder, the stages and the taker.
pub(crate) fn push_program(out: &mut String, stages: u64) -> Result<(), NoMemory>
    requires { stages + 1 < 2 ^ 64 }
    ensures { OnOk result (string_bytes out.new ≡ string_bytes out.old ++ program_text stages) }
{
    let channels = stages + 1;
    writeln!(
        out,
        "      PROGRAM MADE
      INPORT (INTEGER) P({channels})
      OUTPORT (INTEGER) Q({channels})
      DO 10 I = 1, {channels}
      CHANNEL(IN=P(I),OUT=Q(I))
   10 CONTINUE
      PROCESSES
      PROCESSCALL FEED(Q(1))"
    )?;
    push_calls(out, stages)?;
    writeln!(
        out,
        "      PROCESSCALL TAKE(P({channels}))
      ENDPROCESSES
      END"
    )?;
    Ok(())
}

/// The feeder: it sends the whole numbers from 1 on, and closes.
pub(crate) fn push_feed(out: &mut String, messages: u64) -> Result<(), NoMemory>
    ensures { OnOk result (string_bytes out.new ≡ string_bytes out.old ++ feed_text messages) }
{
    writeln!(
        out,
        "      PROCESS FEED(Q)
      OUTPORT (INTEGER) Q
      DO 10 I = 1, {messages}
      SEND(Q) I
   10 CONTINUE
      ENDCHANNEL(Q)
      END"
    )?;
    Ok(())
}

/// A stage: it adds its step to each message, modulo 1009.
pub(crate) fn push_stage(out: &mut String, stage: u64, step: u64) -> Result<(), NoMemory>
    ensures { OnOk result (string_bytes out.new ≡ string_bytes out.old ++ stage_text stage step) }
{
    writeln!(
        out,
        "      PROCESS S{stage}(P,Q)
      INPORT (INTEGER) P
      OUTPORT (INTEGER) Q
   10 RECEIVE(P,END=20) I
      SEND(Q) MOD(I+{step},1009)
      GOTO 10
   20 ENDCHANNEL(Q)
      END"
    )?;
    Ok(())
}

/// The taker: it prints the sum of what comes out.
pub(crate) fn push_take(out: &mut String) -> Result<(), NoMemory>
    ensures { OnOk result (string_bytes out.new ≡ string_bytes out.old ++ take_text) }
{
    writeln!(
        out,
        "      PROCESS TAKE(P)
      INPORT (INTEGER) P
      J = 0
   10 RECEIVE(P,END=20) I
      J = J+I
      GOTO 10
   20 PRINT *, J
      END"
    )?;
    Ok(())
}
