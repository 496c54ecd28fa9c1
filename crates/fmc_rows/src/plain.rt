//! Programs that are plain, and the least lines of those that aren't.

use fm_base::Line;
use fm_front::front;
use fm_nodes_plain::first_unplain;
use std::alloc::Global;
use std::test::Fail;

/// Words travel from one process to another one.
pub(crate) const WORDS: &[u8] = b"      program example
      inport (integer) pi
      outport (integer) po
      channel(in=pi, out=po)
      processes
        processcall producer(3, po)
        processcall consumer(pi)
      endprocesses
      end
      process producer(nummsgs, po)
      intent (in) nummsgs, po
      outport (integer) po
      integer nummsgs, i
      do i = 1, nummsgs
        send(po) i
      enddo
      endchannel(po)
      end
      process consumer(pi)
      intent (in) pi
      inport (integer) pi
      integer message, ioval
      receive(port=pi, iostat=ioval) message
      do while (ioval .eq. 0)
        print *, 'got', message
        receive(port=pi, iostat=ioval) message
      enddo
      end
";

/// A port is sent to another process.
pub(crate) const PORT: &[u8] = b"      PROGRAM MOVE
      INPORT (INTEGER) P
      OUTPORT (INTEGER) Q
      INPORT (OUTPORT (INTEGER)) R
      OUTPORT (OUTPORT (INTEGER)) S
      CHANNEL(IN=P,OUT=Q)
      CHANNEL(IN=R,OUT=S)
      PROCESSES
      PROCESSCALL GIVE(Q,S)
      PROCESSCALL USE(R)
      PROCESSCALL GET(P)
      ENDPROCESSES
      END
      PROCESS GIVE(Q,S)
      OUTPORT (INTEGER) Q
      OUTPORT (OUTPORT (INTEGER)) S
      SEND(S) Q
      SEND(Q) 1
      END
      PROCESS USE(R)
      INPORT (OUTPORT (INTEGER)) R
      OUTPORT (INTEGER) Q
      RECEIVE(R) Q
      SEND(Q) 2
      END
      PROCESS GET(P)
      INPORT (INTEGER) P
      RECEIVE(P) I
      PRINT *, I
      END
";

/// Two processes send to one.
pub(crate) const MERGER: &[u8] = b"      PROGRAM MERGE
      INPORT (INTEGER) P
      OUTPORT (INTEGER) Q(2)
      MERGER(IN=P,OUT=Q)
      PROCESSES
      PROCESSDO I = 1, 2
      PROCESSCALL W(I,Q(I))
      ENDPROCESSDO
      PROCESSCALL R(P)
      ENDPROCESSES
      END
      PROCESS W(N,Q)
      OUTPORT (INTEGER) Q
      SEND(Q) N
      ENDCHANNEL(Q)
      END
      PROCESS R(P)
      INPORT (INTEGER) P
   10 RECEIVE(P,END=20) I
      PRINT *, I
      GOTO 10
   20 END
";

// The least line at which a program isn't plain; 0 where it is.
fn line_of(alloc: Global, source: &[u8]) -> Result<u32, Fail> {
    if source.len() > 1_000_000 {
        return Err(Fail::from("source too long"));
    }
    let program = front(alloc, source).map_err(|_| "refused")?;
    match first_unplain(alloc, &program)? {
        Some(Line(line)) => Ok(line),
        None => Ok(0),
    }
}

#[test]
fn least_lines(rt: HostRuntime) -> Result<(), Fail> {
    let alloc = rt.alloc();
    assert_eq!(rt; line_of(alloc, WORDS)?, 0);
    assert_eq!(rt; line_of(alloc, PORT)?, 4);
    assert_eq!(rt; line_of(alloc, MERGER)?, 4);
    Ok(())
}
