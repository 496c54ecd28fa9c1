//! Where instructions go.

ghost use Rattle.std.specs.Prelude.{◌≡◌};
ghost use Rattle.fm_code_kinds.specs.Leading.{end_leads, leads, meet_leads};
ghost use Rattle.fm_verify_unit.specs.Leads.{led};

use fm_code::{End, Instr, Meet};

/// Where an instruction goes that ends its statement.
#[derive(Clone, Copy)]
pub enum Leads {
    /// To no address.
    Nowhere,
    /// To this address.
    To(u32),
    /// To the one address or the other.
    Either(u32, u32),
}

fn end_leads(instr: End) -> Leads
    ensures { led result ≡ end_leads instr }
{
    match instr {
        End::Goto(to)
        | End::Store(_, to)
        | End::StoreAt(to)
        | End::Print(to)
        | End::Call(_, to)
        | End::Refer(_, to)
        | End::Start(_, to) => Leads::To(to),
        End::Test(one, other) | End::Enter(one, other) | End::Again(one, other) => {
            Leads::Either(one, other)
        }
        End::Return | End::ReturnValue(_) => Leads::Nowhere,
    }
}

fn meet_leads(instr: Meet) -> Leads
    ensures { led result ≡ meet_leads instr }
{
    match instr {
        Meet::Stop => Leads::Nowhere,
        Meet::ReceiveOr(one, other) => Leads::Either(one, other),
        Meet::Send(to)
        | Meet::Receive(to)
        | Meet::Channel(to)
        | Meet::ChannelFrom(to)
        | Meet::Merger(to)
        | Meet::EndChannel(to)
        | Meet::MovePort(to)
        | Meet::Probe(to)
        | Meet::Begin(to)
        | Meet::Join(to) => Leads::To(to),
    }
}

/// Where an instruction goes that ends its statement; nowhere, where it ends none.
pub fn leads_of(instr: Instr) -> Leads
    ensures { led result ≡ leads instr }
{
    match instr {
        Instr::End(instr) => end_leads(instr),
        Instr::Meet(instr) => meet_leads(instr),
        Instr::Eval(_) | Instr::Build(_) => Leads::Nowhere,
    }
}
