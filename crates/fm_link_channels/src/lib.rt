//! Each channel of hosts is a link: what happens at the hosts, cut to one channel, are events of a link.
//!
//! A push of the link is a send or the end of the channel, and a taking a receive (`AreAllOf`). The function here has
//! an empty body: its contract is a law.
#![tactic(auto)]

ghost use Rattle.std.specs.Prelude.{◌≡◌, List, []};
ghost use Rattle.std.specs.FinMap.{empty};
ghost use Rattle.fm_base.specs.declared.path.ChanName.{ChanName};
ghost use Rattle.fm_sched.specs.Schedule.{IsReached};
ghost use Rattle.fm_net.specs.Machine.{State};
ghost use Rattle.fm_net.specs.Language.{Language, language_step};
ghost use Rattle.fm_net.specs.Lawful.{IsLawfulLanguage};
ghost use Rattle.fm_net.specs.Owned.{IsOwned};
ghost use Rattle.fm_link_law.specs.Hosts.{Hosts, IsSound, state_of};
ghost use Rattle.fm_link_law.specs.Play.{HostEvent, AsksForWords};
ghost use Rattle.fm_link_channels.specs.Links.{GoesByLink};

/// Whatever happens at hosts that begin without channels and with nothing on the wire: what it is at one channel are
/// events of a link, whose two ends are the channel's then. So what the channel's reader took is a prefix of what its
/// writer pushed.
pub fn channels_are_links<P>()
    ensures { (language : Language P) (start : State P) → IsLawfulLanguage language → IsOwned language start →
        AsksForWords language start → (h : Hosts P) → IsSound h →
        IsReached (language_step language) start (state_of h) → h.channels ≡ empty → h.wire ≡ [] →
        (events : List HostEvent) (c : ChanName) → GoesByLink language h events c }
{}
