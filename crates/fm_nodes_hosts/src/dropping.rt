//! Ports that are let go.

ghost use Rattle.std.specs.Prelude.{◌≡◌};
ghost use Rattle.fm_link_law.specs.Channels.{shut_port, shut_ports};
ghost use Rattle.fm_link_law.specs.Steps.{AreOpen, IsOpenPort};
ghost use Rattle.fm_nodes_network.specs.Channels.{linked_chans_of};

use fm_base::PortValue;
use fm_nodes_network::Channels;
use fm_nodes_procs::Runner;

// A port is let go: a writer is closed, and an inport is gone. Takes no memory.
fn shut(channels: &mut Channels, port: PortValue)
    requires { IsOpenPort (linked_chans_of channels.old) port }
    ensures { linked_chans_of channels.new ≡ shut_port port (linked_chans_of channels.old) }
{
    match port {
        PortValue::Writer(channel, _) => channels.close(&channel),
        PortValue::Reader(channel) => channels.leave(&channel),
    }
}

/// Ports are let go, the first one first. Takes no memory.
pub fn let_go<R: Runner>(runner: &R, channels: &mut Channels, drops: R::Drops)
    requires { AreOpen (linked_chans_of channels.old) (R.let_go runner.now drops) }
    ensures { linked_chans_of channels.new ≡ shut_ports (R.let_go runner.now drops) (linked_chans_of channels.old) }
{
    let mut drops = drops;
    'ports: while let Some(port) = runner.next_drop(&mut drops) {
        shut(channels, port);
    }
}
